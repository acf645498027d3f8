// The names of types: by their handles, with their byte order, and as texts. A name in parts is a front, up to two colons and a back.
ghost use Rattle.std.specs.Prelude.{ℕ, ◌+◌, ◌≤◌, ◌≡◌, length, get_or};
ghost use Rattle.record.specs.Base.{Str, before};
ghost use Rattle.record.specs.Write.{Puts};
ghost use Rattle.layout.specs.Handles.{name_at, family_part, place_part, type_name};
ghost use Rattle.layout.specs.Names.{composed, front_of, colons_of, back_of, has_parts, Parts, name_of, name_text_at, stretches_of};

use record::cut::from;
use record::le::byte_at;
use record::operands::text_at;
use record::text::{Text, bytes_of, same};
use record::words::{skip, text_before};
use record::writer::{put_text, put_worded};

// The place of a type's command.
pub fn place_part(handle: u32) -> usize
    ensures { result ≡ place_part handle }
{
    (handle % 65536) as usize
}

// One more than the place of a variant's family; 0 for a structure and a family.
pub fn family_part(handle: u32) -> usize
    ensures { result ≡ family_part handle }
{
    (handle / 65536) as usize
}

// The text that the command at a place begins with.
fn name_text(stream: &[u8], at: usize) -> Text
    ensures { result ≡ name_text_at stream.now at }
{
    text_at(from(stream, at), 1)
}

pub fn name_at<'a>(stream: &[u8], pool: &'a [u8], at: usize) -> &'a [u8]
    ensures { (result.now ≡ name_at stream.now pool.now at) × (length result.now ≤ 255) }
{
    bytes_of(pool, name_text(stream, at))
}

// A type's name: for a variant its family's and its own, which stands after two colons.
#[derive(Clone, Copy)]
pub struct TypeName {
    pub front: Text,
    pub back: Option<Text>,
}

// The name of the type of a handle.
pub fn type_name(stream: &[u8], handle: u32) -> TypeName
    ensures { result ≡ stretches_of stream.now handle }
{
    let own = name_text(stream, place_part(handle));
    let family = family_part(handle);
    if family == 0 {
        return TypeName {
            front: own,
            back: None,
        };
    }
    TypeName {
        front: name_text(stream, family - 1),
        back: Some(own),
    }
}

// The front of a type's name: a variant's family, or the whole name.
pub fn front<'a>(stream: &[u8], pool: &'a [u8], handle: u32) -> &'a [u8]
    ensures { (result.now ≡ front_of stream.now pool.now handle) × (length result.now ≤ 255) }
{
    let family = family_part(handle);
    if family == 0 {
        return name_at(stream, pool, place_part(handle));
    }
    name_at(stream, pool, family - 1)
}

// How many colons follow the front.
pub fn colons(handle: u32) -> usize
    ensures { (result ≡ colons_of handle) × (result ≤ 2) }
{
    if family_part(handle) == 0 { 0 } else { 2 }
}

// What follows the colons: a variant's own name.
pub fn back<'a>(stream: &[u8], pool: &'a [u8], handle: u32) -> &'a [u8]
    ensures { (result.now ≡ back_of stream.now pool.now handle) × (length result.now ≤ 255) }
{
    if family_part(handle) == 0 {
        return &pool[..0];
    }
    name_at(stream, pool, place_part(handle))
}

// A byte of a name in parts; past its end 0.
fn composed_byte(f: &[u8], k: usize, b: &[u8], i: usize) -> u8
    requires { k ≤ 2 }
    ensures { result ≡ get_or (composed f.now k b.now) i 0 }
{
    if i < f.len() {
        return f[i];
    }
    let j = i - f.len();
    if j < k {
        return 58;
    }
    byte_at(b, j - k)
}

fn composed_len(f: &[u8], k: usize, b: &[u8]) -> usize
    requires { Parts f.now k b.now }
    ensures { result ≡ length (composed f.now k b.now) }
{
    f.len() + k + b.len()
}

// Whether one name in parts goes before another: the first byte in which they differ decides.
fn composed_before(f: &[u8], k: usize, b: &[u8], g: &[u8], l: usize, d: &[u8]) -> bool
    requires { Parts f.now k b.now × Parts g.now l d.now }
    ensures { result ≡ before (composed f.now k b.now) (composed g.now l d.now) }
{
    let n = composed_len(f, k, b);
    let m = composed_len(g, l, d);
    for i in skip(f, g)..n {
        if m <= i {
            return false;
        }
        let x = composed_byte(f, k, b, i);
        let y = composed_byte(g, l, d, i);
        if x != y {
            return x < y;
        }
    }
    n < m
}

// Whether one name in parts goes before another, by words where the fronts are of one length: if they differ they decide, else what follows.
fn parts_before(f: &[u8], k: usize, b: &[u8], g: &[u8], l: usize, d: &[u8]) -> bool
    requires { Parts f.now k b.now × Parts g.now l d.now }
    ensures { result ≡ before (composed f.now k b.now) (composed g.now l d.now) }
{
    if f.len() == g.len() {
        if same(f, g) {
            if k == l {
                return text_before(b, d);
            }
        } else {
            return text_before(f, g);
        }
    }
    composed_before(f, k, b, g, l, d)
}

// Whether a type's name goes before a name in parts.
pub(crate) fn type_under(
    stream: &[u8],
    pool: &[u8],
    handle: u32,
    g: &[u8],
    l: usize,
    d: &[u8],
) -> bool
    requires { Parts g.now l d.now }
    ensures { result ≡ before (type_name stream.now pool.now handle) (composed g.now l d.now) }
{
    let f = front(stream, pool, handle);
    let b = back(stream, pool, handle);
    parts_before(f, colons(handle), b, g, l, d)
}

// Whether a name in parts goes before a type's.
pub(crate) fn type_over(
    stream: &[u8],
    pool: &[u8],
    handle: u32,
    g: &[u8],
    l: usize,
    d: &[u8],
) -> bool
    requires { Parts g.now l d.now }
    ensures { result ≡ before (composed g.now l d.now) (type_name stream.now pool.now handle) }
{
    let f = front(stream, pool, handle);
    let b = back(stream, pool, handle);
    parts_before(g, l, d, f, colons(handle), b)
}

// Whether a type's name has just these parts. What follows the colons comes first, since the variants of a family differ there.
pub(crate) fn type_has(
    stream: &[u8],
    pool: &[u8],
    handle: u32,
    g: &[u8],
    l: usize,
    d: &[u8],
) -> bool
    ensures { result ≡ has_parts stream.now pool.now handle g.now l d.now }
{
    colons(handle) == l
        && same(back(stream, pool, handle), d)
        && same(front(stream, pool, handle), g)
}

// Whether one type's name goes before another's; in one family, and of two that are no variants, the own names decide.
pub fn type_before(stream: &[u8], pool: &[u8], g: u32, h: u32) -> bool
    ensures { let key : ℕ → Str = type_name stream.now pool.now in
        result ≡ before (key g) (key h) }
{
    if family_part(g) == family_part(h) {
        let a = name_at(stream, pool, place_part(g));
        let b = name_at(stream, pool, place_part(h));
        return text_before(a, b);
    }
    let f = front(stream, pool, h);
    let b = back(stream, pool, h);
    type_under(stream, pool, g, f, colons(h), b)
}

// Puts a type's name.
pub fn put_name(out: &mut [u8], at: usize, pool: &[u8], name: TypeName) -> usize
    ensures { Puts out.old at (name_of pool.now name) out.new result × (result ≤ at + 512) }
{
    let front = name.front;
    let back = name.back;
    let next = put_text(out, at, pool, front);
    let Some(own) = back else {
        return next;
    };
    put_worded(out, next, b"::", pool, own)
}

// The length of a type's name.
pub(crate) fn name_len(pool: &[u8], name: TypeName) -> usize
    ensures { (result ≡ length (name_of pool.now name)) × (result ≤ 512) }
{
    let front = name.front;
    let back = name.back;
    let n = bytes_of(pool, front).len();
    let Some(own) = back else {
        return n;
    };
    n + 2 + bytes_of(pool, own).len()
}
