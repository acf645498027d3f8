// How a field's type reads: shape_type of the Rust, as the parts of the text, and the text put into a buffer.
ghost use Rattle.std.specs.Prelude.{◌≡◌, ◌++◌, ◌+◌, ◌≤◌, length, None};
ghost use Rattle.record.specs.Base.{Str, bytes};
ghost use Rattle.record.specs.Stretch.{text_of};
ghost use Rattle.record.specs.Lists.{field_of};
ghost use Rattle.record.specs.Commands.{field_at};
ghost use Rattle.record.specs.Shapes.{named, rest_as, shape_type};
ghost use Rattle.record.specs.Write.{Puts};
ghost use Rattle.record.specs.Describe.{element_of, times, described_as, Shaped};

use crate::kind::{Kind, kind_of};
use crate::operands::{opt_number_at, opt_text_at, text_at};
use crate::sizes::or_else;
use crate::text::{Text, bytes_of};
use crate::writer::{number_len, put, put_number, put_text, put_worded};

#[derive(Clone, Copy)]
pub enum Description {
    // A kind alone.
    Plain(Text),
    // A kind and a name.
    Named(Text, Text),
    // A kind, an element and a count.
    Array(Text, Option<Text>, u32),
    // A kind, an element, rows and columns.
    Array2d(Text, Option<Text>, u32, u32),
    // A family's discriminant, an enum of that name.
    Discriminant(Text),
    // A family's length field, a scalar of that word.
    Length(Option<Text>),
}

// How a field's type reads, and whether the field is padding.
#[derive(Clone, Copy)]
pub struct Shape {
    pub described: Description,
    pub padding: bool,
}

// A kind and the type that a field names, or else its element.
fn named_at(kind: Text, s: &[u8]) -> Description
    ensures { (p : Str) → described_as p result ≡ text_of p kind ++ named (field_of p (field_at s.now) None) }
{
    if let Some(name) = opt_text_at(s, 7) {
        return Description::Named(kind, name);
    }
    if let Some(name) = opt_text_at(s, 10) {
        return Description::Named(kind, name);
    }
    Description::Plain(kind)
}

// The shape of a field, from the bytes that begin with its command. The word of the kind is looked up once for both answers.
pub fn shape_at(pool: &[u8], s: &[u8]) -> Shape
    ensures { Shaped pool.now s.now result }
{
    let kind = text_at(s, 4);
    match kind_of(bytes_of(pool, kind)) {
        Kind::InlineArray => {
            let element = opt_text_at(s, 10);
            let count = or_else(opt_number_at(s, 13), 0);
            Shape {
                described: Description::Array(kind, element, count),
                padding: false,
            }
        }
        Kind::InlineArray2d => {
            let element = opt_text_at(s, 10);
            let rows = or_else(opt_number_at(s, 18), 0);
            let cols = or_else(opt_number_at(s, 23), 0);
            Shape {
                described: Description::Array2d(kind, element, rows, cols),
                padding: false,
            }
        }
        Kind::Padding => {
            Shape {
                described: named_at(kind, s),
                padding: true,
            }
        }
        _ => {
            Shape {
                described: named_at(kind, s),
                padding: false,
            }
        }
    }
}

// Puts the word of a scalar: a byte's where none is given.
fn put_element(out: &mut [u8], at: usize, pool: &[u8], word: Option<Text>) -> usize
    ensures { Puts out.old at (element_of pool.now word) out.new result × (result ≤ at + 255) }
{
    match word {
        None => put(out, at, b"u8"),
        Some(t) => put_text(out, at, pool, t),
    }
}

// Puts a dimension of an array.
fn put_times(out: &mut [u8], at: usize, n: u32) -> usize
    ensures { Puts out.old at (times n) out.new result × (result ≤ at + 24) }
{
    let next = put(out, at, b" x ");
    put_number(out, next, n as u64)
}

// Puts a kind and the space after it.
fn put_kind(out: &mut [u8], at: usize, pool: &[u8], kind: Text) -> usize
    ensures { let text : Str = text_of pool.now kind ++ bytes " " in
        Puts out.old at text out.new result × (result ≤ at + 256) }
{
    let next = put_text(out, at, pool, kind);
    put(out, next, b" ")
}

// Puts a kind and a name.
fn put_pair(out: &mut [u8], at: usize, pool: &[u8], kind: Text, name: Text) -> usize
    ensures { let text : Str = described_as pool.now (Description.Named kind name) in
        Puts out.old at text out.new result × (result ≤ at + 511) }
{
    let next = put_kind(out, at, pool, kind);
    put_text(out, next, pool, name)
}

// Puts a kind, an element and a count.
fn put_array(
    out: &mut [u8],
    at: usize,
    pool: &[u8],
    kind: Text,
    element: Option<Text>,
    n: u32,
) -> usize
    ensures { let text : Str = described_as pool.now (Description.Array kind element n) in
        Puts out.old at text out.new result × (result ≤ at + 535) }
{
    let next = put_kind(out, at, pool, kind);
    let past = put_element(out, next, pool, element);
    put_times(out, past, n)
}

// Puts a description.
pub fn put_description(out: &mut [u8], at: usize, pool: &[u8], d: Description) -> usize
    ensures { Puts out.old at (described_as pool.now d) out.new result × (result ≤ at + 559) }
{
    match d {
        Description::Plain(kind) => put_text(out, at, pool, kind),
        Description::Named(kind, name) => put_pair(out, at, pool, kind, name),
        Description::Array(kind, element, n) => put_array(out, at, pool, kind, element, n),
        Description::Array2d(kind, element, m, n) => {
            let rows = put_array(out, at, pool, kind, element, m);
            put_times(out, rows, n)
        }
        Description::Discriminant(name) => put_worded(out, at, b"enum ", pool, name),
        Description::Length(word) => {
            let next = put(out, at, b"scalar ");
            put_element(out, next, pool, word)
        }
    }
}

// Puts a kind and the type that a field names, or else its element.
fn put_named(out: &mut [u8], at: usize, pool: &[u8], kind: Text, s: &[u8]) -> usize
    ensures { let p : Str = pool.now in
        let text : Str = text_of p kind ++ named (field_of p (field_at s.now) None) in
        Puts out.old at text out.new result × (result ≤ at + 511) }
{
    if let Some(name) = opt_text_at(s, 7) {
        return put_pair(out, at, pool, kind, name);
    }
    if let Some(name) = opt_text_at(s, 10) {
        return put_pair(out, at, pool, kind, name);
    }
    put_text(out, at, pool, kind)
}

// Puts how a field's type reads, from the bytes that begin with its command: without its parts, since the list puts every field.
pub fn put_shape(out: &mut [u8], at: usize, pool: &[u8], s: &[u8]) -> usize
    ensures { let text : Str = shape_type (field_of pool.now (field_at s.now) None) in
        Puts out.old at text out.new result × (result ≤ at + 559) }
{
    let kind = text_at(s, 4);
    match kind_of(bytes_of(pool, kind)) {
        Kind::InlineArray => {
            let element = opt_text_at(s, 10);
            let count = or_else(opt_number_at(s, 13), 0);
            put_array(out, at, pool, kind, element, count)
        }
        Kind::InlineArray2d => {
            let element = opt_text_at(s, 10);
            let rows = or_else(opt_number_at(s, 18), 0);
            let cols = or_else(opt_number_at(s, 23), 0);
            let next = put_array(out, at, pool, kind, element, rows);
            put_times(out, next, cols)
        }
        _ => put_named(out, at, pool, kind, s),
    }
}

// The length of a scalar's word.
fn element_len(pool: &[u8], word: Option<Text>) -> usize
    ensures { (result ≡ length (element_of pool.now word)) × (result ≤ 255) }
{
    match word {
        None => 2,
        Some(t) => bytes_of(pool, t).len(),
    }
}

// The length of a dimension.
fn times_len(n: u32) -> usize
    ensures { (result ≡ length (times n)) × (result ≤ 23) }
{
    3 + number_len(n as u64)
}

// The length of what follows a kind that is no array's.
fn named_len(pool: &[u8], s: &[u8]) -> usize
    ensures { (result ≡ length (named (field_of pool.now (field_at s.now) None))) × (result ≤ 256) }
{
    if let Some(name) = opt_text_at(s, 7) {
        return 1 + bytes_of(pool, name).len();
    }
    if let Some(name) = opt_text_at(s, 10) {
        return 1 + bytes_of(pool, name).len();
    }
    0
}

// The length of what follows a kind.
fn rest_len(pool: &[u8], s: &[u8], kind: Kind) -> usize
    ensures { (result ≡ length (rest_as kind (field_of pool.now (field_at s.now) None))) × (result ≤ 304) }
{
    match kind {
        Kind::InlineArray => {
            let element = element_len(pool, opt_text_at(s, 10));
            let count = times_len(or_else(opt_number_at(s, 13), 0));
            1 + element + count
        }
        Kind::InlineArray2d => {
            let element = element_len(pool, opt_text_at(s, 10));
            let rows = times_len(or_else(opt_number_at(s, 18), 0));
            let cols = times_len(or_else(opt_number_at(s, 23), 0));
            1 + element + rows + cols
        }
        _ => named_len(pool, s),
    }
}

// The length of a field's description, from the bytes that begin with its command.
pub fn shape_len(pool: &[u8], s: &[u8]) -> usize
    ensures { (result ≡ length (shape_type (field_of pool.now (field_at s.now) None))) × (result ≤ 559) }
{
    let kind = bytes_of(pool, text_at(s, 4));
    kind.len() + rest_len(pool, s, kind_of(kind))
}
