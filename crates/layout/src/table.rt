// The sorted table of a record's types, and look-ups by name in it.
ghost use Rattle.std.specs.Prelude.{ℕ, ◌/◌, ◌≤◌, ◌<◌, ◌≡◌, length, take};
ghost use Rattle.record.specs.Base.{Str};
ghost use Rattle.record.specs.Marks.{Clear};
ghost use Rattle.layout.specs.Room.{Room};
ghost use Rattle.layout.specs.Handles.{type_name};
ghost use Rattle.layout.specs.Fronts.{Fronts};
ghost use Rattle.layout.specs.Names.{composed, Parts, name_of};
ghost use Rattle.layout.specs.Sort.{arranged, lasts};
ghost use Rattle.layout.specs.Table.{TypesTable, FoundType};

use crate::fronts::fill_fronts;
use crate::handles::fill_handles;
use crate::names::{TypeName, back, colons, front, type_has, type_over, type_under};
use crate::sort::{ascending, keep_last, sort_handles};
use record::text::bytes_of;

// Handles in byte order of their names, the last of each name at the front; and how many those are.
fn arrange_by(
    stream: &[u8],
    pool: &[u8],
    fronts: &[u64],
    handles: &mut [u32],
    scratch: &mut [u32],
) -> usize
    requires { (length scratch.old ≡ length handles.old) × (length handles.old ≤ 65536) × Fronts stream.now pool.now fronts.now }
    ensures { let key : ℕ → Str = type_name stream.now pool.now in
        (take result handles.new ≡ lasts key (arranged key handles.old)) × (result ≤ length handles.old) }
{
    sort_handles(stream, pool, fronts, handles, scratch);
    keep_last(stream, pool, fronts, handles)
}

// Arranges handles by the fronts of their names in a lent table.
fn arrange_lent(
    stream: &[u8],
    pool: &[u8],
    fronts: &mut [u64],
    handles: &mut [u32],
    scratch: &mut [u32],
) -> usize
    requires { (length scratch.old ≡ length handles.old) × (length handles.old ≤ 65536) × Clear fronts.old }
    ensures { let key : ℕ → Str = type_name stream.now pool.now in
        (take result handles.new ≡ lasts key (arranged key handles.old)) × (result ≤ length handles.old) }
{
    fill_fronts(stream, pool, handles, fronts);
    arrange_by(stream, pool, fronts, handles, scratch)
}

// Arranges handles, with a table of so many fronts that stands in this call.
fn arrange<const FRONTS: usize>(
    stream: &[u8],
    pool: &[u8],
    handles: &mut [u32],
    scratch: &mut [u32],
) -> usize
    requires { (length scratch.old ≡ length handles.old) × (length handles.old ≤ 65536) × (FRONTS ≤ 8192) }
    ensures { let key : ℕ → Str = type_name stream.now pool.now in
        (take result handles.new ≡ lasts key (arranged key handles.old)) × (result ≤ length handles.old) }
{
    let mut fronts = [0u64; FRONTS];
    arrange_lent(stream, pool, &mut fronts, handles, scratch)
}

// Arranges the handles of types or constants, which often go up already. A table of one front has hardly one, and serves for a few handles.
pub(crate) fn arrange_handles<const FRONTS: usize>(
    stream: &[u8],
    pool: &[u8],
    handles: &mut [u32],
    scratch: &mut [u32],
) -> usize
    requires { (length scratch.old ≡ length handles.old) × (length handles.old ≤ 65536) × (FRONTS ≤ 8192) }
    ensures { let key : ℕ → Str = type_name stream.now pool.now in
        (take result handles.new ≡ lasts key (arranged key handles.old)) × (result ≤ length handles.old) }
{
    if ascending(stream, pool, handles) {
        return handles.len();
    }
    arrange::<FRONTS>(stream, pool, handles, scratch)
}

// Arranges types, of which there may be thousands; for a few a table of fronts costs more than it saves.
fn arrange_types<const FRONTS: usize>(
    stream: &[u8],
    pool: &[u8],
    types: &mut [u32],
    scratch: &mut [u32],
) -> usize
    requires { (length scratch.old ≡ length types.old) × (length types.old ≤ 65536) × (FRONTS ≤ 8192) }
    ensures { let key : ℕ → Str = type_name stream.now pool.now in
        (take result types.new ≡ lasts key (arranged key types.old)) × (result ≤ length types.old) }
{
    if types.len() < 64 {
        return arrange_handles::<1>(stream, pool, types, scratch);
    }
    arrange_handles::<FRONTS>(stream, pool, types, scratch)
}

// The table of a record's types at the front of `types`; and how many they are.
pub(crate) fn type_table<const FRONTS: usize>(
    stream: &[u8],
    pool: &[u8],
    types: &mut [u32],
    scratch: &mut [u32],
) -> usize
    requires { (length stream.now ≤ 32768) × Room stream.now types.old × Room stream.now scratch.old × (FRONTS ≤ 8192) }
    ensures { TypesTable stream.now pool.now (take result types.new) × (result ≤ length stream.now / 4) }
{
    let n = fill_handles(stream, types);
    arrange_types::<FRONTS>(stream, pool, &mut types[..n], &mut scratch[..n])
}

// Where to look next between two indexes: at the one that is thought near, while it lies there and may be tried, else in the middle.
fn look_at(lo: usize, hi: usize, near: usize, tries: usize) -> usize
    requires { lo < hi }
    ensures { (lo ≤ result) × (result < hi) }
{
    if 0 < tries && lo <= near && near < hi {
        return near;
    }
    lo + (hi - lo) / 2
}

// The type of a name in parts. It is thought to be near an index: there and beside it is looked first.
fn find_parts(
    stream: &[u8],
    pool: &[u8],
    types: &[u32],
    f: &[u8],
    k: usize,
    b: &[u8],
    near: usize,
) -> Option<usize>
    requires { Parts f.now k b.now }
    ensures { FoundType stream.now pool.now types.now (composed f.now k b.now) result }
{
    let mut lo = 0;
    let mut hi = types.len();
    let mut next = near;
    let mut tries = 2;
    while lo < hi {
        let at = look_at(lo, hi, next, tries);
        tries = tries.saturating_sub(1);
        if type_under(stream, pool, types[at], f, k, b) {
            lo = at + 1;
            next = lo;
        } else {
            hi = at;
            next = at.saturating_sub(1);
        }
    }
    if types.len() <= lo || type_over(stream, pool, types[lo], f, k, b) {
        return None;
    }
    Some(lo)
}

// The type of a name.
fn find_type(stream: &[u8], pool: &[u8], types: &[u32], name: &[u8]) -> Option<usize>
    ensures { FoundType stream.now pool.now types.now name.now result }
{
    find_parts(stream, pool, types, name, 0, &name[..0], 0)
}

// The type that has the name of another record's type; where it is thought to be changes nothing but the time.
pub fn find_same(
    stream: &[u8],
    pool: &[u8],
    types: &[u32],
    past: &[u8],
    old: &[u8],
    handle: u32,
    near: usize,
) -> Option<usize>
    ensures { let name : Str = type_name past.now old.now handle in
        FoundType stream.now pool.now types.now name result }
{
    let f = front(past, old, handle);
    let b = back(past, old, handle);
    let k = colons(handle);
    // It is nearly always there, and to see that takes one comparison of names, where the search takes three.
    if near < types.len() && type_has(stream, pool, types[near], f, k, b) {
        return Some(near);
    }
    find_parts(stream, pool, types, f, k, b, near)
}

// The type of a name whose texts are in a pool.
pub fn find_named(
    stream: &[u8],
    pool: &[u8],
    types: &[u32],
    texts: &[u8],
    name: TypeName,
) -> Option<usize>
    ensures { FoundType stream.now pool.now types.now (name_of texts.now name) result }
{
    let front = name.front;
    let back = name.back;
    let f = bytes_of(texts, front);
    let Some(own) = back else {
        return find_type(stream, pool, types, f);
    };
    find_parts(stream, pool, types, f, 2, bytes_of(texts, own), 0)
}
