// Where to look for a field of a type by its name: for each number that names have, the first field whose name has it. In a type of many fields
// the way from its front to each of them would take longest of all.
ghost use Rattle.std.specs.Prelude.{◌-◌, ◌≤◌, ◌<◌, ◌≡◌, length, get_or};
ghost use Rattle.record.specs.Marks.{Clear};
ghost use Rattle.record.specs.Reading.{Rec};
ghost use Rattle.compare.specs.Catalog.{read};
ghost use Rattle.compare.specs.Alike.{body_at};
ghost use Rattle.compare.specs.Near.{key_of, Near, NearPut, NearSpot};

use crate::alike::body_at;
use crate::sides::Measured;
use layout::field_sizes::size_before;
use layout::names::name_at;
use layout::spots::{Ahead, SpotCursor};
use record::le::byte_at;
use record::seek::{Between, seek};
use record::sizes::sum;

// A byte as a larger number.
fn number(x: u8) -> usize
    ensures { (result ≡ x) × (result < 256) }
{
    x as usize
}

// A byte of a name, counted from its end; of a shorter name the first.
fn from_end(name: &[u8], k: usize) -> usize
    ensures { (result ≡ get_or name.now (length name.now - k) 0) × (result < 256) }
{
    if name.len() < k {
        return number(byte_at(name, 0));
    }
    number(byte_at(name, name.len() - k))
}

// The number of a name. Names of one type mostly differ in their last bytes.
pub(crate) fn key_of(name: &[u8]) -> usize
    ensures { (result ≡ key_of name.now) × (result < 1024) }
{
    let a = from_end(name, 1);
    let b = from_end(name, 2);
    let c = from_end(name, 3);
    let d = number(byte_at(name, 0));
    (a + 10 * b + 100 * c + 331 * d) % 1024
}

// An entry of the table; past its end 0, which says nothing.
fn near_entry(table: &[u64], i: usize) -> u64
    ensures { result ≡ get_or table.now i 0 }
{
    if i < table.len() { table[i] } else { 0 }
}

// Where the fields of this name are looked for, of those from a cursor on.
pub(crate) fn near_spot(table: &[u64], c: SpotCursor, name: &[u8]) -> SpotCursor
    ensures { NearSpot table.now c name.now result }
{
    let entry = near_entry(table, key_of(name));
    if entry == 0 {
        return c;
    }
    let at = (entry - 1) % 65536;
    body_at(at as usize, (entry - 1) / 65536)
}

// Puts the place and the offset of a field, where there is no earlier one of its number; answers whether there is an entry now.
fn put_near(table: &mut [u64], key: usize, at: usize, offset: u64) -> bool
    requires { key < length table.old }
    ensures { NearPut table.old key at offset table.new result }
{
    if table[key] != 0 {
        return true;
    }
    if 65536 <= at {
        return false;
    }
    if 4294967296 < offset {
        return false;
    }
    table[key] = offset * 65536 + (at as u64) + 1;
    true
}

// Fills the table for the fields from a place on.
fn fill_fields(current: &Measured, from: usize, start: u64, table: &mut [u64])
    requires { Clear table.old × (1024 ≤ length table.old) }
    ensures { let cur : Rec = read current.now.record in
        Near cur.stream cur.pool current.now.sizes.now (body_at from start) table.new }
{
    let record = current.record;
    let mut at = from;
    let mut offset = start;
    while let Some((here, after)) = seek(record.stream, at, 11, Between::Keys) {
        let key = key_of(name_at(record.stream, record.pool, here));
        if !put_near(table, key, at, offset) {
            return;
        }
        offset = sum(offset, size_before(current.sizes, after));
        at = after;
    }
}

// Fills an empty table for the fields from a cursor on; in front of a family it stays empty.
pub(crate) fn fill_near(current: &Measured, c: SpotCursor, table: &mut [u64])
    requires { Clear table.old × (1024 ≤ length table.old) }
    ensures { let cur : Rec = read current.now.record in
        Near cur.stream cur.pool current.now.sizes.now c table.new }
{
    let Ahead::Body(k) = c.ahead else {
        return;
    };
    fill_fields(current, k.at, c.offset, table);
}

// Whether a table pays: whether more than sixteen fields may be ahead.
pub(crate) fn are_many(stream: &[u8], c: SpotCursor) -> bool {
    let Ahead::Body(k) = c.ahead else {
        return false;
    };
    if 65536 <= k.at {
        return false;
    }
    byte_at(stream, k.at + 528) == 11
}
