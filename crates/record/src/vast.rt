// Number 9: the types of a record in the order of the stream, and the first one with a field that ends past the limit. `first_vast` adds up the
// sizes type by type, for which every name that a field refers to is looked up. `vast_type` saves that where it can: one walk over the commands
// gives a bound of all the sizes in a record without a look at a name, and where it is within the limit no type is vast. By callgrind the program
// layout_list, on a record of 27,730 bytes with 800 fields in 100 structures, takes 1,474,771 instructions with the bound and 1,765,704 without.
ghost use Rattle.std.specs.Prelude.{◌≡◌, List, [], ◌++◌, ◌||◌, eqb, leb, ◌≤◌, ◌+◌, length, get_or};
ghost use Rattle.record.specs.Base.{any};
ghost use Rattle.record.specs.Scalars.{scalars_of};
ghost use Rattle.record.specs.Schema.{Field};
ghost use Rattle.record.specs.Commands.{width_of, field_at};
ghost use Rattle.record.specs.Lists.{family_of};
ghost use Rattle.record.specs.Steps.{fields_at};
ghost use Rattle.record.specs.Shapes.{places, fam_prefix, limit, capped};
ghost use Rattle.record.specs.Reading.{Rec, rec, schema_of, large};
ghost use Rattle.record.specs.Vast.{OpenedFrom, front_end, first_vast, sum_sizes, unit_at, numbers_of, extra_at, bound_of};

use crate::command::{Cursor, Family, family_at};
use crate::le::byte_at;
use crate::seek::{Between, after_at, seek};
use crate::sizes::{LIMIT, front_bytes, number_at, product, scalar_bytes, size_unindexed, sum};
use crate::{cut, le};

// A type as the stream opens it: the place of its command, a family's front, and the cursor at its fields.
// There are two kinds of type beside none, so that an Option of either would be matched twice.
#[derive(Clone, Copy)]
pub(crate) enum TypeStep {
    NoType,
    Plain(usize, Cursor),
    Fronted(usize, Family, Cursor),
}

// Whether a command of this number opens a structure or a variant.
fn opens_plain(byte: u8) -> bool
    ensures { result ≡ (eqb byte 8 || eqb byte 10) }
{
    matches!(byte, 8 | 10)
}

// The next structure, family or variant of the record from a cursor on.
pub(crate) fn next_type(stream: &[u8], from: Cursor) -> TypeStep
    ensures { OpenedFrom stream.now from.at result }
{
    let mut at = from.at;
    loop {
        let after = after_at(stream, at);
        if after == 0 {
            return TypeStep::NoType;
        }
        let byte = byte_at(stream, at);
        if byte == 9 {
            return TypeStep::Fronted(at, family_at(cut::from(stream, at)), Cursor::place(after));
        }
        if opens_plain(byte) {
            return TypeStep::Plain(at, Cursor::place(after));
        }
        at = after;
    }
}

// Where the front of a family ends: its discriminant and its length field.
pub(crate) fn front_end(rows: &[u8], stream: &[u8], pool: &[u8], f: Family) -> u64
    ensures { let cur : Rec = rec stream.now pool.now (scalars_of rows.now) in
        result ≡ capped (front_end (schema_of cur) (family_of cur.pool f [] [])) }
{
    let discriminant = f.discriminant_type;
    let length = f.param_len_type;
    let first = front_bytes(stream, pool, Some(discriminant));
    let second = scalar_bytes(rows, pool, length);
    sum(u64::from(first), u64::from(second))
}

// Whether one of the fields at a cursor, the first of them at this offset, ends past the limit.
fn ends_past(rows: &[u8], stream: &[u8], pool: &[u8], from: Cursor, start: u64) -> bool
    requires { start ≤ limit }
    ensures { let cur : Rec = rec stream.now pool.now (scalars_of rows.now) in
        result ≡ any large (places (schema_of cur) start (fields_at cur.stream cur.pool from.at)) }
{
    let mut at = from.at;
    let mut offset = start;
    loop {
        let Some((place, after)) = seek(stream, at, 11, Between::Keys) else {
            return false;
        };
        let size = size_unindexed(rows, stream, pool, cut::from(stream, place));
        let end = sum(offset, size);
        if LIMIT < end {
            return true;
        }
        offset = end;
        at = after;
    }
}

// The place of the first type that is vast.
pub fn first_vast(rows: &[u8], stream: &[u8], pool: &[u8]) -> Option<usize>
    ensures { let cur : Rec = rec stream.now pool.now (scalars_of rows.now) in
        result ≡ first_vast cur 0 }
{
    let mut cursor = Cursor::new();
    loop {
        match next_type(stream, cursor) {
            TypeStep::NoType => {
                return None;
            }
            TypeStep::Plain(at, after) => {
                if ends_past(rows, stream, pool, after, 0) {
                    return Some(at);
                }
                cursor = after;
            }
            TypeStep::Fronted(at, f, after) => {
                if family_ends_past(rows, stream, pool, f, after) {
                    return Some(at);
                }
                cursor = after;
            }
        }
    }
}

// Whether a field of a family's front or one of its common fields ends past the limit.
fn family_ends_past(rows: &[u8], stream: &[u8], pool: &[u8], f: Family, from: Cursor) -> bool
    ensures { let cur : Rec = rec stream.now pool.now (scalars_of rows.now) in
        let front : List Field = fam_prefix (family_of cur.pool f [] []) in
        result ≡ any large (places (schema_of cur) 0 (front ++ fields_at cur.stream cur.pool from.at)) }
{
    let start = front_end(rows, stream, pool, f);
    if LIMIT < start {
        return true;
    }
    ends_past(rows, stream, pool, from, start)
}

// A size that no scalar of the table is larger than: the sum of all.
fn scalar_bound(rows: &[u8]) -> u64
    ensures { result ≡ capped (sum_sizes (scalars_of rows.now)) }
{
    let mut total = 0;
    for row in rows.chunks_exact(9) {
        total = sum(total, u64::from(row[8]));
        if LIMIT < total {
            return LIMIT + 1;
        }
    }
    total
}

// The sum with the size that the command at a place declares, where it is an enum's or a bit field's.
fn add_unit(total: u64, stream: &[u8], at: usize) -> u64
    ensures { capped result ≡ capped (total + unit_at stream.now at) }
{
    match byte_at(stream, at) {
        4 | 6 => sum(total, u64::from(le::u32_at(cut::from(stream, at), 4))),
        _ => total,
    }
}

// What a field's numbers add to the bound of its size, where no scalar is larger than v.
fn numbers(v: u64, s: &[u8]) -> u64
    ensures { result ≡ capped (numbers_of v (field_at s.now)) }
{
    let line = product(v, number_at(s, 13));
    let square = product(product(v, number_at(s, 18)), number_at(s, 23));
    sum(line, sum(square, number_at(s, 28)))
}

// The sum with what a field's numbers add. Few fields have any, so the flags are looked at first.
fn add_numbers(total: u64, v: u64, s: &[u8]) -> u64
    requires { 33 ≤ length s.now }
    ensures { capped result ≡ capped (total + numbers_of v (field_at s.now)) }
{
    if s[13] == 0 && s[18] == 0 && s[28] == 0 {
        return total;
    }
    sum(total, numbers(v, s))
}

// The sum with what the numbers of the command at a place add, where it is a field's.
fn add_extra(total: u64, v: u64, stream: &[u8], at: usize) -> u64
    requires { at + width_of (get_or stream.now at 0) ≤ length stream.now }
    ensures { capped result ≡ capped (total + extra_at v stream.now at) }
{
    if byte_at(stream, at) == 11 {
        return add_numbers(total, v, cut::from(stream, at));
    }
    total
}

// Whether the bound is within the limit, where no scalar is larger than v. One walk makes both sums, since the one that is multiplied is so at
// its end.
fn within(v: u64, stream: &[u8]) -> bool
    ensures { result ≡ leb (bound_of v stream.now) limit }
{
    let mut units = 0;
    let mut extra = 0;
    let mut at = 0;
    loop {
        let after = after_at(stream, at);
        if after == 0 {
            let unit = sum(sum(4, v), units);
            return sum(product(unit, stream.len() as u64), extra) <= LIMIT;
        }
        units = add_unit(units, stream, at);
        extra = add_extra(extra, v, stream, at);
        at = after;
    }
}

// The place of the first type that is vast, sought only where the bound does not show that there is none.
pub fn vast_type(rows: &[u8], stream: &[u8], pool: &[u8]) -> Option<usize>
    ensures { let cur : Rec = rec stream.now pool.now (scalars_of rows.now) in
        result ≡ first_vast cur 0 }
{
    if within(scalar_bound(rows), stream) {
        return None;
    }
    first_vast(rows, stream, pool)
}
