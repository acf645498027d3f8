// The fields of a type one after the other, each with its offset and its size: add_type and fam_prefix of layout.rs.
ghost use Rattle.std.specs.Prelude.{List, ℕ};
ghost use Rattle.record.specs.Base.{Str};
ghost use Rattle.record.specs.Scalars.{Scalar, scalars_of};
ghost use Rattle.record.specs.Commands.{place};
ghost use Rattle.record.specs.Reading.{Rec, rec};
ghost use Rattle.layout.specs.declared.spots.SpotCursor.{SpotCursor};
ghost use Rattle.layout.specs.Spots.{cursor_at, SpotsFrom, TypeSpots, OthersPassed};

use crate::field_sizes::size_before;
use crate::names::{name_at, place_part};
use record::command::{Command, Cursor, Family};
use record::cut;
use record::describe::{Description, shape_at};
use record::le::byte_at;
use record::operands::text_at;
use record::reader::command_at;
use record::seek::{Between, after_at, seek};
use record::sizes::{front_bytes, scalar_bytes, sum, wide};
use record::text::{Text, same};

// A field of a type: where it is and how it reads.
#[derive(Clone, Copy)]
pub struct Spot {
    pub name: Text,
    pub offset: u64,
    pub size: u64,
    pub described: Description,
    pub padding: bool,
}

// What comes next of a type: a family's discriminant, its length field, then the fields of the record.
#[derive(Clone, Copy)]
pub enum Ahead {
    Front(Family, Cursor),
    Middle(Family, Cursor),
    Body(Cursor),
}

// What is ahead, and its offset as far as the limit of number 9.
#[derive(Clone, Copy)]
pub struct SpotCursor {
    pub ahead: Ahead,
    pub offset: u64,
}

// The front of a type, by its handle. Of a number that is no type's handle the contract asks nothing.
pub fn first_spot(stream: &[u8], handle: u32) -> SpotCursor
    ensures { TypeSpots stream.now handle result }
{
    let at = place_part(handle);
    // Only a family's command has to be read whole.
    if byte_at(stream, at) != 9 {
        return SpotCursor {
            ahead: Ahead::Body(Cursor::place(after_at(stream, at))),
            offset: 0,
        };
    }
    let Some((command, after)) = command_at(stream, at) else {
        return SpotCursor {
            ahead: Ahead::Body(Cursor::new()),
            offset: 0,
        };
    };
    let Command::Family(f) = command else {
        return SpotCursor {
            ahead: Ahead::Body(after),
            offset: 0,
        };
    };
    SpotCursor {
        ahead: Ahead::Front(f, after),
        offset: 0,
    }
}

// The next field of a type.
pub fn next_spot(
    rows: &[u8],
    stream: &[u8],
    pool: &[u8],
    sizes: &[u64],
    c: SpotCursor,
) -> Option<(Spot, SpotCursor)>
    ensures { let cur : Rec = rec stream.now pool.now (scalars_of rows.now) in
        SpotsFrom cur sizes.now c result }
{
    let ahead = c.ahead;
    let offset = c.offset;
    match ahead {
        Ahead::Front(f, k) => discriminant_spot(stream, pool, f, k, offset),
        Ahead::Middle(f, k) => length_spot(rows, pool, f, k, offset),
        Ahead::Body(k) => field_spot(stream, pool, sizes, k, offset),
    }
}

// A family's discriminant, an enum.
fn discriminant_spot(
    stream: &[u8],
    pool: &[u8],
    f: Family,
    k: Cursor,
    offset: u64,
) -> Option<(Spot, SpotCursor)>
    ensures { let ahead : SpotCursor = cursor_at (Ahead.Front f k) offset in
        ((w : List Scalar) (t : List ℕ) → SpotsFrom (rec stream.now pool.now w) t ahead result) }
{
    let name = f.discriminant_field;
    let named = f.discriminant_type;
    let size = wide(front_bytes(stream, pool, Some(named)));
    Some((
        Spot {
            name,
            offset,
            size,
            described: Description::Discriminant(named),
            padding: false,
        },
        SpotCursor {
            ahead: Ahead::Middle(f, k),
            offset: sum(offset, size),
        },
    ))
}

// A family's length field, a scalar.
fn length_spot(
    rows: &[u8],
    pool: &[u8],
    f: Family,
    k: Cursor,
    offset: u64,
) -> Option<(Spot, SpotCursor)>
    ensures { let ahead : SpotCursor = cursor_at (Ahead.Middle f k) offset in
        ((s : Str) (t : List ℕ) → SpotsFrom (rec s pool.now (scalars_of rows.now)) t ahead result) }
{
    let name = f.param_len_field;
    let word = f.param_len_type;
    let size = wide(scalar_bytes(rows, pool, word));
    Some((
        Spot {
            name,
            offset,
            size,
            described: Description::Length(word),
            padding: false,
        },
        SpotCursor {
            ahead: Ahead::Body(k),
            offset: sum(offset, size),
        },
    ))
}

// The next field of the record, its size from the table.
fn field_spot(
    stream: &[u8],
    pool: &[u8],
    sizes: &[u64],
    k: Cursor,
    offset: u64,
) -> Option<(Spot, SpotCursor)>
    ensures { let ahead : SpotCursor = cursor_at (Ahead.Body k) offset in
        ((w : List Scalar) → SpotsFrom (rec stream.now pool.now w) sizes.now ahead result) }
{
    let Some((place, after)) = seek(stream, k.at, 11, Between::Keys) else {
        return None;
    };
    let s = cut::from(stream, place);
    let shape = shape_at(pool, s);
    let described = shape.described;
    let size = size_before(sizes, after);
    Some((
        Spot {
            name: text_at(s, 1),
            offset,
            size,
            described,
            padding: shape.padding,
        },
        SpotCursor {
            ahead: Ahead::Body(Cursor::place(after)),
            offset: sum(offset, size),
        },
    ))
}

// The fields from a cursor on without those at their front that have another name; a family's front is not passed over.
pub fn pass_others(
    stream: &[u8],
    pool: &[u8],
    sizes: &[u64],
    c: SpotCursor,
    name: &[u8],
) -> SpotCursor
    ensures { OthersPassed stream.now pool.now sizes.now name.now c result }
{
    let ahead = c.ahead;
    let Ahead::Body(k) = ahead else {
        return c;
    };
    pass_fields(stream, pool, sizes, k.at, c.offset, name)
}

// The fields from a place on without those at their front that have another name, by the names alone: what a field has beside its name is not
// read.
fn pass_fields(
    stream: &[u8],
    pool: &[u8],
    sizes: &[u64],
    from: usize,
    start: u64,
    name: &[u8],
) -> SpotCursor
    ensures { let ahead : SpotCursor = cursor_at (Ahead.Body (place from)) start in
        OthersPassed stream.now pool.now sizes.now name.now ahead result }
{
    let mut at = from;
    let mut offset = start;
    while let Some((here, after)) = seek(stream, at, 11, Between::Keys) {
        if same(name_at(stream, pool, here), name) {
            break;
        }
        offset = sum(offset, size_before(sizes, after));
        at = after;
    }
    SpotCursor {
        ahead: Ahead::Body(Cursor::place(at)),
        offset,
    }
}
