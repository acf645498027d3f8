// The lines of the list: a type's name, a dot, a field's name, its offset, its size and its description.
ghost use Rattle.std.specs.Prelude.{◌+◌, ◌*◌, ◌≤◌, ◌++◌, length};
ghost use Rattle.record.specs.Base.{Str, bytes, decimal};
ghost use Rattle.record.specs.Stretch.{text_of};
ghost use Rattle.record.specs.Commands.{place};
ghost use Rattle.record.specs.Scalars.{scalars_of};
ghost use Rattle.record.specs.Reading.{Rec, rec, schema_of};
ghost use Rattle.record.specs.Read.{Exact};
ghost use Rattle.record.specs.Write.{Puts};
ghost use Rattle.layout.specs.declared.spots.SpotCursor.{SpotCursor};
ghost use Rattle.layout.specs.Layout.{TypeLayout};
ghost use Rattle.layout.specs.Listing.{line_of, lines_of, list_of};
ghost use Rattle.layout.specs.Handles.{layout_of};
ghost use Rattle.layout.specs.Names.{name_of};
ghost use Rattle.layout.specs.Table.{Typed};
ghost use Rattle.layout.specs.FieldSizes.{SizesTable};
ghost use Rattle.layout.specs.Lines.{LinesFrom, lines_most};
ghost use Rattle.layout.specs.Spots.{spot_of, place_at, cursor_at};
ghost use Rattle.layout.specs.Tables.{Tables};

use crate::field_sizes::size_before;
use crate::measure::measure_fields;
use crate::names::{TypeName, put_name, type_name};
use crate::spots::{Ahead, Spot, first_spot, next_spot};
use record::cut;
use record::describe::{put_description, put_shape};
use record::operands::text_at;
use record::seek::{Between, seek};
use record::sizes::sum;
use record::text::Text;
use record::writer::{put, put_number, put_text};

// Puts the names of a type and of its field, each with what follows it.
fn put_names(out: &mut [u8], at: usize, pool: &[u8], owner: TypeName, name: Text) -> usize
    ensures { let p : Str = pool.now in
        let text : Str = name_of p owner ++ (bytes "." ++ (text_of p name ++ bytes " ")) in
        Puts out.old at text out.new result × (result ≤ at + 769) }
{
    let a = put_name(out, at, pool, owner);
    let b = put(out, a, b".");
    let c = put_text(out, b, pool, name);
    put(out, c, b" ")
}

// Puts an offset and a size, each with a space after it.
fn put_extent(out: &mut [u8], at: usize, offset: u64, size: u64) -> usize
    ensures { let text : Str = decimal offset ++ (bytes " " ++ (decimal size ++ bytes " ")) in
        Puts out.old at text out.new result × (result ≤ at + 44) }
{
    let a = put_number(out, at, offset);
    let b = put(out, a, b" ");
    let c = put_number(out, b, size);
    put(out, c, b" ")
}

// Puts the line of one field.
fn put_line(out: &mut [u8], at: usize, pool: &[u8], owner: TypeName, x: Spot) -> usize
    ensures { let p : Str = pool.now in
        let line : Str = line_of (name_of p owner) (spot_of p x) in
        Puts out.old at line out.new result × (result ≤ at + 2048) }
{
    let name = x.name;
    let described = x.described;
    let a = put_names(out, at, pool, owner, name);
    let b = put_extent(out, a, x.offset, x.size);
    let c = put_description(out, b, pool, described);
    put(out, c, b"\n")
}

// Puts the line of the field whose command some bytes begin with.
fn put_field(
    out: &mut [u8],
    at: usize,
    pool: &[u8],
    s: &[u8],
    owner: TypeName,
    offset: u64,
    size: u64,
) -> usize
    ensures { let p : Str = pool.now in
        let line : Str = line_of (name_of p owner) (place_at p s.now offset size) in
        Puts out.old at line out.new result × (result ≤ at + 2048) }
{
    let name = text_at(s, 1);
    let a = put_names(out, at, pool, owner, name);
    let b = put_extent(out, a, offset, size);
    let c = put_shape(out, b, pool, s);
    put(out, c, b"\n")
}

// Puts the lines of a record's fields from a place on.
fn put_fields(
    out: &mut [u8],
    at: usize,
    stream: &[u8],
    pool: &[u8],
    sizes: &[u64],
    owner: TypeName,
    from: usize,
    start: u64,
) -> usize
    ensures { let p : Str = pool.now in
        let ahead : SpotCursor = cursor_at (Ahead.Body (place from)) start in
        LinesFrom stream.now p sizes.now (name_of p owner) ahead out.old at out.new result }
{
    let mut end = at;
    let mut next = from;
    let mut offset = start;
    while let Some((here, after)) = seek(stream, next, 11, Between::Keys) {
        let size = size_before(sizes, after);
        end = put_field(out, end, pool, cut::from(stream, here), owner, offset, size);
        offset = sum(offset, size);
        next = after;
    }
    end
}

// Puts the lines of a record's fields from a place on, or only measures them, where the buffer is at its end.
fn put_body(
    out: &mut [u8],
    at: usize,
    stream: &[u8],
    pool: &[u8],
    sizes: &[u64],
    owner: TypeName,
    from: usize,
    start: u64,
) -> usize
    ensures { let p : Str = pool.now in
        let ahead : SpotCursor = cursor_at (Ahead.Body (place from)) start in
        LinesFrom stream.now p sizes.now (name_of p owner) ahead out.old at out.new result }
{
    if out.len() <= at {
        return measure_fields(at, stream, pool, sizes, owner, from, start);
    }
    put_fields(out, at, stream, pool, sizes, owner, from, start)
}

// Puts the lines of one type.
fn put_type(
    out: &mut [u8],
    at: usize,
    rows: &[u8],
    stream: &[u8],
    pool: &[u8],
    sizes: &[u64],
    handle: u32,
) -> usize
    requires { let cur : Rec = rec stream.now pool.now (scalars_of rows.now) in
        Typed cur.stream handle × SizesTable cur sizes.now × Exact cur }
    ensures { let cur : Rec = rec stream.now pool.now (scalars_of rows.now) in
        let laid : TypeLayout = layout_of cur handle in
        Puts out.old at (lines_of laid.name laid.fields) out.new result × (result ≤ at + lines_most cur.stream) }
{
    let owner = type_name(stream, handle);
    let mut cursor = first_spot(stream, handle);
    let mut end = at;
    loop {
        let ahead = cursor.ahead;
        if let Ahead::Body(k) = ahead {
            return put_body(out, end, stream, pool, sizes, owner, k.at, cursor.offset);
        }
        let Some((x, after)) = next_spot(rows, stream, pool, sizes, cursor) else {
            return end;
        };
        end = put_line(out, end, pool, owner, x);
        cursor = after;
    }
}

// Puts the lines of all types at the front of the buffer; answers where they end.
pub(crate) fn put_types(
    out: &mut [u8],
    rows: &[u8],
    stream: &[u8],
    pool: &[u8],
    types: &[u32],
    sizes: &[u64],
) -> usize
    requires { let cur : Rec = rec stream.now pool.now (scalars_of rows.now) in
        Tables cur types.now sizes.now }
    ensures { let cur : Rec = rec stream.now pool.now (scalars_of rows.now) in
        Puts out.old 0 (list_of (schema_of cur)) out.new result
        × (result ≤ length types.now * lines_most cur.stream) × (result ≤ 1099511627776) }
{
    let mut end: usize = 0;
    for handle in types {
        end = put_type(out, end, rows, stream, pool, sizes, *handle);
    }
    end
}
