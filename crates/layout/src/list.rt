// The list call: the layouts of a record, one line a field.
ghost use Rattle.std.specs.Prelude.{◌+◌, ◌/◌, ◌<◌, ◌≤◌, length};
ghost use Rattle.record.specs.Scalars.{scalars_of, built_in};
ghost use Rattle.record.specs.Index.{IndexRoom};
ghost use Rattle.record.specs.Reading.{Rec, rec, schema_of};
ghost use Rattle.record.specs.Read.{Exact};
ghost use Rattle.layout.specs.Room.{Room, SizesRoom};
ghost use Rattle.layout.specs.Listing.{list_of};
ghost use Rattle.layout.specs.Tables.{Tables};
ghost use Rattle.layout.specs.Answer.{text_or, list, Answered};

use crate::answer::{Answer, refused};
use crate::lines::put_types;
use crate::tables::{fill_tables, fill_with};
use record::index::fill_index;
use record::read::read_record;
use record::refusal::Side;
use record::scalars::built_in;

// The list of a record by its tables: measured first, so that a buffer without room stays as it was, then put at its front.
fn list_measured(
    rows: &[u8],
    stream: &[u8],
    pool: &[u8],
    types: &[u32],
    sizes: &[u64],
    out: &mut [u8],
) -> Answer
    requires { let cur : Rec = rec stream.now pool.now (scalars_of rows.now) in
        Tables cur types.now sizes.now }
    ensures { let cur : Rec = rec stream.now pool.now (scalars_of rows.now) in
        Answered out.old out.new (text_or (length out.old) 0 (list_of (schema_of cur))) result }
{
    let len = put_types(&mut out[..0], rows, stream, pool, types, sizes);
    if out.len() < len {
        return Answer {
            number: 10,
            side: 0,
            place: 0,
            len,
        };
    }
    put_types(out, rows, stream, pool, types, sizes);
    Answer {
        number: 0,
        side: 0,
        place: 0,
        len,
    }
}

// The list of a record by its tables. A buffer that has room for the longest lines of so many types needs no measure.
fn list_tables(
    rows: &[u8],
    stream: &[u8],
    pool: &[u8],
    types: &[u32],
    sizes: &[u64],
    out: &mut [u8],
) -> Answer
    requires { let cur : Rec = rec stream.now pool.now (scalars_of rows.now) in
        Tables cur types.now sizes.now }
    ensures { let cur : Rec = rec stream.now pool.now (scalars_of rows.now) in
        Answered out.old out.new (text_or (length out.old) 0 (list_of (schema_of cur))) result }
{
    let most = 2048 * (stream.len() / 33 + 2);
    if types.len() * most <= out.len() {
        let len = put_types(out, rows, stream, pool, types, sizes);
        return Answer {
            number: 0,
            side: 0,
            place: 0,
            len,
        };
    }
    list_measured(rows, stream, pool, types, sizes, out)
}

// The list of a record that can be read, over lent tables.
fn list_lent(
    rows: &[u8],
    stream: &[u8],
    pool: &[u8],
    index: &mut [u16],
    types: &mut [u32],
    scratch: &mut [u32],
    sizes: &mut [u64],
    out: &mut [u8],
) -> Answer
    requires { let cur : Rec = rec stream.now pool.now (scalars_of rows.now) in
        (length cur.stream ≤ 32768) × Exact cur
        × Room cur.stream types.old × Room cur.stream scratch.old
        × SizesRoom cur.stream sizes.old × IndexRoom cur.stream index.old }
    ensures { let cur : Rec = rec stream.now pool.now (scalars_of rows.now) in
        Answered out.old out.new (text_or (length out.old) 0 (list_of (schema_of cur))) result }
{
    fill_index(stream, pool, index);
    let n = fill_tables(rows, stream, pool, index, types, scratch, sizes);
    list_tables(rows, stream, pool, &types[..n], sizes, out)
}

// The list of a record that can be read, with tables for a stream of its length.
fn list_sized<const INDEX: usize, const TYPES: usize, const SIZES: usize>(
    rows: &[u8],
    stream: &[u8],
    pool: &[u8],
    out: &mut [u8],
) -> Answer
    requires { let cur : Rec = rec stream.now pool.now (scalars_of rows.now) in
        (length cur.stream ≤ 32768) × Exact cur
        × (256 + length cur.stream / 7 < INDEX) × (length cur.stream / 4 ≤ TYPES) × (length cur.stream / 33 < SIZES)
        × (INDEX ≤ 4938) × (TYPES ≤ 8192) × (SIZES ≤ 993) }
    ensures { let cur : Rec = rec stream.now pool.now (scalars_of rows.now) in
        Answered out.old out.new (text_or (length out.old) 0 (list_of (schema_of cur))) result }
{
    let mut index = [0u16; INDEX];
    let mut types = [0u32; TYPES];
    let mut scratch = [0u32; TYPES];
    let mut sizes = [0u64; SIZES];
    list_lent(
        rows,
        stream,
        pool,
        &mut index,
        &mut types,
        &mut scratch,
        &mut sizes,
        out,
    )
}

// The list of the shortest records, without an index: few names are looked up, and a look at all commands finds them sooner than an index is
// filled.
fn list_tiny(rows: &[u8], stream: &[u8], pool: &[u8], out: &mut [u8]) -> Answer
    requires { let cur : Rec = rec stream.now pool.now (scalars_of rows.now) in
        (length cur.stream ≤ 512) × Exact cur }
    ensures { let cur : Rec = rec stream.now pool.now (scalars_of rows.now) in
        Answered out.old out.new (text_or (length out.old) 0 (list_of (schema_of cur))) result }
{
    let mut types = [0u32; 128];
    let mut scratch = [0u32; 128];
    let mut sizes = [0u64; 16];
    let n = fill_with::<1>(
        rows,
        stream,
        pool,
        &[],
        &mut types,
        &mut scratch,
        &mut sizes,
    );
    list_tables(rows, stream, pool, &types[..n], &sizes, out)
}

// The list of a record that can be read.
fn list_read(rows: &[u8], stream: &[u8], pool: &[u8], out: &mut [u8]) -> Answer
    requires { let cur : Rec = rec stream.now pool.now (scalars_of rows.now) in
        (length cur.stream ≤ 32768) × Exact cur }
    ensures { let cur : Rec = rec stream.now pool.now (scalars_of rows.now) in
        Answered out.old out.new (text_or (length out.old) 0 (list_of (schema_of cur))) result }
{
    if stream.len() <= 512 {
        return list_tiny(rows, stream, pool, out);
    }
    // Clearing the tables for the longest stream that number 8 lets pass takes longer than the list of a short record.
    if stream.len() <= 2048 {
        return list_sized::<549, 512, 63>(rows, stream, pool, out);
    }
    list_sized::<4938, 8192, 993>(rows, stream, pool, out)
}

// The list of a record, read as one side.
pub fn list_layouts(side: Side, stream: &[u8], pool: &[u8], out: &mut [u8]) -> Answer
    ensures { let cur : Rec = rec stream.now pool.now built_in in
        Answered out.old out.new (list (length out.old) side cur) result }
{
    let rows = built_in();
    if let Err((refusal, place)) = read_record(side, &rows, stream, pool) {
        return refused(side, refusal, place);
    }
    list_read(&rows, stream, pool, out)
}
