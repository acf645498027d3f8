// The number of layouts that differ between two records: unequal, or in one of them only.
ghost use Rattle.std.specs.Prelude.{◌≡◌, ◌≤◌, length, take};
ghost use Rattle.record.specs.Base.{Str};
ghost use Rattle.record.specs.Scalars.{scalars_of};
ghost use Rattle.record.specs.Index.{IndexRoom, Indexed};
ghost use Rattle.record.specs.Reading.{Rec, rec, schema_of};
ghost use Rattle.record.specs.Read.{Exact};
ghost use Rattle.layout.specs.Layout.{type_in};
ghost use Rattle.layout.specs.Handles.{type_name, layout_of};
ghost use Rattle.layout.specs.Table.{Typed, TypesTable};
ghost use Rattle.layout.specs.FieldSizes.{SizesTable};
ghost use Rattle.layout.specs.Tables.{Tables};
ghost use Rattle.definition.specs.Fields.{same_as, changed};
ghost use Rattle.drafts.specs.Count.{count_changed};
ghost use Rattle.drafts.specs.Counted.{layouts_of, Legible, Lent, Rooms, IsThere, Gone};

use compare::layouts::same_fields;
use layout::table::find_same;
use layout::tables::fill_tables;
use record::index::fill_index;

// Whether a type has the layout that another record has under its name.
fn is_same(
    rows: &[u8],
    stream: &[u8],
    pool: &[u8],
    sizes: &[u64],
    handle: u32,
    past: &[u8],
    old: &[u8],
    shipped: &[u32],
    widths: &[u64],
) -> bool
    requires { let cur : Rec = rec stream.now pool.now (scalars_of rows.now) in
        let rel : Rec = rec past.now old.now (scalars_of rows.now) in
        Typed stream.now handle × SizesTable cur sizes.now × Exact cur × Tables rel shipped.now widths.now }
    ensures { let cur : Rec = rec stream.now pool.now (scalars_of rows.now) in
        let rel : Rec = rec past.now old.now (scalars_of rows.now) in
        result ≡ same_as (type_in (type_name cur.stream cur.pool handle) (layouts_of rel)) (layout_of cur handle) }
{
    let Some(i) = find_same(past, old, shipped, stream, pool, handle, 0) else {
        return false;
    };
    same_fields(
        rows, past, old, widths, shipped[i], stream, pool, sizes, handle,
    )
}

// How many types another record has not, or has with another layout.
fn count_changed_types(
    rows: &[u8],
    stream: &[u8],
    pool: &[u8],
    types: &[u32],
    sizes: &[u64],
    past: &[u8],
    old: &[u8],
    shipped: &[u32],
    widths: &[u64],
) -> usize
    requires { let cur : Rec = rec stream.now pool.now (scalars_of rows.now) in
        let rel : Rec = rec past.now old.now (scalars_of rows.now) in
        Tables cur types.now sizes.now × Tables rel shipped.now widths.now }
    ensures { let cur : Rec = rec stream.now pool.now (scalars_of rows.now) in
        let rel : Rec = rec past.now old.now (scalars_of rows.now) in
        (result ≡ length (changed (layouts_of cur) (layouts_of rel))) × (result ≤ length types.now) }
{
    let mut n = 0;
    for handle in types {
        if !is_same(
            rows, stream, pool, sizes, *handle, past, old, shipped, widths,
        ) {
            n += 1;
        }
    }
    n
}

// Whether a record has a type of the name that a type of another has.
fn is_there(stream: &[u8], pool: &[u8], types: &[u32], past: &[u8], old: &[u8], handle: u32) -> bool
    ensures { let name : Str = type_name past.now old.now handle in
        IsThere stream.now pool.now types.now name result }
{
    matches!(
        find_same(stream, pool, types, past, old, handle, 0),
        Some(_)
    )
}

// How many types of a record another has not.
fn count_gone(
    past: &[u8],
    old: &[u8],
    shipped: &[u32],
    stream: &[u8],
    pool: &[u8],
    types: &[u32],
) -> usize
    ensures { Gone past.now old.now shipped.now
        stream.now pool.now types.now result }
{
    let mut n = 0;
    for handle in shipped {
        if !is_there(stream, pool, types, past, old, *handle) {
            n += 1;
        }
    }
    n
}

// The count over the tables of both records.
fn count_tables(
    rows: &[u8],
    stream: &[u8],
    pool: &[u8],
    types: &[u32],
    sizes: &[u64],
    past: &[u8],
    old: &[u8],
    shipped: &[u32],
    widths: &[u64],
) -> usize
    requires { let cur : Rec = rec stream.now pool.now (scalars_of rows.now) in
        let rel : Rec = rec past.now old.now (scalars_of rows.now) in
        Tables cur types.now sizes.now × Tables rel shipped.now widths.now }
    ensures { let cur : Rec = rec stream.now pool.now (scalars_of rows.now) in
        let rel : Rec = rec past.now old.now (scalars_of rows.now) in
        result ≡ count_changed (schema_of cur) (schema_of rel) }
{
    let other = count_changed_types(rows, stream, pool, types, sizes, past, old, shipped, widths);
    let gone = count_gone(past, old, shipped, stream, pool, types);
    other + gone
}

// Fills the index of a record.
fn index_one(stream: &[u8], pool: &[u8], index: &mut [u16])
    requires { (length stream.now ≤ 32768) × IndexRoom stream.now index.old }
    ensures { Indexed stream.now pool.now index.new }
{
    fill_index(stream, pool, index);
}

// Fills the tables of a record over a lent index and a lent table to sort in; answers how many types it has.
fn lay_lent(
    rows: &[u8],
    stream: &[u8],
    pool: &[u8],
    index: &mut [u16],
    types: &mut [u32],
    scratch: &mut [u32],
    sizes: &mut [u64],
) -> usize
    requires { Lent (rec stream.now pool.now (scalars_of rows.now)) index.old types.old scratch.old sizes.old }
    ensures { let cur : Rec = rec stream.now pool.now (scalars_of rows.now) in
        Tables cur (take result types.new) sizes.new × (result ≤ length types.new) }
{
    index_one(stream, pool, index);
    fill_tables(rows, stream, pool, index, types, scratch, sizes)
}

// Fills the tables of a record; answers how many types it has.
fn lay(rows: &[u8], stream: &[u8], pool: &[u8], types: &mut [u32], sizes: &mut [u64]) -> usize
    requires { Rooms (rec stream.now pool.now (scalars_of rows.now)) types.old sizes.old }
    ensures { let cur : Rec = rec stream.now pool.now (scalars_of rows.now) in
        Tables cur (take result types.new) sizes.new × (result ≤ length types.new) }
{
    let mut index = [0u16; 4938];
    let mut scratch = [0u32; 8192];
    lay_lent(rows, stream, pool, &mut index, types, &mut scratch, sizes)
}

// The count over lent tables.
fn count_lent(
    rows: &[u8],
    stream: &[u8],
    pool: &[u8],
    types: &mut [u32],
    sizes: &mut [u64],
    past: &[u8],
    old: &[u8],
    shipped: &mut [u32],
    widths: &mut [u64],
) -> usize
    requires { let cur : Rec = rec stream.now pool.now (scalars_of rows.now) in
        let rel : Rec = rec past.now old.now (scalars_of rows.now) in
        Rooms cur types.old sizes.old × Rooms rel shipped.old widths.old }
    ensures { let cur : Rec = rec stream.now pool.now (scalars_of rows.now) in
        let rel : Rec = rec past.now old.now (scalars_of rows.now) in
        result ≡ count_changed (schema_of cur) (schema_of rel) }
{
    let n = lay(rows, stream, pool, types, sizes);
    let m = lay(rows, past, old, shipped, widths);
    count_tables(
        rows,
        stream,
        pool,
        &types[..n],
        sizes,
        past,
        old,
        &shipped[..m],
        widths,
    )
}

// The number of layouts that differ.
pub(crate) fn count_changed(
    rows: &[u8],
    stream: &[u8],
    pool: &[u8],
    past: &[u8],
    old: &[u8],
) -> usize
    requires { let cur : Rec = rec stream.now pool.now (scalars_of rows.now) in
        let rel : Rec = rec past.now old.now (scalars_of rows.now) in
        Legible cur × Legible rel }
    ensures { let cur : Rec = rec stream.now pool.now (scalars_of rows.now) in
        let rel : Rec = rec past.now old.now (scalars_of rows.now) in
        result ≡ count_changed (schema_of cur) (schema_of rel) }
{
    let mut types = [0u32; 8192];
    let mut sizes = [0u64; 993];
    let mut shipped = [0u32; 8192];
    let mut widths = [0u64; 993];
    count_lent(
        rows,
        stream,
        pool,
        &mut types,
        &mut sizes,
        past,
        old,
        &mut shipped,
        &mut widths,
    )
}
