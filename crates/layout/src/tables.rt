// The tables of a record: its types in byte order of their names, and the sizes of their fields.
ghost use Rattle.std.specs.Prelude.{◌≤◌, length, take};
ghost use Rattle.record.specs.Scalars.{scalars_of};
ghost use Rattle.record.specs.Index.{Findable, Indexed};
ghost use Rattle.record.specs.Reading.{Rec, rec};
ghost use Rattle.record.specs.Read.{Exact};
ghost use Rattle.layout.specs.Room.{Room, SizesRoom};
ghost use Rattle.layout.specs.Tables.{Tables};

use crate::field_sizes::fill_sizes;
use crate::table::type_table;

// Fills the tables of a record, which may have no index, with room for so many fronts of names; answers how many types there are.
pub(crate) fn fill_with<const FRONTS: usize>(
    rows: &[u8],
    stream: &[u8],
    pool: &[u8],
    index: &[u16],
    types: &mut [u32],
    scratch: &mut [u32],
    sizes: &mut [u64],
) -> usize
    requires { let cur : Rec = rec stream.now pool.now (scalars_of rows.now) in
        (length cur.stream ≤ 32768) × Exact cur × Findable cur.stream cur.pool index.now
        × Room cur.stream types.old × Room cur.stream scratch.old × SizesRoom cur.stream sizes.old × (FRONTS ≤ 8192) }
    ensures { let cur : Rec = rec stream.now pool.now (scalars_of rows.now) in
        Tables cur (take result types.new) sizes.new × (result ≤ length types.new) }
{
    fill_sizes(rows, stream, pool, index, sizes);
    type_table::<FRONTS>(stream, pool, types, scratch)
}

// Fills the tables of a record that has its index; answers how many types there are.
pub fn fill_tables(
    rows: &[u8],
    stream: &[u8],
    pool: &[u8],
    index: &[u16],
    types: &mut [u32],
    scratch: &mut [u32],
    sizes: &mut [u64],
) -> usize
    requires { let cur : Rec = rec stream.now pool.now (scalars_of rows.now) in
        (length cur.stream ≤ 32768) × Exact cur × Indexed cur.stream cur.pool index.now
        × Room cur.stream types.old × Room cur.stream scratch.old × SizesRoom cur.stream sizes.old }
    ensures { let cur : Rec = rec stream.now pool.now (scalars_of rows.now) in
        Tables cur (take result types.new) sizes.new × (result ≤ length types.new) }
{
    fill_with::<8192>(rows, stream, pool, index, types, scratch, sizes)
}
