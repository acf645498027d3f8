// The constants of a record in byte order of their names: a sorted table of the places of their commands.
ghost use Rattle.std.specs.Prelude.{◌/◌, ◌≤◌, ◌≡◌, length, take, drop};
ghost use Rattle.record.specs.Base.{Str};
ghost use Rattle.record.specs.Commands.{constant_at};
ghost use Rattle.layout.specs.Room.{Room};
ghost use Rattle.layout.specs.Constants.{ConstantsTable};

use crate::handles::fill_places;
use crate::table::arrange_handles;
use record::command::{Constant, constant_at};
use record::cut::from;

// The table, where the record is within its limit and the lent tables are long enough.
fn fill_constants(stream: &[u8], pool: &[u8], table: &mut [u32], scratch: &mut [u32]) -> usize
    requires { (length stream.now ≤ 32768) × Room stream.now table.old × Room stream.now scratch.old }
    ensures { let s : Str = stream.now in
        ConstantsTable s pool.now (take result table.new) × (result ≤ length s / 4) }
{
    let n = fill_places(stream, 2, table);
    arrange_handles::<1>(stream, pool, &mut table[..n], &mut scratch[..n])
}

// The table of a record's constants at the front of `table`; and how many they are.
pub fn constant_table(stream: &[u8], pool: &[u8], table: &mut [u32], scratch: &mut [u32]) -> usize
    ensures { let s : Str = stream.now in
        (length s ≤ 32768 → Room s table.old → Room s scratch.old
        → ConstantsTable s pool.now (take result table.new)) × (result ≤ length table.old) }
{
    let most = stream.len() / 4;
    if 32768 < stream.len() || table.len() < most || scratch.len() < most {
        return 0;
    }
    fill_constants(stream, pool, table, scratch)
}

// The constant whose command is at a place.
pub fn placed_constant(stream: &[u8], place: u32) -> Constant
    ensures { result ≡ constant_at (drop place stream.now) }
{
    constant_at(from(stream, place as usize))
}
