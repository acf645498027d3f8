// The generation of a structure: generation_constant of the Rust.
ghost use Rattle.record.specs.Generation.{HeldBy, HoldsGeneration};

use crate::cut;
use crate::index::find_declared;
use crate::named::first_constant;
use crate::operands::opt_text_at;
use crate::text::{Text, bytes_of};

// The generation that a version constant holds, with the constant's name as the structure's command gives it: its number if it is below
// 2 ^ 32, which a negative one, kept as its 64 bits, is not.
fn held_by(stream: &[u8], pool: &[u8], index: &[u16], version: Option<Text>) -> Option<(Text, u32)>
    ensures { HeldBy stream.now pool.now index.now version result }
{
    let Some(name) = version else {
        return None;
    };
    let held = first_constant(stream, pool, index, bytes_of(pool, name));
    let Some((c, _)) = held else {
        return None;
    };
    if c.is_text {
        return None;
    }
    let Ok(number) = u32::try_from(c.integer) else {
        return None;
    };
    Some((name, number))
}

// The generation of the first structure of a name.
pub fn generation_constant(
    stream: &[u8],
    pool: &[u8],
    index: &[u16],
    name: &[u8],
) -> Option<(Text, u32)>
    ensures { HoldsGeneration stream.now pool.now index.now name.now result }
{
    let Some((place, _)) = find_declared(stream, pool, index, 8, name) else {
        return None;
    };
    held_by(
        stream,
        pool,
        index,
        opt_text_at(cut::from(stream, place), 7),
    )
}
