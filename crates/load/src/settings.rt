// What the first eleven draws decide: docs/LOAD.md, the first table.
ghost use Rattle.std.specs.Prelude.{◌≡◌};
ghost use Rattle.load.specs.Draws.{setting_of};
ghost use Rattle.load.specs.Range.{InRange};

use crate::draws::{draw, seed_after};

#[derive(Clone, Copy)]
pub struct Setting {
    // 02: the number of structures, and of the fields of each, in the released record.
    pub structs: u32,
    pub fields: u32,
    // Which pair of releases, which slot the root has, and how long the names are.
    pub releases: u32,
    pub slot: u32,
    pub lengths: u32,
    // The released generation, and the value of the constant that 20 leaves out.
    pub generation: u32,
    pub spare: u32,
    // Which structure is the root, and which of its fields the target.
    pub root: u32,
    pub target: u32,
    // The scalar word of the target, and that of a new field.
    pub word: u32,
    pub fresh: u32,
    // The seed after these draws.
    pub seed: u32,
}

// The setting of a seed.
pub(crate) fn draw_setting(seed: u32) -> Setting
    ensures { (result ≡ setting_of seed) × InRange result }
{
    let structs = draw(seed, 1, 8) + 1;
    let fields = draw(seed, 2, 16) + 2;
    let releases = draw(seed, 3, 4);
    let slot = draw(seed, 4, 3);
    let lengths = draw(seed, 5, 14);
    let generation = draw(seed, 6, 32768);
    let spare = draw(seed, 7, 32768);
    let root = draw(seed, 8, structs);
    let target = draw(seed, 9, fields);
    let word = draw(seed, 10, 4);
    let fresh = draw(seed, 11, 4);
    let seed = seed_after(seed, 11);
    Setting {
        structs,
        fields,
        releases,
        slot,
        lengths,
        generation,
        spare,
        root,
        target,
        word,
        fresh,
        seed,
    }
}
