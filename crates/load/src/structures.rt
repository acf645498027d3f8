// Drawn fields and structures put as commands.
ghost use Rattle.std.specs.Prelude.{[], ◌+◌, ◌≤◌, ◌<◌};
ghost use Rattle.record.specs.Write.{Puts};
ghost use Rattle.load.specs.Draws.{fields_from, plain_struct, structs_from};
ghost use Rattle.load.specs.Range.{InRange};
ghost use Rattle.load.specs.Bytes.{fields_bytes, struct_with_fields, structs_bytes};

use crate::commands::{put_field, put_struct};
use crate::drawn::{ABSENT, field_drawn, struct_text};
use crate::draws::seed_after;
use crate::settings::Setting;

// Puts nothing.
pub(crate) fn put_none(out: &mut [u8], at: usize) -> usize
    ensures { Puts out.old at [] out.new result }
{
    at
}

// Puts n drawn fields, from a seed and an index on.
pub(crate) fn put_fields(
    out: &mut [u8],
    at: usize,
    g: Setting,
    seed: u32,
    from: u32,
    n: u32,
) -> usize
    requires { InRange g × (from + n ≤ 19) }
    ensures { Puts out.old at (fields_bytes (fields_from g seed from n)) out.new result }
{
    let mut next = at;
    let mut s = seed;
    for j in from..from + n {
        let field = field_drawn(g, s, j);
        next = put_field(out, next, field);
        s = seed_after(s, 3);
    }
    next
}

// Puts a structure without a slot.
fn put_plain(out: &mut [u8], at: usize, g: Setting, seed: u32, i: u32) -> usize
    requires { InRange g × (i < 8) }
    ensures { Puts out.old at (struct_with_fields (plain_struct g seed i)) out.new result }
{
    let name = struct_text(g.lengths, i);
    let next = put_struct(out, at, name, ABSENT, ABSENT);
    put_fields(out, next, g, seed, 0, g.fields)
}

// Puts n structures without a slot, from a seed and an index on.
pub(crate) fn put_structs(
    out: &mut [u8],
    at: usize,
    g: Setting,
    seed: u32,
    from: u32,
    n: u32,
) -> usize
    requires { InRange g × (from + n ≤ 8) }
    ensures { Puts out.old at (structs_bytes (structs_from g seed from n)) out.new result }
{
    let mut next = at;
    let mut s = seed;
    for i in from..from + n {
        next = put_plain(out, next, g, s, i);
        s = seed_after(s, 3 * g.fields);
    }
    next
}
