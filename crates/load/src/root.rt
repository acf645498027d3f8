// The root's fields, and all structures.
ghost use Rattle.std.specs.Prelude.{◌≡◌, ◌<◌};
ghost use Rattle.record.specs.Write.{Puts};
ghost use Rattle.load.specs.Pool.{absent, k·scalar};
ghost use Rattle.load.specs.Commands.{field_bytes};
ghost use Rattle.load.specs.Draws.{plain_field, field_name, root_seed, front_fields, back_fields, before_structs, after_structs};
ghost use Rattle.load.specs.Draws.{target_field, retyped_field, inserted_field, added_field};
ghost use Rattle.load.specs.Range.{InRange};
ghost use Rattle.load.specs.Generator.{root_struct, all_structs, edited_fields};
ghost use Rattle.load.specs.Bytes.{fields_bytes, struct_with_fields, structs_bytes, target_fields, last_fields};

use crate::commands::{put_field, put_struct};
use crate::drawn::{field_text, retyped_text, scalar_field, scalar_text, slot_text, struct_text};
use crate::draws::seed_after;
use crate::outcomes::Outcome;
use crate::settings::Setting;
use crate::structures::{put_fields, put_none, put_structs};
use record::text::Text;

// The seed at the root's fields.
fn root_seed(g: Setting) -> u32
    requires { InRange g }
    ensures { result ≡ root_seed g }
{
    seed_after(g.seed, 3 * g.fields * g.root)
}

// Puts a scalar field of an index.
fn put_scalar(out: &mut [u8], at: usize, g: Setting, j: u32, word: Text) -> usize
    requires { InRange g × (j < 19) }
    ensures { Puts out.old at (field_bytes (plain_field (field_name g j) k·scalar word absent)) out.new result }
{
    let name = field_text(g.lengths, j);
    let field = scalar_field(name, word);
    put_field(out, at, field)
}

// Puts the target field; with another size; the inserted one, which moves it; and the one that is added at the end.
fn put_target(out: &mut [u8], at: usize, g: Setting) -> usize
    requires { InRange g }
    ensures { Puts out.old at (field_bytes (target_field g)) out.new result }
{
    let word = scalar_text(g.word);
    put_scalar(out, at, g, g.target, word)
}

fn put_retyped(out: &mut [u8], at: usize, g: Setting) -> usize
    requires { InRange g }
    ensures { Puts out.old at (field_bytes (retyped_field g)) out.new result }
{
    let word = retyped_text(g.word);
    put_scalar(out, at, g, g.target, word)
}

fn put_inserted(out: &mut [u8], at: usize, g: Setting) -> usize
    requires { InRange g }
    ensures { Puts out.old at (field_bytes (inserted_field g)) out.new result }
{
    let word = scalar_text(g.fresh);
    put_scalar(out, at, g, 17, word)
}

fn put_added(out: &mut [u8], at: usize, g: Setting) -> usize
    requires { InRange g }
    ensures { Puts out.old at (field_bytes (added_field g)) out.new result }
{
    let word = scalar_text(g.fresh);
    put_scalar(out, at, g, 18, word)
}

// Puts what an outcome makes of the target field.
fn put_middle(out: &mut [u8], at: usize, g: Setting, o: Outcome) -> usize
    requires { InRange g }
    ensures { Puts out.old at (fields_bytes (target_fields g o)) out.new result }
{
    match o {
        Outcome::FieldGone => put_none(out, at),
        Outcome::FieldMoved => {
            let next = put_inserted(out, at, g);
            put_target(out, next, g)
        }
        Outcome::FieldResized => put_retyped(out, at, g),
        _ => put_target(out, at, g),
    }
}

// Puts what it adds at the end.
fn put_last(out: &mut [u8], at: usize, g: Setting, o: Outcome) -> usize
    requires { InRange g }
    ensures { Puts out.old at (fields_bytes (last_fields g o)) out.new result }
{
    match o {
        Outcome::Accepted | Outcome::Unraised => put_added(out, at, g),
        _ => put_none(out, at),
    }
}

// Puts the root's fields before the target, and after it.
fn put_front(out: &mut [u8], at: usize, g: Setting) -> usize
    requires { InRange g }
    ensures { Puts out.old at (fields_bytes (front_fields g)) out.new result }
{
    let seed = root_seed(g);
    put_fields(out, at, g, seed, 0, g.target)
}

fn put_back(out: &mut [u8], at: usize, g: Setting) -> usize
    requires { InRange g }
    ensures { Puts out.old at (fields_bytes (back_fields g)) out.new result }
{
    let seed = root_seed(g);
    let then = seed_after(seed, 3 * g.target);
    put_fields(out, at, g, then, g.target + 1, g.fields - (g.target + 1))
}

// Puts the root's fields.
fn put_edited(out: &mut [u8], at: usize, g: Setting, o: Outcome) -> usize
    requires { InRange g }
    ensures { Puts out.old at (fields_bytes (edited_fields g o)) out.new result }
{
    let a = put_front(out, at, g);
    let b = put_middle(out, a, g, o);
    let c = put_back(out, b, g);
    put_last(out, c, g, o)
}

// Puts the root.
fn put_root(out: &mut [u8], at: usize, g: Setting, o: Outcome) -> usize
    requires { InRange g }
    ensures { Puts out.old at (struct_with_fields (root_struct g (edited_fields g o))) out.new result }
{
    let name = struct_text(g.lengths, g.root);
    let slot = slot_text(g.slot);
    let version = Text {
        start: 803,
        len: 10,
    };
    let next = put_struct(out, at, name, slot, version);
    put_edited(out, next, g, o)
}

// Puts the structures before the root, and after it.
fn put_before(out: &mut [u8], at: usize, g: Setting) -> usize
    requires { InRange g }
    ensures { Puts out.old at (structs_bytes (before_structs g)) out.new result }
{
    put_structs(out, at, g, g.seed, 0, g.root)
}

fn put_after(out: &mut [u8], at: usize, g: Setting) -> usize
    requires { InRange g }
    ensures { Puts out.old at (structs_bytes (after_structs g)) out.new result }
{
    let seed = root_seed(g);
    let then = seed_after(seed, 3 * (g.fields - 1));
    put_structs(out, at, g, then, g.root + 1, g.structs - (g.root + 1))
}

// Puts all structures.
pub(crate) fn put_all(out: &mut [u8], at: usize, g: Setting, o: Outcome) -> usize
    requires { InRange g }
    ensures { Puts out.old at (structs_bytes (all_structs g (edited_fields g o))) out.new result }
{
    let a = put_before(out, at, g);
    let b = put_root(out, a, g, o);
    put_after(out, b, g)
}
