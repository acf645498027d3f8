// What a field refers to, and the slots of structures: referenced_type and slot_of of the Rust.
ghost use Rattle.std.specs.Prelude.{◌≡◌};
ghost use Rattle.record.specs.Base.{is_text};
ghost use Rattle.record.specs.Commands.{field_at};
ghost use Rattle.record.specs.Lists.{opt_of};
ghost use Rattle.record.specs.References.{Refers, HasSlot};

use crate::cut;
use crate::index::find_declared;
use crate::kind::{Kind, kind_of};
use crate::operands::{opt_text_at, text_at};
use crate::text::{Text, bytes_of, same};

// The name that a field refers to, by its kind, from the bytes that begin with its command: only what the kind asks for is read.
pub fn referenced_type(pool: &[u8], s: &[u8]) -> Option<Text>
    ensures { Refers pool.now (field_at s.now) result }
{
    let kind = kind_of(bytes_of(pool, text_at(s, 4)));
    match kind {
        Kind::StructPtr | Kind::TaggedFamPtr | Kind::SimpleFamPtr => opt_text_at(s, 7),
        Kind::StructArrayPtr | Kind::StructPtrArrayPtr => opt_text_at(s, 10),
        _ => None,
    }
}

// Whether the first structure of a name has slot text, whatever it says.
pub fn has_slot(stream: &[u8], pool: &[u8], index: &[u16], name: &[u8]) -> bool
    ensures { HasSlot stream.now pool.now index.now name.now result }
{
    let Some((place, _)) = find_declared(stream, pool, index, 8, name) else {
        return false;
    };
    let slot = opt_text_at(cut::from(stream, place), 4);
    let Some(_) = slot else {
        return false;
    };
    true
}

// Whether a text is given and is this one.
pub fn is_text(pool: &[u8], given: Option<Text>, text: &[u8]) -> bool
    ensures { result ≡ is_text (opt_of pool.now given) text.now }
{
    let Some(t) = given else {
        return false;
    };
    same(bytes_of(pool, t), text)
}
