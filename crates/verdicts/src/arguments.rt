// The arguments of messages that are put together from words and texts.
ghost use Rattle.std.specs.Prelude.{◌+◌, ◌≤◌};
ghost use Rattle.record.specs.Lists.{opt_of};
ghost use Rattle.record.specs.Write.{Puts};
ghost use Rattle.definition.specs.Verdicts.{item_text, copy_of, standing_of, change_text};
ghost use Rattle.definition.specs.Constants.{constant_text};
ghost use Rattle.verdicts.specs.Arguments.{item_of, value_meant};

use record::text::Text;
use record::writer::{put, put_signed, put_text, put_worded};

// What arrives in a release, by its name.
#[derive(Clone, Copy)]
pub enum Item {
    Constant(Text),
    Enum(Text),
    Key(Text),
    Bitfield(Text),
    // A value of an enum or a member of a bit field: the owner's name and its own.
    Within(Text, Text),
}

// What a constant holds: an integer of 64 bits in two's complement, or a text.
// Neither kind is a failure, so that no Result says it more plainly.
#[derive(Clone, Copy)]
pub enum ConstantValue {
    Integer(u64),
    Words(Option<Text>),
}

// Puts what arrives in a release.
pub fn put_item(out: &mut [u8], at: usize, pool: &[u8], what: Item) -> usize
    ensures { Puts out.old at (item_text (item_of pool.now what)) out.new result × (result ≤ at + 512) }
{
    match what {
        Item::Constant(name) => put_worded(out, at, b"constant ", pool, name),
        Item::Enum(name) => put_worded(out, at, b"enum ", pool, name),
        Item::Key(name) => put_worded(out, at, b"plugin key ", pool, name),
        Item::Bitfield(name) => put_worded(out, at, b"bit field ", pool, name),
        Item::Within(owner, name) => {
            let next = put_text(out, at, pool, owner);
            put_worded(out, next, b"::", pool, name)
        }
    }
}

// Puts the release that the copy is of.
pub fn put_copy(out: &mut [u8], at: usize, pool: &[u8], release: Option<Text>) -> usize
    ensures { Puts out.old at (copy_of (opt_of pool.now release)) out.new result × (result ≤ at + 512) }
{
    match release {
        None => put(out, at, b"a release before 0.8.0"),
        Some(t) => put_text(out, at, pool, t),
    }
}

// Puts what a constant holds, an integer in decimal.
pub fn put_value(out: &mut [u8], at: usize, pool: &[u8], value: ConstantValue) -> usize
    ensures { Puts out.old at (constant_text (value_meant pool.now value)) out.new result × (result ≤ at + 512) }
{
    match value {
        ConstantValue::Integer(n) => put_signed(out, at, n),
        ConstantValue::Words(text) => {
            let Some(t) = text else {
                return at;
            };
            put_text(out, at, pool, t)
        }
    }
}

// Puts whether a family stands alone.
pub fn put_standing(out: &mut [u8], at: usize, standalone: bool) -> usize
    ensures { Puts out.old at (standing_of standalone) out.new result × (result ≤ at + 512) }
{
    if standalone {
        return put(out, at, b"standalone");
    }
    put(out, at, b"not standalone")
}

// Puts what became of a layout: the field that it gained, or that it changed.
pub fn put_change(out: &mut [u8], at: usize, pool: &[u8], gained: Option<Text>) -> usize
    ensures { Puts out.old at (change_text (opt_of pool.now gained)) out.new result × (result ≤ at + 512) }
{
    match gained {
        None => put(out, at, b"changed"),
        Some(field) => put_worded(out, at, b"gained ", pool, field),
    }
}
