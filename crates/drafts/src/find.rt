// A structure or a family by its name, and the place after its parts.
ghost use Rattle.std.specs.Prelude.{◌≡◌};
ghost use Rattle.record.specs.Commands.{commands_at};
ghost use Rattle.drafts.specs.Addition.{is_type, is_part};
ghost use Rattle.drafts.specs.Edits.{named, after_parts};
ghost use Rattle.drafts.specs.Found.{TypeAt};

use record::cut;
use record::le::byte_at;
use record::operands::text_at;
use record::seek::after_at;
use record::text::{bytes_of, same};

// Whether a command begins a type.
pub(crate) fn is_type(byte: u8) -> bool
    ensures { result ≡ is_type byte }
{
    matches!(byte, 8 | 9)
}

// Whether a command is a part of the type before it.
pub(crate) fn is_part(byte: u8) -> bool
    ensures { result ≡ is_part byte }
{
    matches!(byte, 10 | 11 | 12)
}

// Whether the command at a place begins a type of this name.
fn is_named(stream: &[u8], pool: &[u8], name: &[u8], at: usize) -> bool
    ensures { result ≡ named stream.now pool.now name.now at }
{
    is_type(byte_at(stream, at)) && same(bytes_of(pool, text_at(cut::from(stream, at), 1)), name)
}

// The place after the parts of a type.
fn past_parts(stream: &[u8], from: usize) -> usize
    ensures { commands_at stream.now result ≡ after_parts stream.now (commands_at stream.now from) }
{
    let mut at = from;
    loop {
        let after = after_at(stream, at);
        if after == 0 {
            return at;
        }
        if is_part(byte_at(stream, at)) {
            at = after;
        } else {
            return at;
        }
    }
}

// The first type of a name: its place, and the place after its parts.
pub(crate) fn find_type(stream: &[u8], pool: &[u8], name: &[u8]) -> Option<(usize, usize)>
    ensures { TypeAt stream.now pool.now name.now result }
{
    let mut at = 0;
    loop {
        let after = after_at(stream, at);
        if after == 0 {
            return None;
        }
        if is_named(stream, pool, name, at) {
            return Some((at, past_parts(stream, after)));
        }
        at = after;
    }
}
