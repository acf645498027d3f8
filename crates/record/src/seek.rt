// The next command of one number, and the place after it: what every list of a record goes along by.
ghost use Rattle.std.specs.Prelude.{◌≡◌, ◌<◌, length, get_or};
ghost use Rattle.record.specs.Seek.{after_at, over_of, SoughtFrom};

use crate::command::width_of;

// What may stand between the elements of a list: all commands, none, plugin keys, fields with their keys, variants and keys.
#[derive(Clone, Copy)]
pub enum Between {
    Anything,
    Nothing,
    Keys,
    Fields,
    Variants,
}

// The place after the command of this number at a place; 0 where there is none, as the definition `after_at` has it.
fn end_of(s: &[u8], at: usize, byte: u8) -> usize
    requires { (at < length s.now) × (byte ≡ get_or s.now at 0) }
    ensures { result ≡ after_at s.now at }
{
    if byte == 15 {
        return 0;
    }
    let width = width_of(byte);
    if width == 0 {
        return 0;
    }
    if s.len() - at < width {
        return 0;
    }
    at + width
}

// The place after the command at a place; 0 where there is none, as the definition of that name has it, and no command ends there.
pub fn after_at(s: &[u8], at: usize) -> usize
    ensures { result ≡ after_at s.now at }
{
    if s.len() <= at {
        return 0;
    }
    end_of(s, at, s[at])
}

// Whether a command of this number may stand between the elements.
pub fn passes(between: Between, byte: u8) -> bool
    ensures { result ≡ over_of between byte }
{
    match between {
        Between::Anything => true,
        Between::Nothing => false,
        Between::Keys => byte == 12,
        Between::Fields => matches!(byte, 11 | 12),
        Between::Variants => matches!(byte, 10 | 12),
    }
}

// The place of the next element of a list from a place on, by the number of its command, and the place after it. The width of a command that is
// found is taken from the number that is sought: where a caller's number is a constant the compiler then knows how many bytes are there, and
// tests no operand for them.
pub fn seek(s: &[u8], from: usize, number: u8, between: Between) -> Option<(usize, usize)>
    ensures { SoughtFrom s.now between number from result }
{
    let mut at = from;
    loop {
        if s.len() <= at {
            return None;
        }
        let byte = s[at];
        if byte == number {
            let end = end_of(s, at, number);
            if end == 0 {
                return None;
            }
            return Some((at, end));
        }
        let after = end_of(s, at, byte);
        if after == 0 {
            return None;
        }
        if passes(between, byte) {
            at = after;
        } else {
            return None;
        }
    }
}
