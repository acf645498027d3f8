// The operands of a command, at a place of the bytes from the command on. A byte past the end counts as 0.
ghost use Rattle.std.specs.Prelude.{◌+◌, ◌*◌, ◌≤◌, ◌≡◌, length};
ghost use Rattle.record.specs.Operands.{text_at, opt_text, opt_text_at, opt_number_at, flag_at};

use crate::le;
use crate::text::Text;

// Two bytes as a number, the first the lower.
fn pair(low: u8, high: u8) -> u16
    ensures { result ≡ low + 256 * high }
{
    u16::from_le_bytes([low, high])
}

// A text whose three bytes are there.
pub(crate) fn whole_text(s: &[u8], at: usize) -> Text
    requires { at + 3 ≤ length s.now }
    ensures { result ≡ text_at s.now at }
{
    Text {
        start: pair(s[at], s[at + 1]),
        len: s[at + 2],
    }
}

pub fn text_at(s: &[u8], at: usize) -> Text
    ensures { result ≡ text_at s.now at }
{
    if at < s.len() {
        if 3 <= s.len() - at {
            return whole_text(s, at);
        }
        Text {
            start: le::u16_at(s, at),
            len: le::byte_at(s, at + 2),
        }
    } else {
        Text { start: 0, len: 0 }
    }
}

// A text that may be absent, from what it reads as.
#[tactic(auto, unfolding(crate::specs::Operands::opt_text))]
pub(crate) fn opt_text(t: Text) -> Option<Text>
    ensures { result ≡ opt_text t }
{
    if t.start == 65535 && t.len == 0 {
        return None;
    }
    Some(t)
}

pub fn opt_text_at(s: &[u8], at: usize) -> Option<Text>
    ensures { result ≡ opt_text_at s.now at }
{
    opt_text(text_at(s, at))
}

pub fn flag_at(s: &[u8], at: usize) -> bool
    ensures { result ≡ flag_at s.now at }
{
    le::byte_at(s, at) == 1
}

pub fn opt_number_at(s: &[u8], at: usize) -> Option<u32>
    ensures { result ≡ opt_number_at s.now at }
{
    if at < s.len() && s[at] != 0 {
        return Some(le::u32_at(s, at + 1));
    }
    None
}
