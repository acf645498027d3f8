// Little-endian numbers in a slice of bytes. A byte past the end counts as 0, so no reader asks anything of its caller.
ghost use Rattle.std.specs.Prelude.{◌≡◌, get_or};
ghost use Rattle.record.specs.Le.{u16_at, u32_at, u64_at};

use texts::le::{half, word};

pub fn byte_at(s: &[u8], at: usize) -> u8
    ensures { result ≡ get_or s.now at 0 }
{
    texts::le::byte_at(s, at)
}

pub fn u16_at(s: &[u8], at: usize) -> u16
    ensures { result ≡ u16_at s.now at }
{
    if at < s.len() {
        u16::from_le_bytes([s[at], byte_at(s, at + 1)])
    } else {
        0
    }
}

pub fn u32_at(s: &[u8], at: usize) -> u32
    ensures { result ≡ u32_at s.now at }
{
    if at < s.len() {
        if 4 <= s.len() - at {
            return half(s, at) as u32;
        }
        u32::from(u16_at(s, at)) + 65536 * u32::from(u16_at(s, at + 2))
    } else {
        0
    }
}

pub fn u64_at(s: &[u8], at: usize) -> u64
    ensures { result ≡ u64_at s.now at }
{
    if at < s.len() {
        if 8 <= s.len() - at {
            return word(s, at);
        }
        u64::from(u32_at(s, at)) + 4294967296 * u64::from(u32_at(s, at + 4))
    } else {
        0
    }
}
