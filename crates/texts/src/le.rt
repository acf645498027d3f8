// Bytes and little-endian numbers. Four and eight bytes are read where all of them are there, so that the compiler makes one read of each.
ghost use Rattle.std.specs.Prelude.{◌+◌, ◌≤◌, ◌<◌, ◌≡◌, length, get_or};
ghost use Rattle.texts.specs.Le.{u32_at, u64_at};

// A byte at any place; past the end 0.
pub fn byte_at(s: &[u8], at: usize) -> u8
    ensures { result ≡ get_or s.now at 0 }
{
    if at < s.len() { s[at] } else { 0 }
}

// A byte as a larger number.
pub fn wide(x: u8) -> u64
    ensures { (result ≡ x) × (result < 256) }
{
    u64::from(x)
}

// Four bytes as a number, the first the lowest.
#[tactic(auto, unfolding(crate::specs::Le::u32_at, crate::specs::Le::u16_at))]
pub fn half(s: &[u8], i: usize) -> u64
    requires { i + 4 ≤ length s.now }
    ensures { (result ≡ u32_at s.now i) × (result < 4294967296) }
{
    u64::from(u32::from_le_bytes([s[i], s[i + 1], s[i + 2], s[i + 3]]))
}

// Eight bytes as a number, the first the lowest.
#[tactic(auto, unfolding(crate::specs::Le::u64_at, crate::specs::Le::u32_at, crate::specs::Le::u16_at))]
pub fn word(s: &[u8], i: usize) -> u64
    requires { i + 8 ≤ length s.now }
    ensures { result ≡ u64_at s.now i }
{
    u64::from_le_bytes([
        s[i],
        s[i + 1],
        s[i + 2],
        s[i + 3],
        s[i + 4],
        s[i + 5],
        s[i + 6],
        s[i + 7],
    ])
}
