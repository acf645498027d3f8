// Texts compared several bytes at a time.
ghost use Rattle.std.specs.Prelude.{◌+◌, ◌*◌, ◌≤◌, ◌<◌, ◌≡◌};
ghost use Rattle.record.specs.Base.{before};
ghost use Rattle.record.specs.Words.{Fronted, Skipped};

use crate::le::byte_at;
use texts::le::word;

// A number of bytes at the front in which both agree, found by words.
pub fn skip(a: &[u8], b: &[u8]) -> usize
    ensures { Skipped a.now b.now result }
{
    let n = a.len().min(b.len());
    let mut i = 0;
    while 8 <= n - i {
        if word(a, i) != word(b, i) {
            return i;
        }
        i += 8;
    }
    i
}

// The first four bytes as a number in whose order texts go, the first byte the highest and 0 for each that a text does not have.
pub fn front_of(s: &[u8]) -> u64
    ensures { Fronted s.now result }
{
    if 4 <= s.len() {
        return big_endian(s[0], s[1], s[2], s[3]);
    }
    big_endian(byte_at(s, 0), byte_at(s, 1), byte_at(s, 2), byte_at(s, 3))
}

fn big_endian(a: u8, b: u8, c: u8, d: u8) -> u64
    ensures { (result ≡ 16777216 * a + 65536 * b + 256 * c + d) × (a < 256) × (b < 256) × (c < 256) × (d < 256) }
{
    u64::from(u32::from_be_bytes([a, b, c, d]))
}

// Whether one text goes before another in byte order; most that differ do so in their first four bytes.
pub fn text_before(a: &[u8], b: &[u8]) -> bool
    ensures { result ≡ before a.now b.now }
{
    let x = front_of(a);
    let y = front_of(b);
    if x == y { a.cmp(&b).is_lt() } else { x < y }
}
