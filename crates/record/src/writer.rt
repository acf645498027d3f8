// Bytes put into a buffer one after the other. Each put answers the place after its bytes, whether they fit or not: the same puts measure and write.
ghost use Rattle.std.specs.Prelude.{◌≡◌, ◌++◌, ◌+◌, ◌%◌, ◌≤◌, length, drop};
ghost use Rattle.record.specs.Base.{Str, decimal, signed};
ghost use Rattle.record.specs.Stretch.{text_of};
ghost use Rattle.record.specs.Fill.{placed};
ghost use Rattle.record.specs.Write.{saturated, Puts};

use crate::cut::from;
use crate::text::{Text, bytes_of};

// The place n bytes after another, and the largest number there is where that is larger.
#[tactic(auto, unfolding(crate::specs::Write::saturated))]
pub fn after(at: usize, n: usize) -> usize
    ensures { result ≡ saturated (at + n) }
{
    at.saturating_add(n)
}

// Copies src into out at index at.
fn copy(out: &mut [u8], at: usize, src: &[u8])
    requires { at + length src.now ≤ length out.old }
    ensures { out.new ≡ placed out.old at src.now }
{
    // A loop of bytes, since the library's copy of a slice has the archive ask for memmove from outside.
    for j in 0..src.len() {
        out[at + j] = src[j];
    }
}

// Puts src into out at index at, if it fits; answers the place after it.
pub fn put(out: &mut [u8], at: usize, src: &[u8]) -> usize
    ensures { Puts out.old at src.now out.new result }
{
    let end = after(at, src.len());
    if out.len() < end {
        return end;
    }
    copy(out, at, src);
    end
}

// Puts a text of a pool.
pub fn put_text(out: &mut [u8], at: usize, pool: &[u8], t: Text) -> usize
    ensures { Puts out.old at (text_of pool.now t) out.new result × (result ≤ at + 255) }
{
    put(out, at, bytes_of(pool, t))
}

// Puts a word, and a text of a pool after it.
pub fn put_worded(out: &mut [u8], at: usize, word: &[u8], pool: &[u8], t: Text) -> usize
    ensures { let text : Str = word.now ++ text_of pool.now t in
        Puts out.old at text out.new result × (result ≤ at + length word.now + 255) }
{
    let next = put(out, at, word);
    put_text(out, next, pool, t)
}

// A number's text: the bytes from start on.
#[derive(Clone, Copy)]
pub struct Digits {
    pub bytes: [u8; 21],
    pub start: usize,
}

// n in decimal.
fn decimal(n: u64) -> Digits
    ensures { (drop result.start result.bytes ≡ decimal n) × (1 ≤ result.start) × (result.start ≤ 21) × (length result.bytes ≡ 21) }
{
    let mut bytes = [0u8; 21];
    let mut i: usize = 21;
    let mut rest = n;
    // The digits are as many as the number has, from the last to the first: what ends the loop is the number, not the place.
    while 10 <= rest {
        i -= 1;
        bytes[i] = 48 + (rest % 10) as u8;
        rest /= 10;
    }
    i -= 1;
    bytes[i] = 48 + rest as u8;
    Digits { bytes, start: i }
}

// v, in two's complement at 64 bits, in decimal.
fn signed(v: u64) -> Digits
    ensures { (drop result.start result.bytes ≡ signed v) × (length result.bytes ≡ 21) }
{
    if v < 0x8000_0000_0000_0000 {
        return decimal(v);
    }
    let d = decimal(0xffff_ffff_ffff_ffff - v + 1);
    let at = d.start - 1;
    let mut bytes = d.bytes;
    bytes[at] = 45;
    Digits { bytes, start: at }
}

// How many digits a number has in decimal.
pub fn number_len(n: u64) -> usize
    ensures { (result ≡ length (decimal n)) × (result ≤ 20) }
{
    match n.checked_ilog10() {
        Some(k) => k as usize + 1,
        None => 1,
    }
}

// Puts a number's text.
fn put_digits(out: &mut [u8], at: usize, d: Digits) -> usize
    ensures { Puts out.old at (drop d.start d.bytes) out.new result × (result ≤ at + 21) }
{
    let b = d.bytes;
    let s = d.start;
    put(out, at, from(&b, s))
}

// The last digit of a number.
fn digit(n: u64) -> u8
    ensures { result ≡ 48 + n % 10 }
{
    48 + (n % 10) as u8
}

// Puts a number in decimal. Most are short, and need no loop.
pub fn put_number(out: &mut [u8], at: usize, n: u64) -> usize
    ensures { Puts out.old at (decimal n) out.new result × (result ≤ at + 21) }
{
    if n < 10 {
        return put(out, at, &[digit(n)]);
    }
    if n < 100 {
        return put(out, at, &[digit(n / 10), digit(n)]);
    }
    if n < 1000 {
        return put(out, at, &[digit(n / 100), digit(n / 10), digit(n)]);
    }
    put_digits(out, at, decimal(n))
}

// Puts a number in two's complement at 64 bits in decimal.
pub fn put_signed(out: &mut [u8], at: usize, v: u64) -> usize
    ensures { Puts out.old at (signed v) out.new result × (result ≤ at + 21) }
{
    put_digits(out, at, signed(v))
}
