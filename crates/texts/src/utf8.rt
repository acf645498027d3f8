// Pools in UTF-8 (02, W-206).
ghost use Rattle.std.specs.Prelude.{◌+◌, ◌≤◌, ◌<◌, ◌≡◌, length, drop};
ghost use Rattle.texts.specs.Utf8.{is_tail, utf82, utf83, utf84, char_of, letter_length, odd_place, no_tail};
ghost use Rattle.texts.specs.Plain.{is_plain, all_plain, Passed};

use crate::le::byte_at;

#[tactic(auto, unfolding(crate::specs::Utf8::is_tail, crate::specs::Utf8::inside))]
fn is_tail(b: u8) -> bool
    ensures { result ≡ is_tail b }
{
    matches!(b, 0x80..=0xbf)
}

// The rows of RFC 3629's grammar.
#[tactic(auto, unfolding(crate::specs::Utf8::utf82, crate::specs::Utf8::inside))]
fn is_two(a: u8, b: u8) -> bool
    ensures { result ≡ utf82 a b }
{
    matches!(a, 0xc2..=0xdf) && is_tail(b)
}

#[tactic(auto, unfolding(crate::specs::Utf8::utf83, crate::specs::Utf8::is_tail, crate::specs::Utf8::inside))]
fn is_three(a: u8, b: u8, c: u8) -> bool
    ensures { result ≡ utf83 a b c }
{
    match (a, b) {
        (0xe0, 0xa0..=0xbf)
        | (0xe1..=0xec, 0x80..=0xbf)
        | (0xed, 0x80..=0x9f)
        | (0xee..=0xef, 0x80..=0xbf) => is_tail(c),
        _ => false,
    }
}

#[tactic(auto, unfolding(crate::specs::Utf8::utf84, crate::specs::Utf8::is_tail, crate::specs::Utf8::inside))]
fn is_four(a: u8, b: u8, c: u8, d: u8) -> bool
    ensures { result ≡ utf84 a b c d }
{
    match (a, b) {
        (0xf0, 0x90..=0xbf) | (0xf1..=0xf3, 0x80..=0xbf) | (0xf4, 0x80..=0x8f) => {
            is_tail(c) && is_tail(d)
        }
        _ => false,
    }
}

// The length of the sequence that four bytes begin with, 0 if none does, as the definition of that name has it.
fn char_of(a: u8, b: u8, c: u8, d: u8) -> usize
    ensures { result ≡ char_of a b c d }
{
    if a <= 0x7f {
        return 1;
    }
    if is_two(a, b) {
        return 2;
    }
    if is_three(a, b, c) {
        return 3;
    }
    if is_four(a, b, c, d) {
        return 4;
    }
    0
}

// A letter of one byte: 20 to 7E hex.
#[tactic(auto, unfolding(crate::specs::Plain::is_plain, crate::specs::Utf8::inside))]
fn is_plain(b: u8) -> bool
    ensures { result ≡ is_plain b }
{
    matches!(b, 0x20..=0x7e)
}

// The length of the letter at a place, 0 if none begins there, as the definition of that name has it.
pub fn letter_length(s: &[u8], at: usize) -> usize
    ensures { result ≡ letter_length (drop at s.now) }
{
    if s.len() <= at {
        return 0;
    }
    let a = s[at];
    if is_plain(a) {
        return 1;
    }
    if a <= 0x7f {
        return 0;
    }
    char_of(
        a,
        byte_at(s, at + 1),
        byte_at(s, at + 2),
        byte_at(s, at + 3),
    )
}

// Whether all bytes are plain. The fold goes on after one that is not, so that the machine may take many bytes at a time.
fn all_plain(pool: &[u8]) -> bool
    ensures { result ≡ all_plain pool.now }
{
    pool.iter().fold(true, |good, b| good & is_plain(*b))
}

// Letter by letter from a place until one is odd or begins no more before an end.
fn pass_letters(pool: &[u8], from: usize, end: usize) -> usize
    requires { (from ≤ length pool.now) × (end ≤ length pool.now) }
    ensures { Passed pool.now from end result }
{
    let mut i = from;
    while i < end {
        let k = letter_length(pool, i);
        if k == 0 {
            return i;
        }
        i += k;
    }
    i
}

// The place of the first ill-formed sequence or control byte, the pool's length if there is none.
pub fn odd_letter(pool: &[u8]) -> usize
    ensures { result ≡ odd_place pool.now }
{
    if all_plain(pool) {
        return pool.len();
    }
    let mut i = 0;
    while 32 <= pool.len() - i {
        let end = i + 32;
        if all_plain(&pool[i..end]) {
            i = end;
        } else {
            let at = pass_letters(pool, i, end);
            if at < end {
                return at;
            }
            i = at;
        }
    }
    pass_letters(pool, i, pool.len())
}

// Whether a place of a well-formed pool lies between sequences.
pub fn at_edge(pool: &[u8], at: usize) -> bool
    ensures { result ≡ no_tail pool.now at }
{
    !is_tail(byte_at(pool, at))
}
