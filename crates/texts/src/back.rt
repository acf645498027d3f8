// Texts compared from the back (02, W-203): one function finds how far two of them agree, and the yes or no and the count of pairs are read off it.
ghost use Rattle.std.specs.Prelude.{◌+◌, ◌≤◌, ◌≡◌, length};
ghost use Rattle.texts.specs.Texts.{eqs};
ghost use Rattle.texts.specs.Back.{pairs_compared};
ghost use Rattle.texts.specs.Agreement.{Tested, AgreedFrom};

use crate::le::{half, word};

// Whether two texts agree in eight bytes from a place on.
fn same_word(a: &[u8], b: &[u8], at: usize) -> bool
    requires { (at + 8 ≤ length a.now) × (at + 8 ≤ length b.now) }
    ensures { Tested a.now b.now at 8 result }
{
    word(a, at) == word(b, at)
}

// Whether two texts agree in four bytes from a place on.
fn same_half(a: &[u8], b: &[u8], at: usize) -> bool
    requires { (at + 4 ≤ length a.now) × (at + 4 ≤ length b.now) }
    ensures { Tested a.now b.now at 4 result }
{
    half(a, at) == half(b, at)
}

// From where on two texts of eight bytes or more agree, by words from the last to the first. The first word reaches over the one behind it.
fn agreed_by_words(a: &[u8], b: &[u8]) -> usize
    requires { (8 ≤ length a.now) × (length a.now ≡ length b.now) }
    ensures { AgreedFrom a.now b.now result }
{
    let mut left = a.len();
    while 8 < left {
        let next = left - 8;
        if !same_word(a, b, next) {
            return left;
        }
        left = next;
    }
    if same_word(a, b, 0) {
        return 0;
    }
    left
}

// From where on two texts of four to eight bytes agree, by the last four and the first four.
fn agreed_by_halves(a: &[u8], b: &[u8]) -> usize
    requires { (4 ≤ length a.now) × (length a.now ≤ 8) × (length a.now ≡ length b.now) }
    ensures { AgreedFrom a.now b.now result }
{
    let n = a.len();
    let last = n - 4;
    if !same_half(a, b, last) {
        return n;
    }
    if same_half(a, b, 0) {
        return 0;
    }
    last
}

// From where on two texts of one to three bytes agree: by the last, the middle and the first one.
fn agreed_by_bytes(a: &[u8], b: &[u8]) -> usize
    requires { (1 ≤ length a.now) × (length a.now ≤ 3) × (length a.now ≡ length b.now) }
    ensures { AgreedFrom a.now b.now result }
{
    let n = a.len();
    let last = n - 1;
    let middle = n / 2;
    if a[last] == b[last] && a[middle] == b[middle] && a[0] == b[0] {
        0
    } else {
        n
    }
}

// From where on two texts of one length agree: 0 exactly if they are the same. Of bytes that are read together and differ none counts as agreed.
fn agreed_from(a: &[u8], b: &[u8]) -> usize
    requires { length a.now ≡ length b.now }
    ensures { AgreedFrom a.now b.now result }
{
    let n = a.len();
    if 8 <= n {
        return agreed_by_words(a, b);
    }
    if 4 <= n {
        return agreed_by_halves(a, b);
    }
    if n == 0 {
        return 0;
    }
    agreed_by_bytes(a, b)
}

// Whether two texts are the same.
pub fn same(a: &[u8], b: &[u8]) -> bool
    ensures { result ≡ eqs a.now b.now }
{
    a.len() == b.len() && agreed_from(a, b) == 0
}

// How many pairs of bytes are compared. What was read together and differs is gone through byte by byte, from its last one.
pub fn pairs_compared(a: &[u8], b: &[u8]) -> usize
    ensures { result ≡ pairs_compared a.now b.now }
{
    let n = a.len();
    if n != b.len() {
        return 0;
    }
    let left = agreed_from(a, b);
    for next in (0..left).rev() {
        if a[next] != b[next] {
            return n - next;
        }
    }
    n
}
