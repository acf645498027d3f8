// Counts the pairs compared of texts of 0 to 300 bytes, with an unequal pair at every place, and prints what the oracle's count gives over the same
// texts (stdout here): a line a length with the count of equal texts, a sum over the counts with one unequal pair, one with all pairs in front of it
// unequal too, and the count of a text with its own back.
#![tactic(auto)]

ghost use Rattle.std.specs.Prelude.{◌≤◌};

use menqachu::menqachu_pairs_compared;
use std::io;

const MOST: usize = 300;

// Bytes that repeat only after 251 places.
fn fill(out: &mut [u8]) {
    for (i, byte) in out.iter_mut().enumerate() {
        *byte = (i % 251) as u8;
    }
}

// Another byte, in its highest bit or in its lowest ones.
fn other(x: u8) -> u8 {
    if x < 128 { x + 128 } else { x - 127 }
}

// A sum in which every count and its place counts.
fn mixed(sum: u32, count: usize) -> u32 {
    ((sum as u64 * 257 + (count % 65536) as u64 + 1) % 4294967291) as u32
}

// The sum over one unequal pair at each place.
fn one_unequal(a: &[u8], b: &mut [u8]) -> u32 {
    let mut sum = 0;
    for i in 0..b.len() {
        let kept = b[i];
        b[i] = other(kept);
        sum = mixed(sum, menqachu_pairs_compared(a, b));
        b[i] = kept;
    }
    sum
}

// The sum over an unequal pair at each place with all in front of it. The bytes stay changed.
fn front_unequal(a: &[u8], b: &mut [u8]) -> u32 {
    let mut sum = 0;
    for i in 0..b.len() {
        b[i] = other(b[i]);
        sum = mixed(sum, menqachu_pairs_compared(a, b));
    }
    sum
}

// The counts of a text and another that is the same.
fn print_counts(rt: &impl Print, a: &[u8], b: &mut [u8]) -> io::Result<()> {
    let length = a.len();
    let equal = menqachu_pairs_compared(a, b);
    let one = one_unequal(a, b);
    let front = front_unequal(a, b);
    // Its own back is the text without its first byte.
    let back = menqachu_pairs_compared(a, a.get(1..).unwrap_or(a));
    println!(rt; "{length} {equal} {one} {front} {back}")
}

fn print_length(rt: &impl Print, n: usize) -> io::Result<()>
    requires { n ≤ MOST }
{
    let mut a = [0u8; MOST];
    fill(&mut a);
    let mut b = a;
    print_counts(rt, &a[..n], &mut b[..n])
}

fn main(rt: HostRuntime) -> io::Result<()> {
    for n in 0..=MOST {
        print_length(&rt, n)?;
    }
    Ok(())
}
