// Makes the pairs of the seeds 0 to 999 with each outcome and checks them. It prints what `oracle load` prints of its own pairs (stdout here):
// for each outcome how many pairs had it, a sum over their bytes, and how many fields of each kind their released records show; how long the pairs
// are; and how many calls that must give 61 do not. Each pair is made in a buffer too long, in one just long enough, and in one a byte short.
#![tactic(auto)]

ghost use Rattle.std.specs.Prelude.{◌≤◌, length};

use layout::answer::Answer;
use menqachu::{menqachu_check, menqachu_load};
use parts::{holds, mark};
use record::cut;
use record::kind::kind_of;
use record::le::u32_at;
use record::operands::text_at;
use record::seek::{Between, seek};
use record::text::bytes_of;
use std::io;

// The outcomes that a pair is made for.
const OUTCOMES: [u32; 6] = [0, 20, 34, 35, 36, 43];

// Outcomes beside the six, of which some have a low byte like theirs.
const STRANGE: [u32; 16] = [
    1, 10, 11, 19, 21, 33, 37, 42, 44, 46, 61, 256, 276, 65535, 65556, 4294967295,
];

const SEEDS: u32 = 1000;

// What is found over the pairs of an outcome.
#[derive(Clone, Copy)]
struct Found {
    met: u64,
    sum: u32,
    kinds: [u64; 17],
}

// An answer of one side without a place.
fn answer(number: u32, len: usize) -> Answer {
    Answer {
        number,
        side: 0,
        place: 0,
        len,
    }
}

// The bytes of the part at the front, and what follows it.
fn split_part(pair: &[u8]) -> (&[u8], &[u8]) {
    let len = u32_at(pair, 0) as usize;
    let body = cut::from(pair, 4);
    (cut::upto(body, len), cut::from(body, len))
}

// Whether the four parts are all there is, and the check of them gives the outcome.
fn has_outcome(pair: &[u8], outcome: u32) -> bool {
    let mut message = [0u8; 1024];
    let (stream, rest) = split_part(pair);
    let (pool, rest) = split_part(rest);
    let (past, rest) = split_part(rest);
    let (old, rest) = split_part(rest);
    rest.is_empty() && menqachu_check(stream, pool, past, old, &mut message).number == outcome
}

// One more at an index.
fn count(counts: &mut [u64], at: usize) {
    if let Some(n) = counts.get_mut(at) {
        *n = n.saturating_add(1);
    }
}

// Counts the kinds of the fields from a place of a stream on, in 01's order; a stream has fewer than a thousand fields.
fn count_kinds(stream: &[u8], pool: &[u8], from: usize, kinds: &mut [u64]) {
    let mut at = from;
    for _ in 0..1000 {
        let Some((place, after)) = seek(stream, at, 11, Between::Anything) else {
            return;
        };
        let field = cut::from(stream, place);
        count(kinds, kind_of(bytes_of(pool, text_at(field, 4))) as usize);
        at = after;
    }
}

// Counts the kinds of the structures' fields in the released record: the structures stand last in it.
fn count_released(pair: &[u8], kinds: &mut [u64]) {
    let (_, rest) = split_part(pair);
    let (_, rest) = split_part(rest);
    let (stream, rest) = split_part(rest);
    let (pool, _) = split_part(rest);
    if let Some((_, after)) = seek(stream, 0, 8, Between::Anything) {
        count_kinds(stream, pool, after, kinds);
    }
}

// A sum in which every byte and its place counts.
fn mixed(sum: u32, byte: u8) -> u32 {
    ((sum as u64 * 257 + byte as u64 + 1) % 4294967291) as u32
}

// Whether a call that is lent so many bytes gives the number and the length, and leaves the buffer with the text and as it was behind that.
fn answers_in(room: usize, outcome: u32, seed: u32, expected: Answer, text: &[u8]) -> bool {
    let mut out = [0u8; 16384];
    let Some(out) = out.get_mut(..room) else {
        return false;
    };
    mark(out);
    let a = menqachu_load(outcome, seed, out);
    a == expected && holds(out, text)
}

// Whether the pair is the same in a buffer of its length, and missing in one a byte shorter.
fn fits_just(outcome: u32, seed: u32, pair: &[u8]) -> bool {
    let n = pair.len();
    n != 0
        && answers_in(n, outcome, seed, answer(0, n), pair)
        && answers_in(n - 1, outcome, seed, answer(10, n), b"")
}

// Judges a pair, and counts what it has.
fn judge(outcome: u32, seed: u32, pair: &[u8], found: &mut Found, lengths: &mut [u64]) {
    found.sum = pair.iter().fold(found.sum, |sum, byte| mixed(sum, *byte));
    count_released(pair, &mut found.kinds);
    count(lengths, pair.len() / 1000);
    if has_outcome(pair, outcome) && fits_just(outcome, seed, pair) {
        found.met = found.met.saturating_add(1);
    }
}

// Makes a pair in a buffer longer than any, and judges it.
fn one(outcome: u32, seed: u32, found: &mut Found, lengths: &mut [u64]) {
    let mut out = [0u8; 16384];
    mark(&mut out);
    let a = menqachu_load(outcome, seed, &mut out);
    if a == answer(0, a.len) && holds(cut::from(&out, a.len), b"") {
        judge(outcome, seed, cut::upto(&out, a.len), found, lengths);
    }
}

fn print_counts(rt: &impl Print, counts: &[u64]) -> io::Result<()> {
    for n in counts {
        print!(rt; " {n}")?;
    }
    println!(rt; "")
}

// Makes and judges all pairs of an outcome.
fn print_outcome(rt: &impl Print, outcome: u32, lengths: &mut [u64]) -> io::Result<()> {
    let mut found = Found {
        met: 0,
        sum: 0,
        kinds: [0; 17],
    };
    for seed in 0..SEEDS {
        one(outcome, seed, &mut found, lengths);
    }
    let met = found.met;
    let sum = found.sum;
    print!(rt; "outcome {outcome}: {met} pairs met, sum {sum}, kinds")?;
    print_counts(rt, &found.kinds)
}

// Whether a call gives 61 and leaves the buffer as it was, with room and without.
fn gives_61(outcome: u32, seed: u32) -> bool {
    answers_in(16384, outcome, seed, answer(61, 0), b"")
        && answers_in(0, outcome, seed, answer(61, 0), b"")
}

// How many of these outcomes are amiss at a seed, where each should give 61.
fn amiss(outcomes: &[u32], seed: u32) -> usize
    ensures { result ≤ length outcomes.now }
{
    outcomes
        .iter()
        .filter(|outcome| !gives_61(**outcome, seed))
        .count()
}

fn main(rt: HostRuntime) -> io::Result<()> {
    let mut lengths = [0u64; 16];
    for outcome in OUTCOMES {
        print_outcome(&rt, outcome, &mut lengths)?;
    }
    print!(rt; "lengths by thousands of bytes:")?;
    print_counts(&rt, &lengths)?;
    let strange = amiss(&STRANGE, 0) + amiss(&STRANGE, 2147483647);
    // The seeds above the last.
    let late = amiss(&OUTCOMES, 2147483648)
        + amiss(&OUTCOMES, 2147483649)
        + amiss(&OUTCOMES, 4294967295);
    let wrong = strange + late;
    println!(rt; "calls that should give 61 and do not: {wrong}")
}
