// Replays the oracle's answers of the check, data/checks: each vector is the current stream and pool and the released stream and pool (a length of
// four bytes, little-endian, and the bytes), the room, the number, the side, the place and the length (four bytes each), and where the number is
// above 10 the message. The lent buffer has a mark in every byte. Prints how many there are and how many differ.
#![tactic(auto)]

use menqachu::menqachu_check;
use parts::{holds, mark, read_answer, read_bytes, read_number, read_part, replay};
use std::io;
use std::io::Read;

fn turn<R: Read>(from: &mut R) -> Option<bool> {
    let mut stream = [0u8; 40000];
    let mut pool = [0u8; 40000];
    let mut past = [0u8; 40000];
    let mut old = [0u8; 40000];
    let mut out = [0u8; 65536];
    let mut text = [0u8; 4096];
    let stream = read_part(from, &mut stream).unwrap_or_default();
    let pool = read_part(from, &mut pool).unwrap_or_default();
    let past = read_part(from, &mut past).unwrap_or_default();
    let old = read_part(from, &mut old).unwrap_or_default();
    let room = read_number(from).unwrap_or(0) as usize;
    let expected = read_answer(from)?;
    // The message, which follows where the number is a verdict's.
    let len = if 10 < expected.number {
        expected.len
    } else {
        0
    };
    let text = read_bytes(from, &mut text, len);
    let Some(out) = out.get_mut(..room) else {
        return Some(false);
    };
    mark(out);
    let answer = menqachu_check(stream, pool, past, old, out);
    Some(answer == expected && holds(out, text))
}

fn main(rt: HostRuntime) -> io::Result<()> {
    replay(&rt, "checks", turn)
}
