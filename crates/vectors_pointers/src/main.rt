// Replays the oracle's answers of the check of pointers, data/pointers: each vector is a stream and a pool (a length of four bytes, little-endian,
// and the bytes), the number (a byte) and the place (four bytes); the side and the length are 0. Prints how many there are and how many differ.
#![tactic(auto)]

use layout::answer::Answer;
use parts::{read_byte, read_number, read_part, replay};
use pointers::check::check_pointers;
use std::io;
use std::io::Read;

fn turn<R: Read>(from: &mut R) -> Option<bool> {
    let mut stream = [0u8; 40000];
    let mut pool = [0u8; 40000];
    let stream = read_part(from, &mut stream).unwrap_or_default();
    let pool = read_part(from, &mut pool).unwrap_or_default();
    let expected = Answer {
        number: read_byte(from).unwrap_or(0) as u32,
        side: 0,
        place: read_number(from)? as usize,
        len: 0,
    };
    Some(check_pointers(stream, pool) == expected)
}

fn main(rt: HostRuntime) -> io::Result<()> {
    replay(&rt, "pointers", turn)
}
