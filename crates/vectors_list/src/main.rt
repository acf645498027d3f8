// Replays the oracle's answers of the list call, data/lists: each vector is a stream and a pool (a length of four bytes, little-endian, and the
// bytes), the side it is read as (a byte), the room, the number, the side, the place and the length (four bytes each), and where the number is 0
// the list. The lent buffer has a mark in every byte. Prints how many there are and how many differ.
#![tactic(auto)]

use layout::list::list_layouts;
use parts::{
    holds, mark, read_answer, read_byte, read_bytes, read_number, read_part, replay, side_of,
};
use std::io;
use std::io::Read;

fn turn<R: Read>(from: &mut R) -> Option<bool> {
    let mut stream = [0u8; 40000];
    let mut pool = [0u8; 40000];
    let mut out = [0u8; 65536];
    let mut text = [0u8; 65536];
    let stream = read_part(from, &mut stream).unwrap_or_default();
    let pool = read_part(from, &mut pool).unwrap_or_default();
    let side = side_of(read_byte(from).unwrap_or(0));
    let room = read_number(from).unwrap_or(0) as usize;
    let expected = read_answer(from)?;
    // The list, which follows where the number is 0.
    let len = if expected.number == 0 {
        expected.len
    } else {
        0
    };
    let text = read_bytes(from, &mut text, len);
    let Some(out) = out.get_mut(..room) else {
        return Some(false);
    };
    mark(out);
    let answer = list_layouts(side, stream, pool, out);
    Some(answer == expected && holds(out, text))
}

fn main(rt: HostRuntime) -> io::Result<()> {
    replay(&rt, "lists", turn)
}
