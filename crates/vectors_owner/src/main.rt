// Replays the oracle's answers of owners, data/owners: each vector is a stream, a pool and a name (a length of four bytes, little-endian, and the
// bytes), the answer (a byte: 0 none, 1 an owner, 2 a refused record) and two numbers of four bytes (the start and the length of the owner's name;
// the refusal's number and place; 0 and 0). Prints how many there are and how many differ.
#![tactic(auto)]

use menqachu::menqachu_owner;
use parts::{read_byte, read_number, read_part, replay};
use std::io;
use std::io::Read;

// The answer as the oracle writes it: a kind and two numbers.
fn reply(stream: &[u8], pool: &[u8], name: &[u8]) -> (u32, usize, usize) {
    let f = menqachu_owner(stream, pool, name);
    if f.number == 0 {
        (f.owned, f.start as usize, f.len as usize)
    } else {
        (2, f.number as usize, f.place)
    }
}

fn turn<R: Read>(from: &mut R) -> Option<bool> {
    let mut stream = [0u8; 40000];
    let mut pool = [0u8; 40000];
    let mut name = [0u8; 1024];
    let stream = read_part(from, &mut stream).unwrap_or_default();
    let pool = read_part(from, &mut pool).unwrap_or_default();
    let name = read_part(from, &mut name).unwrap_or_default();
    let kind = read_byte(from).unwrap_or(0) as u32;
    let first = read_number(from).unwrap_or(0) as usize;
    let second = read_number(from)? as usize;
    Some(reply(stream, pool, name) == (kind, first, second))
}

fn main(rt: HostRuntime) -> io::Result<()> {
    replay(&rt, "owners", turn)
}
