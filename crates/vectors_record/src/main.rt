// Replays the oracle's answers of the record reader, data/records: each vector is a stream and a pool (a length of four bytes, little-endian, and
// the bytes), the side and the number (a byte each; 0 stands for a record that can be read) and the place (four bytes). Prints how many there are
// and how many differ.
#![tactic(auto)]

use parts::{read_byte, read_number, read_part, replay, side_of};
use record::read::read_record;
use record::refusal::Refusal;
use record::scalars::built_in;
use std::io;
use std::io::Read;

// Whether an outcome has this number and place; 0 stands for a record that can be read.
fn agrees(outcome: Result<(), (Refusal, usize)>, number: u32, place: usize) -> bool {
    let Err((refusal, at)) = outcome else {
        return number == 0;
    };
    refusal.number() == number && at == place
}

fn turn<R: Read>(from: &mut R) -> Option<bool> {
    let mut stream = [0u8; 40000];
    let mut pool = [0u8; 40000];
    let stream = read_part(from, &mut stream).unwrap_or_default();
    let pool = read_part(from, &mut pool).unwrap_or_default();
    let side = side_of(read_byte(from).unwrap_or(0));
    let number = read_byte(from).unwrap_or(0) as u32;
    let place = read_number(from)? as usize;
    let outcome = read_record(side, &built_in(), stream, pool);
    Some(agrees(outcome, number, place))
}

fn main(rt: HostRuntime) -> io::Result<()> {
    replay(&rt, "records", turn)
}
