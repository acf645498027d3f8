// Prints the list of a record's layouts. Standard input is the record, read as current: stream and pool, each a length of four bytes,
// little-endian, and its bytes.
#![tactic(auto)]

use layout::list::list_layouts;
use parts::{lent_part, print_refusal};
use record::refusal::Side;
use std::io;
use std::io::Write;

// Prints the list, or the refusal; 65,536 bytes are lent.
fn print_list(rt: &impl Print, stream: &[u8], pool: &[u8]) -> io::Result<()> {
    let mut out = [0u8; 65536];
    let a = list_layouts(Side::Current, stream, pool, &mut out);
    if a.number != 0 {
        return print_refusal(rt, a.number, a.side, a.place);
    }
    if let Some(list) = out.get(..a.len) {
        io::writer(rt).write_all(list)?;
    }
    Ok(())
}

fn main(rt: HostRuntime) -> io::Result<()> {
    let mut stream = [0u8; 32769];
    let mut pool = [0u8; 16385];
    let mut input = rt.stdin();
    let stream = lent_part(&mut input, &mut stream);
    let pool = lent_part(&mut input, &mut pool);
    print_list(&rt, stream, pool)
}
