// Checks a record about to ship against the last one shipped. Standard input is the current stream and pool, then the released stream and pool,
// each a length of four bytes, little-endian, and its bytes.
#![tactic(auto)]

use compare::check::check;
use parts::{lent_part, print_refusal};
use std::io;
use std::io::Write;

// Prints a verdict: its number and its message.
fn print_verdict(rt: &impl Print, number: u32, message: &[u8]) -> io::Result<()> {
    print!(rt; "{number} ")?;
    io::writer(rt).write_all(message)?;
    println!(rt; "")
}

// Prints the answer; 65,536 bytes are lent.
fn print_check(
    rt: &impl Print,
    stream: &[u8],
    pool: &[u8],
    past: &[u8],
    old: &[u8],
) -> io::Result<()> {
    let mut out = [0u8; 65536];
    let a = check(stream, pool, past, old, &mut out);
    match a.number {
        0 => println!(rt; "0")?,
        1..=10 => print_refusal(rt, a.number, a.side, a.place)?,
        _ => {
            if let Some(message) = out.get(..a.len) {
                print_verdict(rt, a.number, message)?;
            }
        }
    }
    Ok(())
}

fn main(rt: HostRuntime) -> io::Result<()> {
    let mut stream = [0u8; 32769];
    let mut pool = [0u8; 16385];
    let mut past = [0u8; 32769];
    let mut old = [0u8; 16385];
    let mut input = rt.stdin();
    let stream = lent_part(&mut input, &mut stream);
    let pool = lent_part(&mut input, &mut pool);
    let past = lent_part(&mut input, &mut past);
    let old = lent_part(&mut input, &mut old);
    print_check(&rt, stream, pool, past, old)
}
