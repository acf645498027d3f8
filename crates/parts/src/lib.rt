// Numbers and length-and-bytes parts from a reader, for the programs that replay vectors. A read that fails counts as the end of the input.
#![tactic(auto)]

ghost use Rattle.std.specs.Prelude.{◌≡◌, ℕ, ◌^◌, ◌<◌, ◌≤◌, ◌↔◌, min, length, take, drop, replicate, IfSome, IsTrue};
ghost use Rattle.std.specs.List.{All};

use layout::answer::Answer;
use record::refusal::Side;
use std::fs::File;
use std::io;
use std::io::Read;
use std::rt::Files;

// Reads until the buffer is full, the input ends or a read fails: how many bytes came.
fn read_full<R: Read>(from: &mut R, buf: &mut [u8]) -> usize
    ensures { result ≤ length buf.old }
{
    let mut done = 0;
    while done < buf.len() {
        match from.read(&mut buf[done..]) {
            Ok(0) | Err(_) => break,
            Ok(n) => done += n,
        }
    }
    done
}

// The next N bytes.
fn read_array<const N: usize, R: Read>(from: &mut R) -> Option<[u8; N]> {
    let mut bytes = [0u8; N];
    if read_full(from, &mut bytes) < N {
        None
    } else {
        Some(bytes)
    }
}

// A number of one byte; none where the input ends before.
pub fn read_byte<R: Read>(from: &mut R) -> Option<u8> {
    read_array(from).map(u8::from_le_bytes)
}

// A number of four bytes, little-endian; none where the input ends before.
pub fn read_number<R: Read>(from: &mut R) -> Option<u32> {
    read_array(from).map(u32::from_le_bytes)
}

// The side that a byte stands for.
pub fn side_of(byte: u8) -> Side
    ensures { (result ≡ Side.Current) ↔ (byte ≡ 0) }
{
    if byte == 0 {
        Side::Current
    } else {
        Side::Released
    }
}

// The four numbers of an answer as the oracle writes it (number, side, place, length), of which a cut one counts as 0, and whether the last is whole.
pub fn read_cut_answer<R: Read>(from: &mut R) -> (Answer, bool)
    ensures { (result.0.place < 2 ^ 32) × (result.0.len < 2 ^ 32) }
{
    let number = read_number(from).unwrap_or(0);
    let side = read_number(from).unwrap_or(0);
    let place = read_number(from).unwrap_or(0) as usize;
    let len = read_number(from);
    let answer = Answer {
        number,
        side,
        place,
        len: len.unwrap_or(0) as usize,
    };
    (answer, len.is_some())
}

// An answer as the oracle writes it. None where its last number is cut: an input may go on after an end, as that of a terminal does.
pub fn read_answer<R: Read>(from: &mut R) -> Option<Answer>
    ensures { IfSome result (λ a. (a.place < 2 ^ 32) × (a.len < 2 ^ 32)) }
{
    let (answer, whole) = read_cut_answer(from);
    if whole { Some(answer) } else { None }
}

// A length and as many bytes, at the front of the buffer: these bytes. None where they are more than the buffer takes, or the input ends before.
pub fn read_part<'a, R: Read>(from: &mut R, buf: &'a mut [u8]) -> Option<&'a mut [u8]>
    ensures { IfSome result (λ part. length part.now ≤ length buf.old) }
{
    let len = read_number(from)? as usize;
    let part = buf.get_mut(..len)?;
    if read_full(from, part) < len {
        None
    } else {
        Some(part)
    }
}

// So many bytes, at the front of the buffer: those that came. None came where they are more than the buffer takes.
pub fn read_bytes<'a, R: Read>(from: &mut R, buf: &'a mut [u8], n: usize) -> &'a [u8]
    ensures { length result.now ≤ length buf.old }
{
    if buf.len() < n {
        return &[];
    }
    let came = read_full(from, &mut buf[..n]);
    &buf[..came]
}

// A length and its bytes, at the front of a buffer that has a byte more than the part may: the bytes that the part counts for. A cut length counts as
// 0, a part that ends early as the bytes that came, and one whose stated length is above the limit as the whole buffer, which is one byte too long.
pub fn lent_part<'a, R: Read>(from: &mut R, buf: &'a mut [u8]) -> &'a [u8]
    ensures { length result.now ≤ length buf.old }
{
    let len = read_number(from).unwrap_or(0) as usize;
    if buf.len() <= len {
        return buf;
    }
    read_bytes(from, buf, len)
}

const MARK: u8 = 165;

// Puts a mark into every byte of a buffer that is lent.
pub fn mark(out: &mut [u8])
    ensures { out.new ≡ replicate (length out.old) 165 }
{
    out.fill(MARK);
}

// Whether a buffer begins with a text, of which no more counts than the buffer takes, and has its marks behind it.
pub fn holds(out: &[u8], text: &[u8]) -> bool
    ensures { let n : ℕ = min (length out.now) (length text.now) in
        IsTrue result ↔ ((take n out.now ≡ take n text.now) × All (λ byte. byte ≡ 165) (drop n out.now)) }
{
    let n = out.len().min(text.len());
    let (front, back) = out.split_at(n);
    front == &text[..n] && back.iter().all(|byte| *byte == MARK)
}

// Whether a buffer begins with a text, of which no more counts than the buffer takes, and has behind it what it had before.
pub fn holds_before(out: &[u8], text: &[u8], before: &[u8]) -> bool
    ensures { let n : ℕ = min (length out.now) (length text.now) in
        IsTrue result ↔ ((length before.now ≡ length out.now)
        × (take n out.now ≡ take n text.now) × (drop n out.now ≡ drop n before.now)) }
{
    let n = out.len().min(text.len());
    let (front, back) = out.split_at(n);
    before.len() == out.len() && front == &text[..n] && before.ends_with(back)
}

// Replays a file of vectors, and reports in one line how many there are and how many differ. A turn says whether a vector's answer is the oracle's,
// and has none at the end of the file.
pub fn replay<R: Files + Print, F: FnMut(&mut R::File) -> Option<bool>>(
    rt: &R,
    name: &str,
    mut turn: F,
) -> io::Result<()>
    requires { F.IsAlwaysCallable turn }
{
    let mut file = File::open(rt, name)?;
    let mut turns: u64 = 0;
    let mut wrong: u64 = 0;
    // The turns are what is printed, and a range would count them a second time.
    while turns < 1000000 {
        let Some(same) = turn(&mut file) else { break };
        turns += 1;
        if !same {
            wrong += 1;
        }
    }
    println!(rt; "{turns} vectors, {wrong} differ")
}

// A refusal or number 10, in one line.
pub fn print_refusal(rt: &impl Print, number: u32, side: u32, place: usize) -> io::Result<()> {
    println!(rt; "{number} {side} {place}")
}
