// The types of a record as numbers, in flattening order: all structures, then each family followed by its variants.
ghost use Rattle.std.specs.Prelude.{ℕ, ◌+◌, ◌/◌, ◌≤◌, List, ◌≡◌, length};
ghost use Rattle.record.specs.Base.{Str};
ghost use Rattle.record.specs.Fill.{fronted};
ghost use Rattle.record.specs.Seek.{places_of};
ghost use Rattle.record.specs.declared.seek.Between.TheVariants.{Anything};
ghost use Rattle.layout.specs.Room.{Room};
ghost use Rattle.layout.specs.Handles.{families_from, handles_of};

use record::le::byte_at;
use record::seek::{Between, after_at, passes, seek};

// A place as a part of a handle.
fn narrow(at: usize) -> u32
    requires { at ≤ 32767 }
    ensures { (result ≡ at) × (result ≤ 32767) }
{
    at as u32
}

// The places of the commands of one number at the front of the table, the rest as it was; and how many they are.
pub(crate) fn fill_places(stream: &[u8], number: u8, out: &mut [u32]) -> usize
    requires { (length stream.now ≤ 32768) × Room stream.now out.old }
    ensures { let places : List ℕ = places_of stream.now Anything number 0 in
        (result ≡ length places) × (out.new ≡ fronted out.old places) × (result ≤ length stream.now / 4) }
{
    let mut at = 0;
    let mut n = 0;
    while let Some((place, after)) = seek(stream, at, number, Between::Anything) {
        out[n] = narrow(place);
        n += 1;
        at = after;
    }
    n
}

// How many structures a record has, and the place of its first family; where there is none it is the stream's end.
#[derive(Clone, Copy)]
struct Structs {
    n: usize,
    family: usize,
}

// The structures' handles at the front of the table, and where the families begin; there is room for the families' after them.
fn fill_structs(stream: &[u8], out: &mut [u32]) -> Structs
    requires { (length stream.now ≤ 32768) × Room stream.now out.old }
    ensures { let s : Str = stream.now in
        let structs : List ℕ = places_of s Anything 8 0 in
        let families : List ℕ = families_from s 0 result.family in
        (result.n ≡ length structs) × (out.new ≡ fronted out.old structs)
        × (result.n + length families ≤ length s / 4) × (families_from s 0 0 ≡ families) }
{
    let mut at = 0;
    let mut family = stream.len();
    let mut n = 0;
    loop {
        let after = after_at(stream, at);
        if after == 0 {
            return Structs { n, family };
        }
        let byte = byte_at(stream, at);
        if byte == 8 {
            out[n] = narrow(at);
            n += 1;
            at = after;
        } else if byte == 9 {
            if family == stream.len() {
                family = at;
                at = after;
            } else {
                at = after;
            }
        } else {
            at = after;
        }
    }
}

// The families' handles from a place on, each followed by its variants'; `family` is one more than the place of the family whose variants may
// follow.
fn fill_families(stream: &[u8], from: usize, out: &mut [u32]) -> usize
    requires { (length stream.now ≤ 32768) × (length (families_from stream.now 0 from) ≤ length out.old) }
    ensures { let families : List ℕ = families_from stream.now 0 from in
        (result ≡ length families) × (out.new ≡ fronted out.old families) }
{
    let mut at = from;
    let mut family: u32 = 0;
    let mut n = 0;
    loop {
        let after = after_at(stream, at);
        if after == 0 {
            return n;
        }
        let byte = byte_at(stream, at);
        if byte == 9 {
            let place = narrow(at);
            family = place + 1;
            out[n] = place;
            n += 1;
            at = after;
        } else if byte == 10 {
            if family == 0 {
                at = after;
            } else {
                out[n] = 65536 * family + narrow(at);
                n += 1;
                at = after;
            }
        } else if passes(Between::Fields, byte) {
            at = after;
        } else {
            family = 0;
            at = after;
        }
    }
}

// The handles of a record's types at the front of the table, the rest as it was; and how many they are.
pub(crate) fn fill_handles(stream: &[u8], out: &mut [u32]) -> usize
    requires { (length stream.now ≤ 32768) × Room stream.now out.old }
    ensures { let handles : List ℕ = handles_of stream.now in
        (result ≡ length handles) × (out.new ≡ fronted out.old handles) × (result ≤ length stream.now / 4) }
{
    let structs = fill_structs(stream, out);
    let n = structs.n;
    let m = fill_families(stream, structs.family, &mut out[n..]);
    n + m
}
