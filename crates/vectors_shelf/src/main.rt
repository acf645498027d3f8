// Replays the oracle's answers of the calls of a shelf, data/shelves: each vector is the call (a byte: 0 set, 1 back) and the number, side, place,
// length and count answered (four bytes each, little-endian), then eight parts (a length of four bytes and the bytes): the shelf given, the shelf
// answered, the name, the draft's buffer, the held buffer, the copy's stream and pool (both empty on setting), and what stands afterwards at the
// front of the buffer that the call may change (the held one on setting, the draft's on coming back); behind that every byte is as before. A shelf
// is its 320 bytes as the struct has them: the names, then the lengths of the names, the starts and the lengths, eight bytes each, little-endian. A
// part may be as long as its array below. Prints how many vectors there are and how many differ.
#![tactic(auto)]

ghost use Rattle.std.specs.Prelude.{◌≤◌, length};

use drafts::shelved::{Shelf, ShelfAnswer};
use menqachu::{menqachu_shelf_back, menqachu_shelf_set};
use parts::{holds_before, read_byte, read_cut_answer, read_number, read_part, replay};
use std::io;
use std::io::Read;

// Eight numbers of eight bytes each, little-endian.
fn numbers(bytes: &[u8]) -> [usize; 8] {
    let mut numbers = [0; 8];
    let (words, _) = bytes.as_chunks::<8>();
    for (number, word) in numbers.iter_mut().zip(words) {
        *number = usize::from_le_bytes(*word);
    }
    numbers
}

// A shelf from its bytes.
fn shelf_from(bytes: &[u8; 320]) -> Shelf {
    let mut names = [0u8; 128];
    names.copy_from_slice(&bytes[..128]);
    Shelf {
        names,
        name_lens: numbers(&bytes[128..192]),
        starts: numbers(&bytes[192..256]),
        lens: numbers(&bytes[256..]),
    }
}

// A shelf of the vector. Of a part that is cut what came counts, with zeros behind it.
fn read_shelf<R: Read>(from: &mut R) -> Shelf {
    let mut bytes = [0u8; 320];
    read_part(from, &mut bytes);
    shelf_from(&bytes)
}

// What a setting answers, and whether it leaves the held buffer as the oracle says. The copy's parts are skipped.
fn set<R: Read>(
    from: &mut R,
    given: Shelf,
    name: &[u8],
    draft: &[u8],
    held: &mut [u8],
) -> (ShelfAnswer, bool)
    requires { length held.old ≤ 200000 }
{
    let mut front = [0u8; 200000];
    let mut before = [0u8; 200000];
    let before = &mut before[..held.len()];
    before.copy_from_slice(held);
    read_part(from, &mut front);
    read_part(from, &mut front);
    let front = read_part(from, &mut front).unwrap_or_default();
    let answer = menqachu_shelf_set(given, name, draft, held);
    (answer, holds_before(held, front, before))
}

// What a coming back answers, and whether it leaves the draft's buffer as the oracle says.
fn back<R: Read>(
    from: &mut R,
    given: Shelf,
    name: &[u8],
    draft: &mut [u8],
    held: &[u8],
) -> (ShelfAnswer, bool)
    requires { length draft.old ≤ 60000 }
{
    let mut past = [0u8; 40000];
    let mut old = [0u8; 40000];
    let mut front = [0u8; 200000];
    let mut before = [0u8; 60000];
    let before = &mut before[..draft.len()];
    before.copy_from_slice(draft);
    let past = read_part(from, &mut past).unwrap_or_default();
    let old = read_part(from, &mut old).unwrap_or_default();
    let front = read_part(from, &mut front).unwrap_or_default();
    let answer = menqachu_shelf_back(given, name, draft, held, past, old);
    (answer, holds_before(draft, front, before))
}

fn turn<R: Read>(from: &mut R) -> Option<bool> {
    let mut name = [0u8; 400];
    let mut draft = [0u8; 60000];
    let mut held = [0u8; 200000];
    let call = read_byte(from).unwrap_or(0);
    let (answer, _) = read_cut_answer(from);
    let changed = read_number(from)? as usize;
    let given = read_shelf(from);
    let shelf = read_shelf(from);
    let name = read_part(from, &mut name).unwrap_or_default();
    let draft = read_part(from, &mut draft).unwrap_or_default();
    let held = read_part(from, &mut held).unwrap_or_default();
    let expected = ShelfAnswer {
        answer,
        changed,
        shelf,
    };
    let (answer, kept) = match call {
        0 => set(from, given, name, draft, held),
        _ => back(from, given, name, draft, held),
    };
    Some(answer == expected && kept)
}

fn main(rt: HostRuntime) -> io::Result<()> {
    replay(&rt, "shelves", turn)
}
