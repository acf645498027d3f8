// Replays the oracle's answers of the calls of a draft, data/drafts: each vector is the call (a byte: 0 count, 1 add, 2 remove), the count given and
// the number, side, place, length and count answered (four bytes each, little-endian), then six parts (a length of four bytes and the bytes): the
// draft's buffer, the addition's stream or the name, the addition's pool, the copy's stream and pool, and what stands at the front of the buffer
// afterwards; behind that every byte is as before. Prints how many there are and how many differ.
#![tactic(auto)]

ghost use Rattle.std.specs.Prelude.{◌≤◌, length};

use drafts::saying::DraftAnswer;
use menqachu::{menqachu_draft_add, menqachu_draft_count, menqachu_draft_remove};
use parts::{holds_before, read_byte, read_cut_answer, read_number, read_part, replay};
use std::io;
use std::io::Read;

// What a call answers, and whether it leaves the draft's buffer as the oracle says.
fn reply<R: Read>(
    from: &mut R,
    call: u8,
    given: usize,
    draft: &mut [u8],
    more: &[u8],
    texts: &[u8],
) -> (DraftAnswer, bool)
    requires { length draft.old ≤ 60000 }
{
    let mut past = [0u8; 40000];
    let mut old = [0u8; 40000];
    let mut front = [0u8; 60000];
    let mut before = [0u8; 60000];
    let before = &mut before[..draft.len()];
    before.copy_from_slice(draft);
    let past = read_part(from, &mut past).unwrap_or_default();
    let old = read_part(from, &mut old).unwrap_or_default();
    let front = read_part(from, &mut front).unwrap_or_default();
    let answer = match call {
        0 => menqachu_draft_count(draft, past, old),
        1 => menqachu_draft_add(given, draft, more, texts, past, old),
        _ => menqachu_draft_remove(given, draft, more, past, old),
    };
    (answer, holds_before(draft, front, before))
}

fn turn<R: Read>(from: &mut R) -> Option<bool> {
    let mut draft = [0u8; 60000];
    let mut more = [0u8; 40000];
    let mut texts = [0u8; 40000];
    let call = read_byte(from).unwrap_or(0);
    let given = read_number(from).unwrap_or(0) as usize;
    let (answer, _) = read_cut_answer(from);
    let changed = read_number(from)? as usize;
    let expected = DraftAnswer { answer, changed };
    let draft = read_part(from, &mut draft).unwrap_or_default();
    let more = read_part(from, &mut more).unwrap_or_default();
    let texts = read_part(from, &mut texts).unwrap_or_default();
    let (answer, kept) = reply(from, call, given, draft, more, texts);
    Some(answer == expected && kept)
}

fn main(rt: HostRuntime) -> io::Result<()> {
    replay(&rt, "drafts", turn)
}
