// A shelf, and what its calls answer (02, W-211).
ghost use Rattle.std.specs.Prelude.{◌≡◌, ◌*◌, ◌≤◌, ◌<◌, length, set};
ghost use Rattle.record.specs.Fill.{placed};
ghost use Rattle.drafts.specs.Shelf.{filled, new_row};
ghost use Rattle.drafts.specs.Shelving.{rows_of, with_starts};

use crate::saying::DraftAnswer;
use layout::answer::Answer;
use record::writer::put;

// The names and places of up to eight drafts: of each row sixteen bytes, how many of them are its name, and the start and the length of its place in
// the held buffer. A row whose name has no byte is free.
#[repr(C)]
#[derive(Clone, Copy, PartialEq, Eq)]
pub struct Shelf {
    pub names: [u8; 128],
    pub name_lens: [usize; 8],
    pub starts: [usize; 8],
    pub lens: [usize; 8],
}

// Number, side, place and length, the count found afresh, and the shelf afterwards.
#[repr(C)]
#[derive(Clone, Copy, PartialEq, Eq)]
pub struct ShelfAnswer {
    pub answer: Answer,
    pub changed: usize,
    pub shelf: Shelf,
}

// An answer with a shelf.
pub(crate) fn with_shelf(r: DraftAnswer, shelf: Shelf) -> ShelfAnswer
    ensures { result ≡ record { answer = r.answer; changed = r.changed; shelf = shelf } }
{
    let answer = r.answer;
    ShelfAnswer {
        answer,
        changed: r.changed,
        shelf,
    }
}

// A name in its row, with zeros behind it.
fn put_name(names: [u8; 128], row: usize, name: &[u8]) -> [u8; 128]
    requires { (row < 8) × (length name.now ≤ 16) }
    ensures { (result ≡ placed names (16 * row) (filled 16 name.now)) × (length names ≡ 128) }
{
    let mut word = [0u8; 16];
    put(&mut word, 0, name);
    let mut out = names;
    put(&mut out, 16 * row, &word);
    out
}

// Eight numbers with that of a row set.
fn with_number(numbers: [usize; 8], row: usize, n: usize) -> [usize; 8]
    requires { row < 8 }
    ensures { (result ≡ set numbers row n) × (length numbers ≡ 8) }
{
    let mut out = numbers;
    out[row] = n;
    out
}

// A shelf with its starts moved and a row set.
pub(crate) fn set_row(
    shelf: Shelf,
    moved: [usize; 8],
    row: usize,
    name: &[u8],
    start: usize,
    len: usize,
) -> Shelf
    requires { (row < 8) × (length name.now ≤ 16) }
    ensures { rows_of result ≡ set (rows_of (with_starts shelf moved)) row (new_row name.now start len) }
{
    let given = shelf.names;
    let name_lens = shelf.name_lens;
    let lens = shelf.lens;
    Shelf {
        names: put_name(given, row, name),
        name_lens: with_number(name_lens, row, name.len()),
        starts: with_number(moved, row, start),
        lens: with_number(lens, row, len),
    }
}
