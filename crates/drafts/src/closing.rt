// The drafts that stay on a shelf closed up, before the place of a new one (02, W-211).
ghost use Rattle.std.specs.Prelude.{◌≡◌, map, ◌<◌, length, set};
ghost use Rattle.record.specs.Base.{Str};
ghost use Rattle.record.specs.Fill.{fronted};
ghost use Rattle.drafts.specs.Packing.{kept};
ghost use Rattle.drafts.specs.Shelving.{rows_of, size_row, held_size, covering, bytes_before, all_before, Spaced, starts_after};

use crate::places::in_place;
use crate::shelved::Shelf;

// The size of a row's place; a free row has none.
fn held_size(letters: usize, len: usize) -> usize
    ensures { result ≡ held_size (size_row letters len) }
{
    if letters == 0 {
        return 0;
    }
    len
}

// The sizes of the held places.
fn held_sizes(shelf: Shelf) -> [usize; 8]
    ensures { result ≡ map held_size (rows_of shelf) }
{
    let mut sizes = [0usize; 8];
    for i in 0..8 {
        sizes[i] = held_size(shelf.name_lens[i], shelf.lens[i]);
    }
    sizes
}

// The sizes of the places that stay where a row gives way.
pub(crate) fn sizes_but(shelf: Shelf, row: usize) -> [usize; 8]
    requires { row < 8 }
    ensures { result ≡ set (map held_size (rows_of shelf)) row 0 }
{
    let mut sizes = held_sizes(shelf);
    sizes[row] = 0;
    sizes
}

// Whether a byte of the buffer lies in one of the places.
fn stays(starts: &[usize], sizes: &[usize], at: usize) -> bool
    ensures { result ≡ covering starts.now sizes.now at }
{
    for (start, size) in starts.iter().zip(sizes) {
        if in_place(at, *start, *size) {
            return true;
        }
    }
    false
}

// How many bytes of a place stand before an end.
fn bytes_before(end: usize, start: usize, size: usize) -> usize
    ensures { result ≡ bytes_before end start size }
{
    size.min(end.saturating_sub(start))
}

// How many bytes of the places stand before an end.
pub(crate) fn kept_before(starts: &[usize], sizes: &[usize], end: usize) -> usize
    requires { Spaced starts.now sizes.now }
    ensures { result ≡ all_before starts.now sizes.now end }
{
    let mut sum = 0;
    for (start, size) in starts.iter().zip(sizes) {
        sum += bytes_before(end, *start, *size);
    }
    sum
}

// Where each place begins once all of them are closed up in a buffer of this length.
pub(crate) fn moved_starts(starts: &[usize], sizes: &[usize], len: usize) -> [usize; 8]
    requires { (length starts.now ≡ 8) × Spaced starts.now sizes.now }
    ensures { result ≡ starts_after starts.now sizes.now len }
{
    let mut moved = [0usize; 8];
    for i in 0..8 {
        moved[i] = kept_before(starts, sizes, starts[i].min(len));
    }
    moved
}

// Moves the bytes of the places to the front of the buffer, in their order. A byte never moves up, so they move in place.
pub(crate) fn close_up(held: &mut [u8], starts: &[usize], sizes: &[usize])
    ensures { let b : Str = held.old in
        held.new ≡ fronted b (kept (covering starts.now sizes.now) 0 b) }
{
    let mut end = 0;
    for i in 0..held.len() {
        if stays(starts, sizes, i) {
            held[end] = held[i];
            end += 1;
        }
    }
}
