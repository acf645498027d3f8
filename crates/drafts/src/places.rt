// The places of a shelf's drafts in the held buffer (02, W-211).
ghost use Rattle.std.specs.Prelude.{◌≡◌, ◌&&◌, ◌+◌, ◌<◌, drop, ltb};
ghost use Rattle.record.specs.Base.{any};
ghost use Rattle.drafts.specs.Shelf.{is_held, held_rows, outside, in_place, meets, overlapping, forged};
ghost use Rattle.drafts.specs.Shelving.{row_at, rows_of, place_row};

use crate::shelved::Shelf;

// Whether a place ends behind a byte. The sum of a start and a size may be above 64 bits.
fn ends_behind(at: usize, start: usize, size: usize) -> bool
    ensures { result ≡ ltb at (start + size) }
{
    at < start || at - start < size
}

// Whether a byte lies in a place.
pub(crate) fn in_place(at: usize, start: usize, size: usize) -> bool
    ensures { result ≡ in_place at (place_row start size) }
{
    start <= at && at - start < size
}

// Whether two places have a byte in common.
fn do_meet(start: usize, size: usize, other: usize, len: usize) -> bool
    ensures { result ≡ meets (place_row start size) (place_row other len) }
{
    if size == 0 || len == 0 {
        return false;
    }
    ends_behind(start, other, len) && ends_behind(other, start, size)
}

// Whether a row is held and its place lies outside a buffer of this length.
fn row_outside(shelf: Shelf, row: usize, room: usize) -> bool
    requires { row < 8 }
    ensures { result ≡ (is_held (row_at shelf row) && outside room (row_at shelf row)) }
{
    shelf.name_lens[row] != 0 && ends_behind(room, shelf.starts[row], shelf.lens[row])
}

// Whether a held place lies outside a buffer of this length.
fn is_outside(shelf: Shelf, room: usize) -> bool
    ensures { result ≡ any (outside room) (held_rows (rows_of shelf)) }
{
    for i in 0..8 {
        if row_outside(shelf, i, room) {
            return true;
        }
    }
    false
}

// Whether a row is held and a place meets its place.
fn row_meets(shelf: Shelf, row: usize, start: usize, size: usize) -> bool
    requires { row < 8 }
    ensures { result ≡ (is_held (row_at shelf row) && meets (place_row start size) (row_at shelf row)) }
{
    shelf.name_lens[row] != 0 && do_meet(start, size, shelf.starts[row], shelf.lens[row])
}

// Whether a place meets that of a held row from a row on.
fn meets_from(shelf: Shelf, from: usize, start: usize, size: usize) -> bool
    ensures { result ≡ any (meets (place_row start size)) (held_rows (drop from (rows_of shelf))) }
{
    for i in from..8 {
        if row_meets(shelf, i, start, size) {
            return true;
        }
    }
    false
}

// Whether a row is held and its place meets that of a later one.
fn meets_later(shelf: Shelf, row: usize) -> bool
    requires { row < 8 }
    ensures { result ≡ (is_held (row_at shelf row) && any (meets (row_at shelf row)) (held_rows (drop (row + 1) (rows_of shelf)))) }
{
    shelf.name_lens[row] != 0 && meets_from(shelf, row + 1, shelf.starts[row], shelf.lens[row])
}

// Whether two held places meet.
fn is_overlapping(shelf: Shelf) -> bool
    ensures { result ≡ overlapping (held_rows (rows_of shelf)) }
{
    for i in 0..8 {
        if meets_later(shelf, i) {
            return true;
        }
    }
    false
}

// Whether a held place lies outside a buffer of this length or over another.
pub(crate) fn is_forged(shelf: Shelf, room: usize) -> bool
    ensures { result ≡ forged room (rows_of shelf) }
{
    is_outside(shelf, room) || is_overlapping(shelf)
}
