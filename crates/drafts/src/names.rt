// The rows of a shelf by their names (02, W-211).
ghost use Rattle.std.specs.Prelude.{◌≡◌, ◌<◌};
ghost use Rattle.drafts.specs.Shelf.{is_free, is_named};
ghost use Rattle.drafts.specs.Shelving.{row_at, rows_of, name_row, first_of, row_for, RowAt};

use crate::shelved::Shelf;
use record::cut;
use record::text::same;

// Whether so many of these bytes are a row's name, and it is this one. A row of no letters is free, one of more than sixteen has no name.
fn is_named(word: &[u8], letters: usize, name: &[u8]) -> bool
    ensures { result ≡ is_named name.now (name_row word.now letters) }
{
    if letters == 0 || 16 < letters {
        return false;
    }
    same(cut::upto(word, letters), name)
}

// Whether a row has this name.
fn has_name(shelf: Shelf, row: usize, name: &[u8]) -> bool
    requires { row < 8 }
    ensures { result ≡ is_named name.now (row_at shelf row) }
{
    let names = shelf.names;
    let word = cut::upto(cut::from(&names, 16 * row), 16);
    is_named(word, shelf.name_lens[row], name)
}

// The first row of a name.
pub(crate) fn row_of(shelf: Shelf, name: &[u8]) -> Option<usize>
    ensures { RowAt (first_of (is_named name.now) (rows_of shelf)) result }
{
    for i in 0..8 {
        if has_name(shelf, i, name) {
            return Some(i);
        }
    }
    None
}

// The first free row.
fn free_row(shelf: Shelf) -> Option<usize>
    ensures { RowAt (first_of is_free (rows_of shelf)) result }
{
    for i in 0..8 {
        if shelf.name_lens[i] == 0 {
            return Some(i);
        }
    }
    None
}

// The row that a name is set in: its own, or else the first free one. A name of bad length has none.
pub(crate) fn row_for(shelf: Shelf, name: &[u8]) -> Option<usize>
    ensures { RowAt (row_for name.now (rows_of shelf)) result }
{
    if name.len() == 0 || 16 < name.len() {
        return None;
    }
    let Some(own) = row_of(shelf, name) else {
        return free_row(shelf);
    };
    Some(own)
}
