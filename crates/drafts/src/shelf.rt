// The calls of a shelf: a draft held under a name, and the draft of a name brought back (02, W-211).
ghost use Rattle.std.specs.Prelude.{◌≡◌};
ghost use Rattle.record.specs.Scalars.{scalars_of, built_in};
ghost use Rattle.record.specs.Reading.{Rec, rec};
ghost use Rattle.drafts.specs.Shelf.{shelved, set_draft, brought_from, back_draft};
ghost use Rattle.drafts.specs.Shelving.{rows_of, new_shelf, shelved_as};

use crate::editing::store;
use crate::held::{after_part, part, read_held};
use crate::holding::hold;
use crate::names::{row_for, row_of};
use crate::opening::open;
use crate::places::is_forged;
use crate::saying::{declined, refusal};
use crate::shelved::{Shelf, ShelfAnswer, with_shelf};
use record::cut;
use record::scalars::built_in;

// A shelf on which no name is held.
pub fn shelf_new() -> Shelf
    ensures { result ≡ new_shelf }
{
    Shelf {
        names: [0; 128],
        name_lens: [0; 8],
        starts: [0; 8],
        lens: [0; 8],
    }
}

// Holds a draft under a name, under a table of scalar words.
fn set_by(rows: &[u8], shelf: Shelf, name: &[u8], draft: &[u8], held: &mut [u8]) -> ShelfAnswer
    ensures { shelved_as result held.new
        ≡ set_draft (scalars_of rows.now) (rows_of shelf) name.now draft.now held.old }
{
    let Some(row) = row_for(shelf, name) else {
        return with_shelf(declined(57, 0), shelf);
    };
    if is_forged(shelf, held.len()) {
        return with_shelf(declined(58, 0), shelf);
    }
    if let Err((number, place)) = read_held(rows, draft) {
        return with_shelf(refusal(0, number, place, 0), shelf);
    }
    hold(shelf, row, name, part(draft), part(after_part(draft)), held)
}

// Holds a draft under a name, in place of the one held under it before.
pub fn shelf_set(shelf: Shelf, name: &[u8], draft: &[u8], held: &mut [u8]) -> ShelfAnswer
    ensures { shelved_as result held.new
        ≡ set_draft built_in (rows_of shelf) name.now draft.now held.old }
{
    let rows = built_in();
    set_by(&rows, shelf, name, draft, held)
}

// Puts the draft of a place at the front of the draft's buffer, where it fits.
fn bring_back(
    rows: &[u8],
    shelf: Shelf,
    draft: &mut [u8],
    place: &[u8],
    past: &[u8],
    old: &[u8],
) -> ShelfAnswer
    ensures { let copy : Rec = rec past.now old.now (scalars_of rows.now) in
        shelved_as result draft.new
        ≡ shelved (brought_from (scalars_of rows.now) copy draft.old place.now) (rows_of shelf) }
{
    if let Err((side, number, at)) = open(rows, place, past, old) {
        return with_shelf(refusal(side, number, at, 0), shelf);
    }
    let stored = store(
        rows,
        0,
        draft,
        part(place),
        part(after_part(place)),
        past,
        old,
    );
    with_shelf(stored, shelf)
}

// Brings the draft of a name back, under a table of scalar words.
fn back_by(
    rows: &[u8],
    shelf: Shelf,
    name: &[u8],
    draft: &mut [u8],
    held: &[u8],
    past: &[u8],
    old: &[u8],
) -> ShelfAnswer
    ensures { let copy : Rec = rec past.now old.now (scalars_of rows.now) in
        shelved_as result draft.new
        ≡ back_draft (scalars_of rows.now) copy (rows_of shelf) name.now draft.old held.now }
{
    if is_forged(shelf, held.len()) {
        return with_shelf(declined(58, 0), shelf);
    }
    let Some(row) = row_of(shelf, name) else {
        return with_shelf(declined(58, 0), shelf);
    };
    let place = cut::upto(cut::from(held, shelf.starts[row]), shelf.lens[row]);
    bring_back(rows, shelf, draft, place, past, old)
}

// Puts the draft held under a name at the front of the draft's buffer, with its count found afresh.
pub fn shelf_back(
    shelf: Shelf,
    name: &[u8],
    draft: &mut [u8],
    held: &[u8],
    past: &[u8],
    old: &[u8],
) -> ShelfAnswer
    ensures { let copy : Rec = rec past.now old.now built_in in
        shelved_as result draft.new
        ≡ back_draft built_in copy (rows_of shelf) name.now draft.old held.now }
{
    let rows = built_in();
    back_by(&rows, shelf, name, draft, held, past, old)
}
