// The exported calls, as menqachu_c hands them to programs in C and Rust. They are the calls of compare, layout, pointers, load, drafts and texts;
// what each promises is a line of specs/Guarantees.
#![tactic(auto)]

ghost use Rattle.std.specs.Prelude.{[]};
ghost use Rattle.record.specs.Reading.{Rec, rec};
ghost use Rattle.menqachu.specs.Guarantees.{lent};
ghost use Rattle.menqachu.specs.Guarantees.{CheckPromise, ListPromise, OwnerPromise, PointersPromise, LoadPromise, PairsComparedPromise};
ghost use Rattle.menqachu.specs.Guarantees.{DraftCountPromise, DraftAddPromise, DraftRemovePromise};
ghost use Rattle.menqachu.specs.Guarantees.{ShelfNewPromise, ShelfSetPromise, ShelfBackPromise};

use compare::check::check;
use drafts::draft::{draft_add, draft_count, draft_remove};
use drafts::saying::DraftAnswer;
use drafts::shelf::{shelf_back, shelf_new, shelf_set};
use drafts::shelved::{Shelf, ShelfAnswer};
use layout::answer::Answer;
use layout::list::list_layouts;
use layout::owner::{OwnerFields, ask_owner};
use load::pair::load;
use pointers::check::check_pointers;
use record::refusal::Side;
use texts::back::pairs_compared;

// A current record against a released one.
pub fn menqachu_check(stream: &[u8], pool: &[u8], past: &[u8], old: &[u8], out: &mut [u8]) -> Answer
    ensures { let cur : Rec = lent stream.now pool.now in
        let rel : Rec = lent past.now old.now in
        CheckPromise cur rel out.old out.new result }
{
    check(stream, pool, past, old, out)
}

// The layouts of a record, read as released or as current.
pub fn menqachu_list(released: bool, stream: &[u8], pool: &[u8], out: &mut [u8]) -> Answer
    ensures { let cur : Rec = lent stream.now pool.now in
        ListPromise released cur out.old out.new result }
{
    if released {
        return list_layouts(Side::Released, stream, pool, out);
    }
    list_layouts(Side::Current, stream, pool, out)
}

// The owner of a name in a current record.
pub fn menqachu_owner(stream: &[u8], pool: &[u8], name: &[u8]) -> OwnerFields
    ensures { let cur : Rec = lent stream.now pool.now in
        OwnerPromise cur name.now result }
{
    OwnerFields::from(ask_owner(stream, pool, name))
}

// Whether the pointers of a current record name what they must.
pub fn menqachu_pointers(stream: &[u8], pool: &[u8]) -> Answer
    ensures { let cur : Rec = lent stream.now pool.now in
        PointersPromise cur result }
{
    check_pointers(stream, pool)
}

// A pair of records for a burn-in, whose check gives the wanted outcome.
pub fn menqachu_load(outcome: u32, seed: u32, out: &mut [u8]) -> Answer
    ensures { LoadPromise outcome seed out.old out.new result }
{
    load(outcome, seed, out)
}

// The number of layouts in which a draft and a released record differ.
pub fn menqachu_draft_count(draft: &[u8], past: &[u8], old: &[u8]) -> DraftAnswer
    ensures { let copy : Rec = lent past.now old.now in
        DraftCountPromise copy draft.now result }
{
    draft_count(draft, past, old)
}

// A structure or a family added to a draft.
pub fn menqachu_draft_add(
    changed: usize,
    draft: &mut [u8],
    more: &[u8],
    texts: &[u8],
    past: &[u8],
    old: &[u8],
) -> DraftAnswer
    ensures { let copy : Rec = lent past.now old.now in
        let more : Rec = rec more.entry.now texts.now [] in
        DraftAddPromise copy changed more draft.old draft.new result }
{
    draft_add(changed, draft, more, texts, past, old)
}

// The first structure or family of a name taken out of a draft.
pub fn menqachu_draft_remove(
    changed: usize,
    draft: &mut [u8],
    name: &[u8],
    past: &[u8],
    old: &[u8],
) -> DraftAnswer
    ensures { let copy : Rec = lent past.now old.now in
        DraftRemovePromise copy changed name.now draft.old draft.new result }
{
    draft_remove(changed, draft, name, past, old)
}

// How many pairs of bytes the comparison of two names looks at, for tests.
pub fn menqachu_pairs_compared(a: &[u8], b: &[u8]) -> usize
    ensures { PairsComparedPromise a.now b.now result }
{
    pairs_compared(a, b)
}

// A shelf on which no name is held.
pub fn menqachu_shelf_new() -> Shelf
    ensures { ShelfNewPromise result }
{
    shelf_new()
}

// A draft held under a name.
pub fn menqachu_shelf_set(shelf: Shelf, name: &[u8], draft: &[u8], held: &mut [u8]) -> ShelfAnswer
    ensures { ShelfSetPromise shelf name.now draft.now held.old held.new result }
{
    shelf_set(shelf, name, draft, held)
}

// The draft of a name brought back.
pub fn menqachu_shelf_back(
    shelf: Shelf,
    name: &[u8],
    draft: &mut [u8],
    held: &[u8],
    past: &[u8],
    old: &[u8],
) -> ShelfAnswer
    ensures { let copy : Rec = lent past.now old.now in
        ShelfBackPromise copy shelf name.now held.now draft.old draft.new result }
{
    shelf_back(shelf, name, draft, held, past, old)
}
