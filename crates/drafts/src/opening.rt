// Draft and copy read, as every call of a draft begins.
ghost use Rattle.std.specs.Prelude.{◌≡◌};
ghost use Rattle.record.specs.Scalars.{scalars_of};
ghost use Rattle.record.specs.Reading.{Rec, rec, schema_of};
ghost use Rattle.drafts.specs.Parts.{part, after_part, held_rec};
ghost use Rattle.drafts.specs.Count.{count_changed};
ghost use Rattle.drafts.specs.Counted.{Legible};
ghost use Rattle.drafts.specs.Found.{TypeAt};
ghost use Rattle.drafts.specs.Answering.{Opens};

use crate::changes::count_changed;
use crate::find::find_type;
use crate::held::{after_part, part, read_held};
use record::read::read_record;
use record::refusal::{Refusal, Side};

// The side of the one that cannot be read, with its refusal and its place.
pub type Barred = (u32, Refusal, usize);

// Reads the draft, then the copy.
pub(crate) fn open(rows: &[u8], draft: &[u8], past: &[u8], old: &[u8]) -> Result<(), Barred>
    ensures { let copy : Rec = rec past.now old.now (scalars_of rows.now) in
        Opens (scalars_of rows.now) draft.now copy result }
{
    if let Err((refusal, place)) = read_held(rows, draft) {
        return Err((0, refusal, place));
    }
    if let Err((refusal, place)) = read_record(Side::Released, rows, past, old) {
        return Err((1, refusal, place));
    }
    Ok(())
}

// The number of layouts in which draft and copy differ.
pub(crate) fn count_held(rows: &[u8], draft: &[u8], past: &[u8], old: &[u8]) -> usize
    requires { let copy : Rec = rec past.now old.now (scalars_of rows.now) in
        Legible (held_rec (scalars_of rows.now) draft.now) × Legible copy }
    ensures { let copy : Rec = rec past.now old.now (scalars_of rows.now) in
        result ≡ count_changed (schema_of (held_rec (scalars_of rows.now) draft.now)) (schema_of copy) }
{
    count_changed(rows, part(draft), part(after_part(draft)), past, old)
}

// The first type of a name in a draft.
pub(crate) fn find_held(draft: &[u8], name: &[u8]) -> Option<(usize, usize)>
    ensures { TypeAt (part draft.now) (part (after_part draft.now)) name.now result }
{
    find_type(part(draft), part(after_part(draft)), name)
}
