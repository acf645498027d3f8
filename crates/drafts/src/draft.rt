// The calls of a draft: the count found afresh, a type added, a type taken out (02, W-210).
ghost use Rattle.std.specs.Prelude.{◌≡◌, []};
ghost use Rattle.record.specs.Scalars.{scalars_of, built_in};
ghost use Rattle.record.specs.Reading.{Rec, rec};
ghost use Rattle.drafts.specs.Edits.{count, adding, removing, edit};
ghost use Rattle.drafts.specs.Answering.{edited_as};

use crate::adding::{add_at, second_name};
use crate::editing::remove_at;
use crate::judging::read_addition;
use crate::opening::{count_held, find_held, open};
use crate::saying::{DraftAnswer, declined, done, refusal};
use record::scalars::built_in;

// The count found afresh, under a table of scalar words.
fn count_by(rows: &[u8], draft: &[u8], past: &[u8], old: &[u8]) -> DraftAnswer
    ensures { let copy : Rec = rec past.now old.now (scalars_of rows.now) in
        edited_as result draft.now ≡ count (scalars_of rows.now) copy draft.now }
{
    if let Err((side, number, place)) = open(rows, draft, past, old) {
        return refusal(side, number, place, 0);
    }
    done(count_held(rows, draft, past, old))
}

// The count found afresh.
pub fn draft_count(draft: &[u8], past: &[u8], old: &[u8]) -> DraftAnswer
    ensures { let copy : Rec = rec past.now old.now built_in in
        edited_as result draft.now ≡ count built_in copy draft.now }
{
    let rows = built_in();
    count_by(&rows, draft, past, old)
}

// An edit that takes a type out, under a table of scalar words.
fn remove_by(
    rows: &[u8],
    changed: usize,
    draft: &mut [u8],
    name: &[u8],
    past: &[u8],
    old: &[u8],
) -> DraftAnswer
    ensures { let copy : Rec = rec past.now old.now (scalars_of rows.now) in
        edited_as result draft.new
        ≡ edit (scalars_of rows.now) copy changed draft.old (removing name.now) }
{
    if let Err((side, number, place)) = open(rows, draft, past, old) {
        return refusal(side, number, place, changed);
    }
    let Some((place, after)) = find_held(draft, name) else {
        return declined(56, changed);
    };
    remove_at(rows, changed, draft, place, after, past, old)
}

// Takes the first structure or family of a name, with its parts, out of a draft.
pub fn draft_remove(
    changed: usize,
    draft: &mut [u8],
    name: &[u8],
    past: &[u8],
    old: &[u8],
) -> DraftAnswer
    ensures { let copy : Rec = rec past.now old.now built_in in
        edited_as result draft.new ≡ edit built_in copy changed draft.old (removing name.now) }
{
    let rows = built_in();
    remove_by(&rows, changed, draft, name, past, old)
}

// An edit that adds a type, under a table of scalar words.
fn add_by(
    rows: &[u8],
    changed: usize,
    draft: &mut [u8],
    more: &[u8],
    texts: &[u8],
    past: &[u8],
    old: &[u8],
) -> DraftAnswer
    ensures { let copy : Rec = rec past.now old.now (scalars_of rows.now) in
        let more : Rec = rec more.entry.now texts.now [] in
        edited_as result draft.new ≡ edit (scalars_of rows.now) copy changed draft.old (adding more) }
{
    if let Err((side, number, place)) = open(rows, draft, past, old) {
        return refusal(side, number, place, changed);
    }
    if let Err((number, place)) = read_addition(rows, more, texts) {
        return refusal(2, number, place, changed);
    }
    if let Some((_, _)) = find_held(draft, second_name(more, texts)) {
        return declined(55, changed);
    }
    add_at(rows, changed, draft, more, texts, past, old)
}

// Adds a structure or a family with its parts to a draft, before its command 0F.
pub fn draft_add(
    changed: usize,
    draft: &mut [u8],
    more: &[u8],
    texts: &[u8],
    past: &[u8],
    old: &[u8],
) -> DraftAnswer
    ensures { let copy : Rec = rec past.now old.now built_in in
        let more : Rec = rec more.entry.now texts.now [] in
        edited_as result draft.new ≡ edit built_in copy changed draft.old (adding more) }
{
    let rows = built_in();
    add_by(&rows, changed, draft, more, texts, past, old)
}
