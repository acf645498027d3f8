// The result of an edit: built as a record of its own, read, and only then written to the draft.
ghost use Rattle.std.specs.Prelude.{◌≡◌, ◌≤◌, length};
ghost use Rattle.record.specs.Base.{Str};
ghost use Rattle.record.specs.Scalars.{scalars_of};
ghost use Rattle.record.specs.Reading.{Rec, rec, schema_of, read, reading};
ghost use Rattle.record.specs.declared.refusal.Side.TheVariants.{Current};
ghost use Rattle.drafts.specs.Parts.{part, after_part};
ghost use Rattle.drafts.specs.Edits.{settled};
ghost use Rattle.drafts.specs.Counted.{Legible};
ghost use Rattle.drafts.specs.Answering.{edited_as, Both};
ghost use Rattle.drafts.specs.Finishing.{finished};
ghost use Rattle.drafts.specs.Building.{rest_stream, rest_pool, Built};

use crate::changes::count_changed;
use crate::held::{after_part, part};
use crate::pack::{Ends, pack};
use crate::saying::{DraftAnswer, done, no_room, refusal};
use crate::store::put_parts;
use record::cut;
use record::read::read_record;
use record::refusal::{Refusal, Side};
use record::writer::put;

// Writes a result that can be read to the draft, where it fits.
pub(crate) fn store(
    rows: &[u8],
    changed: usize,
    draft: &mut [u8],
    stream: &[u8],
    pool: &[u8],
    past: &[u8],
    old: &[u8],
) -> DraftAnswer
    requires { let res : Rec = rec stream.now pool.now (scalars_of rows.now) in
        let copy : Rec = rec past.now old.now (scalars_of rows.now) in
        Legible res × Legible copy × (length pool.now ≤ 16384) }
    ensures { let res : Rec = rec stream.now pool.now (scalars_of rows.now) in
        let copy : Rec = rec past.now old.now (scalars_of rows.now) in
        edited_as result draft.new ≡ settled changed draft.old (schema_of copy) res (read (schema_of res)) }
{
    let need = stream.len() + pool.len() + 8;
    if draft.len() < need {
        return no_room(need, changed);
    }
    put_parts(draft, stream, pool);
    done(count_changed(rows, stream, pool, past, old))
}

// Reads a result as current, then writes it.
fn settle(
    rows: &[u8],
    changed: usize,
    draft: &mut [u8],
    stream: &[u8],
    pool: &[u8],
    past: &[u8],
    old: &[u8],
) -> DraftAnswer
    requires { let copy : Rec = rec past.now old.now (scalars_of rows.now) in
        Legible copy }
    ensures { let res : Rec = rec stream.now pool.now (scalars_of rows.now) in
        let copy : Rec = rec past.now old.now (scalars_of rows.now) in
        edited_as result draft.new ≡ settled changed draft.old (schema_of copy) res (reading Current res) }
{
    if let Err((number, place)) = read_record(Side::Current, rows, stream, pool) {
        return refusal(0, number, place, changed);
    }
    store(rows, changed, draft, stream, pool, past, old)
}

// Settles a built result, cut out of the buffers that it was built in. One that is longer than its buffer is 8.
pub(crate) fn finish(
    rows: &[u8],
    changed: usize,
    draft: &mut [u8],
    out: &[u8],
    words: &[u8],
    ends: Ends,
    past: &[u8],
    old: &[u8],
) -> DraftAnswer
    requires { let copy : Rec = rec past.now old.now (scalars_of rows.now) in
        Legible copy }
    ensures { let copy : Rec = rec past.now old.now (scalars_of rows.now) in
        edited_as result draft.new
        ≡ finished changed draft.old (schema_of copy) (scalars_of rows.now) out.now words.now ends }
{
    if 32768 < ends.stream || 16384 < ends.pool {
        return refusal(0, Refusal::Long, 0, changed);
    }
    settle(
        rows,
        changed,
        draft,
        cut::upto(out, ends.stream),
        cut::upto(words, ends.pool),
        past,
        old,
    )
}

// Builds what is left of a draft without the commands from one place up to another.
fn build_rest(draft: &[u8], place: usize, after: usize, out: &mut [u8], words: &mut [u8]) -> Ends
    requires { length (part (after_part draft.now)) ≤ 16384 }
    ensures { let b : Str = draft.now in
        Built (rest_stream b place after) (rest_pool b place after)
        out.old words.old out.new words.new result }
{
    let ends = pack(
        part(draft),
        part(after_part(draft)),
        place,
        after,
        out,
        words,
        Ends { stream: 0, pool: 0 },
    );
    Ends {
        stream: put(out, ends.stream, &[15]),
        pool: ends.pool,
    }
}

// Takes commands out over lent buffers for the result.
fn remove_lent(
    rows: &[u8],
    changed: usize,
    draft: &mut [u8],
    place: usize,
    after: usize,
    out: &mut [u8],
    words: &mut [u8],
    past: &[u8],
    old: &[u8],
) -> DraftAnswer
    requires { let copy : Rec = rec past.now old.now (scalars_of rows.now) in
        Both (scalars_of rows.now) draft.old copy × (length out.old ≡ 32768) × (length words.old ≡ 16384) }
    ensures { let copy : Rec = rec past.now old.now (scalars_of rows.now) in
        let b : Str = draft.old in
        let res : Rec = rec (rest_stream b place after) (rest_pool b place after) (scalars_of rows.now) in
        edited_as result draft.new ≡ settled changed b (schema_of copy) res (reading Current res) }
{
    let ends = build_rest(draft, place, after, out, words);
    finish(rows, changed, draft, out, words, ends, past, old)
}

// Takes the commands from one place up to another out of a draft.
pub(crate) fn remove_at(
    rows: &[u8],
    changed: usize,
    draft: &mut [u8],
    place: usize,
    after: usize,
    past: &[u8],
    old: &[u8],
) -> DraftAnswer
    requires { let copy : Rec = rec past.now old.now (scalars_of rows.now) in
        Both (scalars_of rows.now) draft.old copy }
    ensures { let copy : Rec = rec past.now old.now (scalars_of rows.now) in
        let b : Str = draft.old in
        let res : Rec = rec (rest_stream b place after) (rest_pool b place after) (scalars_of rows.now) in
        edited_as result draft.new ≡ settled changed b (schema_of copy) res (reading Current res) }
{
    let mut out = [0u8; 32768];
    let mut words = [0u8; 16384];
    remove_lent(
        rows, changed, draft, place, after, &mut out, &mut words, past, old,
    )
}
