// A type added to a draft.
ghost use Rattle.std.specs.Prelude.{◌≡◌, ◌≤◌, length};
ghost use Rattle.record.specs.Base.{Str};
ghost use Rattle.record.specs.Scalars.{scalars_of};
ghost use Rattle.record.specs.Commands.{commands_at};
ghost use Rattle.drafts.specs.Packed.{Packed};
ghost use Rattle.drafts.specs.Finishing.{HeldPacked};
ghost use Rattle.record.specs.Reading.{Rec, rec, schema_of, reading};
ghost use Rattle.record.specs.declared.refusal.Side.TheVariants.{Current};
ghost use Rattle.drafts.specs.Parts.{part, after_part};
ghost use Rattle.drafts.specs.Edits.{tail, settled};
ghost use Rattle.drafts.specs.Answering.{edited_as, Both};
ghost use Rattle.drafts.specs.Building.{Built};
ghost use Rattle.drafts.specs.Summing.{sum_stream, sum_pool, second_name};

use crate::editing::finish;
use crate::held::{after_part, part};
use crate::pack::{Ends, pack};
use crate::saying::DraftAnswer;
use record::cut;
use record::operands::text_at;
use record::seek::after_at;
use record::text::bytes_of;
use record::writer::put;

// The name of the type that an addition has after its head.
pub(crate) fn second_name<'a>(more: &[u8], texts: &'a [u8]) -> &'a [u8]
    ensures { result.now ≡ second_name more.now texts.now }
{
    bytes_of(texts, text_at(cut::from(more, after_at(more, 0)), 1))
}

// Packs all commands of a draft.
fn pack_held(draft: &[u8], out: &mut [u8], words: &mut [u8]) -> Ends
    requires { length (part (after_part draft.now)) ≤ 16384 }
    ensures { HeldPacked draft.now out.old out.new words.old words.new result }
{
    pack(
        part(draft),
        part(after_part(draft)),
        0,
        0,
        out,
        words,
        Ends { stream: 0, pool: 0 },
    )
}

// Packs the commands of an addition after its head, behind those of a draft.
fn pack_more(more: &[u8], texts: &[u8], out: &mut [u8], words: &mut [u8], ends: Ends) -> Ends
    requires { (length texts.now ≤ 16384) × (ends.pool ≤ 16384) }
    ensures { let s : Str = more.now in
        Packed s texts.now (tail (commands_at s 0)) ends
        out.old out.new words.old words.new result }
{
    pack(more, texts, 0, after_at(more, 0), out, words, ends)
}

// Builds a draft with the type of an addition behind its commands.
fn build_sum(draft: &[u8], more: &[u8], texts: &[u8], out: &mut [u8], words: &mut [u8]) -> Ends
    requires { (length (part (after_part draft.now)) ≤ 16384) × (length texts.now ≤ 16384) }
    ensures { let b : Str = draft.now in
        let s : Str = more.now in
        let p : Str = texts.now in
        Built (sum_stream b s p) (sum_pool b s p) out.old words.old out.new words.new result }
{
    let first = pack_held(draft, out, words);
    let second = pack_more(more, texts, out, words, first);
    Ends {
        stream: put(out, second.stream, &[15]),
        pool: second.pool,
    }
}

// Adds a type over lent buffers for the result.
fn add_lent(
    rows: &[u8],
    changed: usize,
    draft: &mut [u8],
    more: &[u8],
    texts: &[u8],
    out: &mut [u8],
    words: &mut [u8],
    past: &[u8],
    old: &[u8],
) -> DraftAnswer
    requires { let copy : Rec = rec past.now old.now (scalars_of rows.now) in
        Both (scalars_of rows.now) draft.old copy
        × (length texts.now ≤ 16384)
        × (length out.old ≡ 32768)
        × (length words.old ≡ 16384) }
    ensures { let copy : Rec = rec past.now old.now (scalars_of rows.now) in
        let b : Str = draft.old in
        let s : Str = more.now in
        let p : Str = texts.now in
        let res : Rec = rec (sum_stream b s p) (sum_pool b s p) (scalars_of rows.now) in
        edited_as result draft.new ≡ settled changed b (schema_of copy) res (reading Current res) }
{
    let ends = build_sum(draft, more, texts, out, words);
    finish(rows, changed, draft, out, words, ends, past, old)
}

// Adds the type of an addition to a draft.
pub(crate) fn add_at(
    rows: &[u8],
    changed: usize,
    draft: &mut [u8],
    more: &[u8],
    texts: &[u8],
    past: &[u8],
    old: &[u8],
) -> DraftAnswer
    requires { let copy : Rec = rec past.now old.now (scalars_of rows.now) in
        Both (scalars_of rows.now) draft.old copy × (length texts.now ≤ 16384) }
    ensures { let copy : Rec = rec past.now old.now (scalars_of rows.now) in
        let b : Str = draft.old in
        let s : Str = more.now in
        let p : Str = texts.now in
        let res : Rec = rec (sum_stream b s p) (sum_pool b s p) (scalars_of rows.now) in
        edited_as result draft.new ≡ settled changed b (schema_of copy) res (reading Current res) }
{
    let mut out = [0u8; 32768];
    let mut words = [0u8; 16384];
    add_lent(
        rows, changed, draft, more, texts, &mut out, &mut words, past, old,
    )
}
