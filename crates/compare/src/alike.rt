// Fields of two types that are alike in all that their commands say: most are, and this is seen without their offsets and descriptions.
ghost use Rattle.std.specs.Prelude.{◌+◌, ◌≤◌, ◌≡◌, true, length, drop, None};
ghost use Rattle.record.specs.Commands.{field_at};
ghost use Rattle.record.specs.Lists.{field_of};
ghost use Rattle.record.specs.Reading.{Rec};
ghost use Rattle.compare.specs.Catalog.{read};
ghost use Rattle.compare.specs.Sides.{now_of, then_of};
ghost use Rattle.compare.specs.Alike.{body_at, SameTexts, SameNumbers, AlikeFrom, AlikePassed};

use crate::catalog::Record;
use crate::layouts::alike_words;
use crate::sides::Sides;
use layout::field_sizes::size_before;
use layout::spots::{Ahead, SpotCursor};
use record::command::Cursor;
use record::cut;
use record::operands::{opt_text_at, text_at};
use record::seek::{Between, seek};
use record::sizes::sum;
use record::text::{bytes_of, same};

// Whether all numbers of two fields are alike, by the bytes of their commands.
fn alike_numbers(s: &[u8], t: &[u8]) -> bool
    ensures { result ≡ true → SameNumbers (field_at s.now) (field_at t.now) }
{
    same(cut::from(s, 13), cut::from(t, 13))
}

// Whether all texts of two fields are alike, each in its pool.
fn alike_texts(pool: &[u8], s: &[u8], old_pool: &[u8], t: &[u8]) -> bool
    ensures { result ≡ true → SameTexts pool.now old_pool.now (field_at s.now) (field_at t.now) }
{
    if same(
        bytes_of(pool, text_at(s, 1)),
        bytes_of(old_pool, text_at(t, 1)),
    ) && same(
        bytes_of(pool, text_at(s, 4)),
        bytes_of(old_pool, text_at(t, 4)),
    ) && alike_words(pool, opt_text_at(s, 7), old_pool, opt_text_at(t, 7))
    {
        return alike_words(pool, opt_text_at(s, 10), old_pool, opt_text_at(t, 10));
    }
    false
}

// Whether the fields whose commands are at two places are alike. A field takes 33 bytes.
fn alike_at(current: &Record, a: usize, released: &Record, b: usize) -> bool
    requires { (a + 33 ≤ length current.now.stream.now) × (b + 33 ≤ length released.now.stream.now) }
    ensures { let cur : Rec = read current.now in
        let rel : Rec = read released.now in
        (result ≡ true → field_of cur.pool (field_at (drop a cur.stream)) None ≡ field_of rel.pool (field_at (drop b rel.stream)) None) }
{
    let end = a + 33;
    let s = &current.stream[a..end];
    let last = b + 33;
    let t = &released.stream[b..last];
    alike_numbers(s, t) && alike_texts(current.pool, s, released.pool, t)
}

// The next fields from two places on, where they are alike and of one size: the place of the first, the places after them and the size.
pub(crate) fn next_alike(sides: &Sides, at: usize, to: usize) -> Option<(usize, usize, usize, u64)>
    ensures { let cur : Rec = now_of sides.now in
        let rel : Rec = then_of sides.now in
        AlikeFrom cur.stream cur.pool sides.now.current.sizes.now at rel.stream rel.pool sides.now.released.sizes.now to result }
{
    let current = sides.current;
    let released = sides.released;
    let Some((a, after)) = seek(current.record.stream, at, 11, Between::Keys) else {
        return None;
    };
    let Some((b, next)) = seek(released.record.stream, to, 11, Between::Keys) else {
        return None;
    };
    let size = size_before(current.sizes, after);
    if size != size_before(released.sizes, next) {
        return None;
    }
    if alike_at(&current.record, a, &released.record, b) {
        return Some((a, after, next, size));
    }
    None
}

// The fields of a record from a place on, at an offset.
pub(crate) fn body_at(at: usize, offset: u64) -> SpotCursor
    ensures { result ≡ body_at at offset }
{
    SpotCursor {
        ahead: Ahead::Body(Cursor::place(at)),
        offset,
    }
}

// What is ahead of two types.
#[derive(Clone, Copy)]
pub struct Both {
    pub is: SpotCursor,
    pub was: SpotCursor,
}

// The fields of two records from two places on, at one offset.
pub(crate) fn bodies_at(at: usize, to: usize, offset: u64) -> Both
    ensures { (result.is ≡ body_at at offset) × (result.was ≡ body_at to offset) }
{
    Both {
        is: body_at(at, offset),
        was: body_at(to, offset),
    }
}

// The fields from two places on without those at their fronts that are alike.
fn pass_places(sides: &Sides, from: usize, other: usize, start: u64) -> Both
    ensures { let cur : Rec = now_of sides.now in
        let rel : Rec = then_of sides.now in
        AlikePassed cur.stream cur.pool sides.now.current.sizes.now rel.stream rel.pool sides.now.released.sizes.now
        (body_at from start) (body_at other start) result.is result.was }
{
    let mut at = from;
    let mut to = other;
    let mut offset = start;
    while let Some((_, after, next, size)) = next_alike(sides, at, to) {
        offset = sum(offset, size);
        at = after;
        to = next;
    }
    bodies_at(at, to, offset)
}

// The fields from two cursors on without those at their fronts that are alike; before the front of a family none is passed over.
pub(crate) fn pass_alike(sides: &Sides, is: SpotCursor, was: SpotCursor) -> Both
    ensures { let cur : Rec = now_of sides.now in
        let rel : Rec = then_of sides.now in
        AlikePassed cur.stream cur.pool sides.now.current.sizes.now rel.stream rel.pool sides.now.released.sizes.now is was result.is result.was }
{
    let Ahead::Body(k) = is.ahead else {
        return Both { is, was };
    };
    let Ahead::Body(l) = was.ahead else {
        return Both { is, was };
    };
    if is.offset != was.offset {
        return Both { is, was };
    }
    pass_places(sides, k.at, l.at, is.offset)
}
