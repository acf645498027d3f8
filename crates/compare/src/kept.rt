// Released fields that stand as they were, passed over: where the fields of two types are alike one after the other, a current one is the first of
// its name unless one before it has that name's number, so that hardly any has to be looked up.
ghost use Rattle.std.specs.Prelude.{◌≤◌, ◌≡◌, true, false, length, get_or};
ghost use Rattle.record.specs.Reading.{Rec};
ghost use Rattle.layout.specs.Spots.{OthersPassed};
ghost use Rattle.compare.specs.Catalog.{read};
ghost use Rattle.compare.specs.Sides.{now_of, then_of};
ghost use Rattle.compare.specs.Near.{key_of};
ghost use Rattle.compare.specs.Alike.{body_at};
ghost use Rattle.compare.specs.Kept.{KeptPassed, Noted, Noting, KeptFrom};

use crate::alike::{Both, bodies_at, next_alike};
use crate::near::key_of;
use crate::sides::{Measured, Sides};
use layout::names::name_at;
use layout::spots::{Ahead, SpotCursor, pass_others};
use record::sizes::sum;

// Notes the number of a name; answers whether it was noted before.
fn note(seen: &mut [u8], name: &[u8]) -> bool
    requires { 1024 ≤ length seen.old }
    ensures { Noting seen.old name.now seen.new
        × (result ≡ false → get_or seen.old (key_of name.now) 0 ≡ 0) }
{
    let key = key_of(name);
    if seen[key] != 0 {
        return true;
    }
    seen[key] = 1;
    false
}

// Whether no field before a place has this name, by a look from the front.
fn leads(current: &Measured, front: SpotCursor, name: &[u8], at: usize, offset: u64) -> bool
    ensures { let cur : Rec = read current.now.record in
        (result ≡ true
        → OthersPassed cur.stream cur.pool current.now.sizes.now name.now front (body_at at offset)) }
{
    let record = current.record;
    let c = pass_others(record.stream, record.pool, current.sizes, front, name);
    let Ahead::Body(k) = c.ahead else {
        return false;
    };
    if k.at != at {
        return false;
    }
    c.offset == offset
}

// Whether no field before a place has this name, by the numbers noted so far first; notes the name's number.
fn is_first(
    current: &Measured,
    front: SpotCursor,
    seen: &mut [u8],
    name: &[u8],
    at: usize,
    offset: u64,
) -> bool
    requires { let cur : Rec = read current.now.record in
        Noted cur.stream cur.pool current.now.sizes.now front seen.old at offset × (1024 ≤ length seen.old) }
    ensures { let cur : Rec = read current.now.record in
        Noting seen.old name.now seen.new
        × (result ≡ true
        → OthersPassed cur.stream cur.pool current.now.sizes.now name.now front (body_at at offset)) }
{
    if note(seen, name) {
        return leads(current, front, name, at, offset);
    }
    true
}

// Where two types are compared: the front of the current one, the places of the next fields of both and their offset.
#[derive(Clone, Copy)]
pub struct Walk {
    pub front: SpotCursor,
    pub at: usize,
    pub to: usize,
    pub offset: u64,
}

// The next fields of two types at one offset, where they are alike and the current one is the first of its name.
fn next_kept(sides: &Sides, seen: &mut [u8], walk: Walk) -> Option<(usize, usize, usize, u64)>
    requires { let cur : Rec = now_of sides.now in
        Noted cur.stream cur.pool sides.now.current.sizes.now walk.front seen.old walk.at walk.offset × (1024 ≤ length seen.old) }
    ensures { let cur : Rec = now_of sides.now in
        let rel : Rec = then_of sides.now in
        KeptFrom cur.stream cur.pool sides.now.current.sizes.now walk.front seen.new walk.at
        rel.stream rel.pool sides.now.released.sizes.now walk.to walk.offset result }
{
    let step = next_alike(sides, walk.at, walk.to);
    let Some((place, after, next, size)) = step else {
        return None;
    };
    let current = sides.current;
    let name = name_at(current.record.stream, current.record.pool, place);
    if is_first(&current, walk.front, seen, name, walk.at, walk.offset) {
        return Some((place, after, next, size));
    }
    None
}

// What is ahead of two types without the fields at their fronts that are alike and kept, from two places on; seen has room for the numbers of names.
fn pass_kept_fields(sides: &Sides, seen: &mut [u8], from: Walk) -> Both
    requires { let cur : Rec = now_of sides.now in
        Noted cur.stream cur.pool sides.now.current.sizes.now from.front seen.old from.at from.offset × (1024 ≤ length seen.old) }
    ensures { let cur : Rec = now_of sides.now in
        let rel : Rec = then_of sides.now in
        KeptPassed cur.stream cur.pool sides.now.current.sizes.now rel.stream rel.pool sides.now.released.sizes.now
        from.front (body_at from.at from.offset) (body_at from.to from.offset) result }
{
    let mut at = from.at;
    let mut to = from.to;
    let mut offset = from.offset;
    while let Some((_, after, next, size)) = next_kept(
        sides,
        seen,
        Walk {
            front: from.front,
            at,
            to,
            offset,
        },
    ) {
        offset = sum(offset, size);
        at = after;
        to = next;
    }
    bodies_at(at, to, offset)
}

// What is ahead of two types without those fields, from two cursors on; before the front of a family none is passed over.
pub(crate) fn pass_kept(sides: &Sides, is: SpotCursor, was: SpotCursor) -> Both
    ensures { let cur : Rec = now_of sides.now in
        let rel : Rec = then_of sides.now in
        KeptPassed cur.stream cur.pool sides.now.current.sizes.now rel.stream rel.pool sides.now.released.sizes.now is is was result }
{
    let Ahead::Body(k) = is.ahead else {
        return Both { is, was };
    };
    let Ahead::Body(l) = was.ahead else {
        return Both { is, was };
    };
    if is.offset != was.offset {
        return Both { is, was };
    }
    let mut seen = [0u8; 1024];
    let walk = Walk {
        front: is,
        at: k.at,
        to: l.at,
        offset: is.offset,
    };
    pass_kept_fields(sides, &mut seen, walk)
}
