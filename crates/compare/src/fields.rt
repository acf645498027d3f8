// The pass over the fields: a released field keeps its place, its size and how it reads. It also notes which current types are
// as they were.
ghost use Rattle.std.specs.Prelude.{◌≤◌, ◌<◌, ◌≡◌, Ok, length, set};
ghost use Rattle.record.specs.Marks.{Clear};
ghost use Rattle.record.specs.Reading.{Rec};
ghost use Rattle.record.specs.Base.{Str};
ghost use Rattle.layout.specs.Handles.{type_name, layout_of};
ghost use Rattle.layout.specs.Names.{name_of};
ghost use Rattle.layout.specs.Table.{Typed};
ghost use Rattle.layout.specs.Spots.{spot_of, places_from, SoundCursor};
ghost use Rattle.definition.specs.Fields.{place_in, check_kept, check_place, check_places, check_type, check_fields, eq_places};
ghost use Rattle.compare.specs.Layouts.{types_of, spot_found};
ghost use Rattle.compare.specs.Sides.{whole, now_of, then_of, SoundNow, SoundThen, AreLaid};
ghost use Rattle.compare.specs.Near.{Near};
ghost use Rattle.compare.specs.Fields.{entry_of, Ones, FieldsHeld, TypeNoted};
ghost use Rattle.compare.specs.CoverTable.{Changes};
ghost use Rattle.verdicts.specs.Meaning.{meaning};

use crate::alike::Both;
use crate::catalog::Record;
use crate::kept::pass_kept;
use crate::layouts::{both_bare, find_spot, is_bare, same_description, same_rest};
use crate::near::{are_many, fill_near, near_spot};
use crate::sides::{Laid, Measured, Sides};
use layout::names::{TypeName, type_name};
use layout::spots::{Spot, SpotCursor, first_spot};
use layout::table::find_same;
use record::text::bytes_of;
use verdicts::verdict::Verdict;

// A released field against the one of its name.
fn check_kept(
    pool: &[u8],
    old_pool: &[u8],
    owner: TypeName,
    was: Spot,
    is: Spot,
) -> Result<(), Verdict>
    ensures { let p : Str = pool.now in
        let q : Str = old_pool.now in
        meaning p q result ≡ check_kept (name_of q owner) (spot_of q was) (spot_of p is) }
{
    let name = was.name;
    if is.offset != was.offset {
        return Err(Verdict::Moved {
            owner,
            name,
            was: was.offset,
            is: is.offset,
        });
    }
    if is.size != was.size {
        return Err(Verdict::Resized {
            owner,
            name,
            was: was.size,
            is: is.size,
        });
    }
    let reads = is.described;
    let read = was.described;
    if same_description(pool, reads, old_pool, read) {
        return Ok(());
    }
    Err(Verdict::Redescribed {
        owner,
        name,
        was: read,
        is: reads,
    })
}

// The first field of that name from a cursor on, by the table of where to look.
fn find_near(
    rows: &[u8],
    current: &Measured,
    from: SpotCursor,
    table: &[u64],
    name: &[u8],
) -> Option<(Spot, SpotCursor)>
    requires { let cur : Rec = whole rows.now current.now in
        SoundCursor cur current.now.sizes.now from × Near cur.stream cur.pool current.now.sizes.now from table.now }
    ensures { let cur : Rec = whole rows.now current.now in
        place_in name.now (places_from cur from) ≡ spot_found cur.pool result }
{
    let near = near_spot(table, from, name);
    find_spot(rows, current, near, name)
}

// One released field against those that are now, from a cursor on; padding is held to nothing.
fn check_place(
    rows: &[u8],
    current: &Measured,
    is: SpotCursor,
    table: &[u64],
    old_pool: &[u8],
    owner: TypeName,
    was: Spot,
) -> Result<(), Verdict>
    requires { let cur : Rec = whole rows.now current.now in
        SoundCursor cur current.now.sizes.now is × Near cur.stream cur.pool current.now.sizes.now is table.now }
    ensures { let cur : Rec = whole rows.now current.now in
        let q : Str = old_pool.now in
        meaning cur.pool q result ≡ check_place (name_of q owner) (places_from cur is) (spot_of q was) }
{
    if was.padding {
        return Ok(());
    }
    let name = was.name;
    let found = find_near(rows, current, is, table, bytes_of(old_pool, name));
    let Some((x, _)) = found else {
        return Err(Verdict::FieldGone { owner, name });
    };
    check_kept(current.record.pool, old_pool, owner, was, x)
}

// A released type against the current one of its name: what it is called, what is ahead of each, and the index of its entry.
#[derive(Clone, Copy)]
pub struct Pairing {
    pub owner: TypeName,
    pub is: SpotCursor,
    pub was: SpotCursor,
    pub index: usize,
}

// The released fields of a type from a cursor on against those that are now, from another on.
fn check_places(sides: &Sides, table: &[u64], pair: Pairing) -> Result<(), Verdict>
    requires { let cur : Rec = now_of sides.now in
        SoundNow sides.now pair.is
        × Near cur.stream cur.pool sides.now.current.sizes.now pair.is table.now
        × SoundThen sides.now pair.was }
    ensures { let cur : Rec = now_of sides.now in
        let rel : Rec = then_of sides.now in
        meaning cur.pool rel.pool result
        ≡ check_places (name_of rel.pool pair.owner) (places_from cur pair.is) (places_from rel pair.was) }
{
    let mut cursor = pair.was;
    let released = sides.released;
    while let Some((was, after)) = released.next_spot(sides.rows, cursor) {
        check_place(
            sides.rows,
            &sides.current,
            pair.is,
            table,
            released.record.pool,
            pair.owner,
            was,
        )?;
        cursor = after;
    }
    Ok(())
}

// Fills an empty table that is lent, and holds the released fields to it.
fn check_near(sides: &Sides, table: &mut [u64], pair: Pairing) -> Result<(), Verdict>
    requires { SoundNow sides.now pair.is × SoundThen sides.now pair.was × Clear table.old × (1024 ≤ length table.old) }
    ensures { let cur : Rec = now_of sides.now in
        let rel : Rec = then_of sides.now in
        meaning cur.pool rel.pool result
        ≡ check_places (name_of rel.pool pair.owner) (places_from cur pair.is) (places_from rel pair.was) }
{
    fill_near(&sides.current, pair.is, table);
    check_places(sides, table, pair)
}

// The released fields of a type of many, by a table of its own.
fn check_many(sides: &Sides, pair: Pairing) -> Result<(), Verdict>
    requires { SoundNow sides.now pair.is × SoundThen sides.now pair.was }
    ensures { let cur : Rec = now_of sides.now in
        let rel : Rec = then_of sides.now in
        meaning cur.pool rel.pool result
        ≡ check_places (name_of rel.pool pair.owner) (places_from cur pair.is) (places_from rel pair.was) }
{
    let mut table = [0u64; 1024];
    check_near(sides, &mut table, pair)
}

// The released fields of any type: a table costs more than it saves where they are few.
fn check_any(sides: &Sides, pair: Pairing) -> Result<(), Verdict>
    requires { SoundNow sides.now pair.is × SoundThen sides.now pair.was }
    ensures { let cur : Rec = now_of sides.now in
        let rel : Rec = then_of sides.now in
        meaning cur.pool rel.pool result
        ≡ check_places (name_of rel.pool pair.owner) (places_from cur pair.is) (places_from rel pair.was) }
{
    if are_many(sides.released.record.stream, pair.was) {
        return check_many(sides, pair);
    }
    check_places(sides, &sides.current.sizes[..0], pair)
}

// Puts the entry of a type: 0 where the fields from two cursors on are the same, else 1.
pub(crate) fn note_rest(sides: &Sides, both: Both, cover: &mut [u32], i: usize)
    requires { SoundNow sides.now both.is × SoundThen sides.now both.was × (i < length cover.old) }
    ensures { let cur : Rec = now_of sides.now in
        let rel : Rec = then_of sides.now in
        cover.new ≡ set cover.old i (entry_of (eq_places (places_from cur both.is) (places_from rel both.was))) }
{
    let is = both.is;
    let was = both.was;
    if both_bare(
        sides.current.record.stream,
        is,
        sides.released.record.stream,
        was,
    ) {
        cover[i] = 0;
        return;
    }
    if same_rest(sides, is, was) {
        cover[i] = 0;
    } else {
        cover[i] = 1;
    }
}

// The released fields of a type but those at its front that are seen to be kept; puts the entry that says whether all fields are as they were.
fn check_changed(sides: &Sides, pair: Pairing, cover: &mut [u32]) -> Result<(), Verdict>
    requires { SoundNow sides.now pair.is × SoundThen sides.now pair.was × (pair.index < length cover.old) }
    ensures { let cur : Rec = now_of sides.now in
        let rel : Rec = then_of sides.now in
        FieldsHeld cur rel (name_of rel.pool pair.owner) (places_from cur pair.is) (places_from rel pair.was) pair.index
        cover.old cover.new result }
{
    let is = pair.is;
    let both = pass_kept(sides, is, pair.was);
    note_rest(sides, both, cover, pair.index);
    let rest = both.was;
    if is_bare(sides.released.record.stream, rest) {
        return Ok(());
    }
    let left = Pairing {
        owner: pair.owner,
        is,
        was: rest,
        index: pair.index,
    };
    check_any(sides, left)
}

// A released type and the current one of its name, by their handles, and the index of the current one.
#[derive(Clone, Copy)]
pub struct Handles {
    pub is: u32,
    pub was: u32,
    pub index: usize,
}

// The fields of a released type against those of a current one, by the handles of the types.
fn check_layout(sides: &Sides, types: Handles, cover: &mut [u32]) -> Result<(), Verdict>
    requires { let cur : Rec = now_of sides.now in
        let rel : Rec = then_of sides.now in
        Typed cur.stream types.is × Typed rel.stream types.was × (types.index < length cover.old) }
    ensures { let cur : Rec = now_of sides.now in
        let rel : Rec = then_of sides.now in
        FieldsHeld cur rel (type_name rel.stream rel.pool types.was) (layout_of cur types.is).fields
        (layout_of rel types.was).fields types.index cover.old cover.new result }
{
    let old_stream = sides.released.record.stream;
    let was = first_spot(old_stream, types.was);
    let is = first_spot(sides.current.record.stream, types.is);
    if is_bare(old_stream, was) {
        let both = Both { is, was };
        note_rest(sides, both, cover, types.index);
        return Ok(());
    }
    let owner = type_name(old_stream, types.was);
    let pair = Pairing {
        owner,
        is,
        was,
        index: types.index,
    };
    check_changed(sides, pair, cover)
}

// One released type, by its handle; its name is thought to stand near an index of the current types.
fn check_type(laid: &Laid, other: u32, near: usize, cover: &mut [u32]) -> Result<(), Verdict>
    requires { let rel : Rec = then_of laid.now.sides in
        AreLaid laid.now × Typed rel.stream other × (length laid.now.types.now ≤ length cover.old) }
    ensures { let cur : Rec = now_of laid.now.sides in
        let rel : Rec = then_of laid.now.sides in
        (meaning cur.pool rel.pool result ≡ check_type (types_of cur) (layout_of rel other))
        × (result ≡ Ok tt → TypeNoted cur rel laid.now.types.now other cover.old cover.new) }
{
    let Record { stream, pool } = laid.sides.current.record;
    let then = laid.sides.released.record;
    let types = laid.types;
    let found = find_same(stream, pool, types, then.stream, then.pool, other, near);
    let Some(i) = found else {
        return Err(Verdict::TypeGone {
            name: type_name(then.stream, other),
        });
    };
    let handle = types[i];
    let both = Handles {
        is: handle,
        was: other,
        index: i,
    };
    check_layout(&laid.sides, both, cover)
}

// Puts 1 for the first entries of a table, as many as n.
fn fill_ones(table: &mut [u32], n: usize)
    requires { n ≤ length table.old }
    ensures { Ones n table.new }
{
    table[..n].fill(1);
}

// The first type or field of the release that does not stand as it was, types in byte order of their names. Where there is none, each current type
// has its entry: 0 where it is as it was, else 1, as a type has that was not released.
pub(crate) fn check_fields(laid: &Laid, cover: &mut [u32]) -> Result<(), Verdict>
    requires { AreLaid laid.now × (length laid.now.types.now ≤ length cover.old) }
    ensures { let cur : Rec = now_of laid.now.sides in
        let rel : Rec = then_of laid.now.sides in
        (meaning cur.pool rel.pool result ≡ check_fields (types_of cur) (types_of rel))
        × (result ≡ Ok tt → Changes cur rel laid.now.types.now cover.new) }
{
    fill_ones(cover, laid.types.len());
    for (i, other) in laid.old_types.iter().enumerate() {
        check_type(laid, *other, i, cover)?;
    }
    Ok(())
}
