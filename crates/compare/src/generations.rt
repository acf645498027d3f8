// The pass over the generations: a root's number stays where nothing under it changed, or rises by one.
ghost use Rattle.std.specs.Prelude.{◌≤◌, ◌≡◌, ℕ, List, [], ◌&&◌, eqb, length, Option};
ghost use Rattle.record.specs.Base.{Str, eqs};
ghost use Rattle.record.specs.Stretch.{text_of};
ghost use Rattle.record.specs.Scalars.{Scalar};
ghost use Rattle.record.specs.Lists.{opt_of, constant_of};
ghost use Rattle.record.specs.Steps.{constant_in, struct_found};
ghost use Rattle.record.specs.Owner.{with_name};
ghost use Rattle.record.specs.Reading.{Rec, rec};
ghost use Rattle.record.specs.Versioned.{versioned, InSlots};
ghost use Rattle.layout.specs.Table.{TypesTable};
ghost use Rattle.definition.specs.Pass.{◌then◌};
ghost use Rattle.definition.specs.Generations.{is_listed, check_still, check_rise, check_from, check_against, check_generations};
ghost use Rattle.compare.specs.Generations.{roots_checked};
ghost use Rattle.compare.specs.CoverTable.{changed_types, Changes, first_uncovered, touched_by};
ghost use Rattle.compare.specs.Catalog.{read};
ghost use Rattle.compare.specs.Records.{constant_list, struct_list, version_list, type_lists};
ghost use Rattle.verdicts.specs.Meaning.{meaning};

use crate::catalog::{Catalog, Record};
use crate::cover_table::{check_covered, fill_cover, first_touched};
use crate::coverage::Marked;
use crate::shipped::Dates;
use layout::names::type_name;
use record::command::{Constant, Cursor, Step, Struct, Version};
use record::lists::next;
use record::marks::mark_owners;
use record::sizes::wide;
use record::text::{Text, bytes_of, same};
use record::versioned::{Versioned, versioned_structs};
use verdicts::verdict::Verdict;

// Whether a version entry is of this structure and number.
fn is_entry(pool: &[u8], v: Version, root: &[u8], number: u32) -> bool
    ensures { result ≡ (eqs (text_of pool.now v.struct_name) root.now && eqb v.version number) }
{
    v.version == number && same(bytes_of(pool, v.struct_name), root)
}

// Whether there is such an entry.
fn is_listed(current: &Record, root: &[u8], number: u32) -> bool
    ensures { let cur : Rec = read current.now in
        result ≡ is_listed root.now number (version_list cur) }
{
    let mut cursor = Cursor::new();
    while let Some((v, after)) = next::<Version>(current.stream, cursor) {
        if is_entry(current.pool, v, root, number) {
            return true;
        }
        cursor = after;
    }
    false
}

// A record with its types, and what covers each of them that changed.
#[derive(Clone, Copy)]
pub struct Covered<'a> {
    pub catalog: Catalog<'a>,
    pub types: &'a [u32],
    pub cover: &'a [u32],
}

// A number that stays.
fn check_still(current: &Covered, root: Text, constant: Text, was: u32) -> Result<(), Verdict>
    ensures { let cur : Rec = read current.now.catalog.record in
        let touched : Str → Option Str = touched_by cur.stream cur.pool current.now.types.now current.now.cover.now in
        ((q : Str) → meaning cur.pool q result
        ≡ check_still (touched (text_of cur.pool root)) (text_of cur.pool root) (text_of cur.pool constant) was) }
{
    let record = current.catalog.record;
    let name = bytes_of(record.pool, root);
    let touched = first_touched(record.pool, current.types, current.cover, name);
    let Some(handle) = touched else {
        return Ok(());
    };
    let what = type_name(record.stream, handle);
    Err(Verdict::Unraised {
        name: root,
        was,
        what,
        constant,
        next: wide(was) + 1,
    })
}

// A root with its number now, and the releases that a verdict on it names.
#[derive(Clone, Copy)]
pub struct Numbered {
    pub root: Text,
    pub constant: Text,
    pub is: u32,
    pub dates: Dates,
}

// The number of a root before and now.
fn check_rise(current: &Covered, n: Numbered, was: u32) -> Result<(), Verdict>
    ensures { let cur : Rec = read current.now.catalog.record in
        let name : Str = text_of cur.pool n.root in
        let touched : Option Str = touched_by cur.stream cur.pool current.now.types.now current.now.cover.now name in
        ((q : Str) → meaning cur.pool q result
        ≡ check_rise (text_of cur.pool n.dates.current) (opt_of q n.dates.copy) (version_list cur) touched name
        (text_of cur.pool n.constant) was n.is) }
{
    let constant = n.constant;
    let root = n.root;
    let is = n.is;
    if is < was {
        return Err(Verdict::Fell { constant, was, is });
    }
    if is == was {
        return check_still(current, root, constant, was);
    }
    if is - was != 1 {
        return Err(Verdict::Leapt {
            constant,
            was,
            is,
            copy: n.dates.copy,
            current: n.dates.current,
        });
    }
    let record = current.catalog.record;
    if is_listed(&record, bytes_of(record.pool, root), is) {
        return Ok(());
    }
    Err(Verdict::Unlisted {
        constant,
        is,
        name: root,
    })
}

// The number of a root against the released constant: a text is skipped, and 2 ^ 32 or more is no number of a generation.
fn check_from(current: &Covered, n: Numbered, was: Constant) -> Result<(), Verdict>
    ensures { let cur : Rec = read current.now.catalog.record in
        let name : Str = text_of cur.pool n.root in
        let touched : Option Str = touched_by cur.stream cur.pool current.now.types.now current.now.cover.now name in
        ((q : Str) → meaning cur.pool q result
        ≡ check_from (text_of cur.pool n.dates.current) (opt_of q n.dates.copy) (version_list cur) touched name
        (text_of cur.pool n.constant) n.is (constant_of q was).value) }
{
    if was.is_text {
        return Ok(());
    }
    if 4294967296 <= was.integer {
        return Err(Verdict::NoGeneration {
            constant: n.constant,
            was: was.integer,
        });
    }
    check_rise(current, n, was.integer as u32)
}

// The number of a root against the released constant of the same name, if there is one.
fn check_against(current: &Covered, released: &Catalog, n: Numbered) -> Result<(), Verdict>
    ensures { let cur : Rec = read current.now.catalog.record in
        let rel : Rec = read released.now.record in
        let name : Str = text_of cur.pool n.root in
        let constant : Str = text_of cur.pool n.constant in
        meaning cur.pool rel.pool result ≡ check_against (text_of cur.pool n.dates.current) (opt_of rel.pool n.dates.copy) (version_list cur)
        (touched_by cur.stream cur.pool current.now.types.now current.now.cover.now name) name
        constant n.is (constant_in constant (constant_list rel)) }
{
    let pool = current.catalog.record.pool;
    let Some((was, _)) = released.first_constant(bytes_of(pool, n.constant)) else {
        return Ok(());
    };
    check_from(current, n, was)
}

// The root in a slot, if one fills it.
fn check_slot(
    current: &Covered,
    released: &Catalog,
    dates: Dates,
    slot: Step<Struct>,
) -> Result<(), Verdict>
    ensures { let cur : Rec = read current.now.catalog.record in
        let rel : Rec = read released.now.record in
        meaning cur.pool rel.pool result ≡ roots_checked cur rel dates.current dates.copy current.now.types.now current.now.cover.now
        (with_name (struct_found cur.stream cur.pool slot) []) }
{
    let Some((root, _)) = slot else {
        return Ok(());
    };
    let name = root.name;
    let catalog = current.catalog;
    let held = catalog.generation(bytes_of(catalog.record.pool, name));
    let Some((constant, is)) = held else {
        return Err(Verdict::NoConstant { name });
    };
    let n = Numbered {
        root: name,
        constant,
        is,
        dates,
    };
    check_against(current, released, n)
}

// The roots in the order of their slots.
fn check_roots(
    current: &Covered,
    released: &Catalog,
    dates: Dates,
    slots: Versioned,
) -> Result<(), Verdict>
    requires { let cur : Rec = read current.now.catalog.record in
        InSlots cur.stream cur.pool slots }
    ensures { let cur : Rec = read current.now.catalog.record in
        let rel : Rec = read released.now.record in
        meaning cur.pool rel.pool result
        ≡ roots_checked cur rel dates.current dates.copy current.now.types.now current.now.cover.now (versioned (struct_list cur)) }
{
    let first = slots.info;
    let second = slots.metadata;
    let third = slots.runtime;
    check_slot(current, released, dates, first)?;
    check_slot(current, released, dates, second)?;
    check_slot(current, released, dates, third)
}

// The first changed type that no number covers, then the first root whose number is not what it has to be.
fn check_filled(
    current: &Covered,
    released: &Catalog,
    dates: Dates,
    slots: Versioned,
) -> Result<(), Verdict>
    requires { let cur : Rec = read current.now.catalog.record in
        InSlots cur.stream cur.pool slots }
    ensures { let cur : Rec = read current.now.catalog.record in
        let rel : Rec = read released.now.record in
        let types : List ℕ = current.now.types.now in
        let cover : List ℕ = current.now.cover.now in
        meaning cur.pool rel.pool result
        ≡ (meaning cur.pool rel.pool (first_uncovered cur.stream types cover)
        then roots_checked cur rel dates.current dates.copy types cover (versioned (struct_list cur))) }
{
    check_covered(current.catalog.record.stream, current.types, current.cover)?;
    check_roots(current, released, dates, slots)
}

// The pass; the marks of the owners and the table of what covers each type are lent to it, the table as the
// pass over the fields filled it.
pub(crate) fn check_generations(
    current: &Catalog,
    types: &[u32],
    released: &Catalog,
    marks: &mut [u8],
    cover: &mut [u32],
    dates: Dates,
) -> Result<(), Verdict>
    requires { let s : Str = current.now.record.stream.now in
        TypesTable s current.now.record.pool.now types.now × (length s ≤ length marks.old) × (length types.now ≤ length cover.old) }
    ensures { (w : List Scalar)
        → (let cur : Rec = rec current.now.record.stream.now current.now.record.pool.now w in
        let rel : Rec = rec released.now.record.stream.now released.now.record.pool.now w in
        Changes cur rel types.now cover.old
        → meaning cur.pool rel.pool result
        ≡ check_generations (text_of cur.pool dates.current) (opt_of rel.pool dates.copy) (version_list cur) (type_lists cur) (constant_list cur)
        (constant_list rel) (changed_types cur rel)) }
{
    let Record { stream, pool } = current.record;
    let index = current.index;
    let slots = versioned_structs(stream, pool);
    mark_owners(stream, pool, slots, index, marks);
    let marked = Marked {
        catalog: *current,
        roots: slots,
        marks,
    };
    fill_cover(&marked, types, cover);
    let covered = Covered {
        catalog: *current,
        types,
        cover,
    };
    check_filled(&covered, released, dates, slots)
}
