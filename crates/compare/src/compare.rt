// The comparison: the passes in their order, of which the first violation is the verdict. A pass has the number that it has in
// all_passes of definition: 0 is on the unreleased copy, 1 the release order, 2 to 6 are over what a record declares outside its types,
// 7 to 9 over its types.
ghost use Rattle.std.specs.Prelude.{◌≡◌, ◌≤◌, ◌<◌, ◌+◌, ◌/◌, length, take};
ghost use Rattle.record.specs.Base.{Str};
ghost use Rattle.record.specs.Scalars.{scalars_of};
ghost use Rattle.record.specs.Reading.{Rec, rec, schema_of};
ghost use Rattle.record.specs.Index.{IndexRoom};
ghost use Rattle.layout.specs.Room.{Room, SizesRoom};
ghost use Rattle.layout.specs.Tables.{Tables};
ghost use Rattle.definition.specs.Compare.{compare, passes};
ghost use Rattle.compare.specs.Pair.{pair_now, pair_then};
ghost use Rattle.compare.specs.Ready.{ready_now, ready_then, IsReady};
ghost use Rattle.verdicts.specs.Meaning.{meaning};
ghost use Rattle.compare.specs.Passes.{Legible, Prepared, TypesLaid, LaidOut, TableRooms};

use crate::bitfield_releases::check_bitfield_releases;
use crate::bitfields::check_bitfields;
use crate::catalog::{Catalog, Record};
use crate::constants::check_constants;
use crate::enums::check_enums;
use crate::fields::check_fields;
use crate::first_releases::check_first_releases;
use crate::generations::check_generations;
use crate::heads::{head_release, head_unreleased};
use crate::pair::Pair;
use crate::release_order::check_release_order;
use crate::required::required_text;
use crate::shipped::Dates;
use crate::sides::{Laid, Measured, Sides};
use crate::standalone::check_standalone;
use crate::unreleased::check_nothing_released;
use layout::tables::fill_tables;
use record::cut::upto;
use record::ends::{Ends, index_with_ends};
use verdicts::verdict::Verdict;

// What the passes ask of both records beside their bytes: the release about to ship, the one the copy gives, and where the lists of
// each stream end.
#[derive(Clone, Copy)]
pub struct Facts {
    pub dates: Dates,
    pub is: Ends,
    pub was: Ends,
}

// Both records once they are indexed.
#[derive(Clone, Copy)]
pub struct Ready<'a> {
    pub rows: &'a [u8],
    pub current: Catalog<'a>,
    pub released: Catalog<'a>,
    pub facts: Facts,
}

// How many types each record has.
#[derive(Clone, Copy)]
pub struct Counts {
    pub types: usize,
    pub shipped: usize,
}

// Fills the index of each record, and finds where the lists of each end.
fn prepare(pair: &Pair, index: &mut [u16], old_index: &mut [u16]) -> Facts
    requires { IndexRoom pair.now.current.stream.now index.old × IndexRoom pair.now.released.stream.now old_index.old }
    ensures { Prepared (pair_now pair.now) (pair_then pair.now) index.new old_index.new result }
{
    let now = pair.current;
    let then = pair.released;
    let is = index_with_ends(now.stream, now.pool, index);
    let was = index_with_ends(then.stream, then.pool, old_index);
    Facts {
        dates: pair.dates,
        is,
        was,
    }
}

// Fills the tables of one record; answers how many types it has.
fn lay_one(
    rows: &[u8],
    catalog: &Catalog,
    types: &mut [u32],
    scratch: &mut [u32],
    sizes: &mut [u64],
) -> usize
    requires { let s : Str = catalog.now.record.stream.now in
        Legible (rec s catalog.now.record.pool.now (scalars_of rows.now)) × Room s types.old × Room s scratch.old × SizesRoom s sizes.old }
    ensures { let cur : Rec = rec catalog.now.record.stream.now catalog.now.record.pool.now (scalars_of rows.now) in
        Tables cur (take result types.new) sizes.new × (result ≤ length types.new) }
{
    let Record { stream, pool } = catalog.record;
    fill_tables(rows, stream, pool, catalog.index, types, scratch, sizes)
}

// Fills the tables of both records.
fn lay(
    ready: &Ready,
    types: &mut [u32],
    sizes: &mut [u64],
    old_types: &mut [u32],
    old_sizes: &mut [u64],
    scratch: &mut [u32],
) -> Counts
    requires room { let s : Str = ready.now.current.record.stream.now in
        let b : Str = ready.now.released.record.stream.now in
        Room s types.old × Room s scratch.old × SizesRoom s sizes.old × Room b old_types.old × Room b scratch.old × SizesRoom b old_sizes.old }
    requires fact { IsReady ready.now }
    ensures { LaidOut (ready_now ready.now) (ready_then ready.now) types.new sizes.new old_types.new old_sizes.new scratch.new result }
{
    let n = lay_one(ready.rows, &ready.current, types, scratch, sizes);
    let m = lay_one(ready.rows, &ready.released, old_types, scratch, old_sizes);
    Counts {
        types: n,
        shipped: m,
    }
}

// Runs the passes over what is declared outside types, in their order; a stream is passed only as far as a pass needs it.
fn check_declared(ready: &Ready, table: &mut [u32], scratch: &mut [u32]) -> Result<(), Verdict>
    requires old_stream_len_bound { let b : Str = ready.now.released.record.stream.now in
        Room b table.old × Room b scratch.old }
    requires fact { IsReady ready.now }
    ensures { let cur : Rec = ready_now ready.now in
        let rel : Rec = ready_then ready.now in
        meaning cur.pool rel.pool result ≡ passes 2 7 (schema_of cur) (schema_of rel) }
{
    let Facts { dates, is, was } = ready.facts;
    let now = ready.current;
    let then = ready.released;
    let Record { stream, pool } = now.record;
    let old = then.record;
    check_first_releases(&now.record, is, &then, dates)?;
    let constants = Record {
        stream: upto(old.stream, was.constants),
        pool: old.pool,
    };
    check_constants(&now, &constants, table, scratch)?;
    let enums = Record {
        stream: upto(old.stream, was.enums),
        pool: old.pool,
    };
    check_enums(&now, &enums)?;
    let now_bits = Record {
        stream: upto(stream, is.bitfields),
        pool,
    };
    let old_bits = Record {
        stream: upto(old.stream, was.bitfields),
        pool: old.pool,
    };
    check_bitfields(&now_bits, &old_bits)?;
    check_bitfield_releases(&now_bits, &old_bits, dates.current)
}

// Runs the passes over the types, in their order; that over the generations asks which types changed, which that over the fields notes.
fn check_laid<'a>(
    ready: &Ready,
    types: &'a [u32],
    sizes: &'a [u64],
    old_types: &'a [u32],
    old_sizes: &'a [u64],
    marks: &mut [u8],
    cover: &mut [u32],
) -> Result<(), Verdict>
    requires stream_in_bounds { (length ready.now.current.record.stream.now ≤ length marks.old) × (length types.now ≤ length cover.old) }
    requires fact { IsReady ready.now × TypesLaid (ready_now ready.now) (ready_then ready.now) types.now sizes.now old_types.now old_sizes.now }
    ensures { let cur : Rec = ready_now ready.now in
        let rel : Rec = ready_then ready.now in
        meaning cur.pool rel.pool result ≡ passes 7 10 (schema_of cur) (schema_of rel) }
{
    let now = ready.current.record;
    let then = ready.released.record;
    let sides = Sides {
        rows: ready.rows,
        current: Measured { record: now, sizes },
        released: Measured {
            record: then,
            sizes: old_sizes,
        },
    };
    let laid = Laid {
        sides,
        types,
        old_types,
    };
    check_fields(&laid, cover)?;
    check_standalone(&laid)?;
    let dates = ready.facts.dates;
    check_generations(&ready.current, types, &ready.released, marks, cover, dates)
}

// Fills the tables of types, then runs the passes over the types.
fn check_types(
    ready: &Ready,
    types: &mut [u32],
    sizes: &mut [u64],
    old_types: &mut [u32],
    old_sizes: &mut [u64],
    marks: &mut [u8],
    scratch: &mut [u32],
) -> Result<(), Verdict>
    requires table_rooms { let s : Str = ready.now.current.record.stream.now in
        let b : Str = ready.now.released.record.stream.now in
        TableRooms s b types.old old_types.old sizes.old old_sizes.old marks.old scratch.old }
    requires fact { IsReady ready.now }
    ensures { let cur : Rec = ready_now ready.now in
        let rel : Rec = ready_then ready.now in
        meaning cur.pool rel.pool result ≡ passes 7 10 (schema_of cur) (schema_of rel) }
{
    let counts = lay(ready, types, sizes, old_types, old_sizes, scratch);
    let n = counts.types;
    let m = counts.shipped;
    check_laid(
        ready,
        &types[..n],
        sizes,
        &old_types[..m],
        old_sizes,
        marks,
        scratch,
    )
}

// Runs the passes from the first releases on over indexed records. The table of types holds the released constants first; the tables
// of types are filled only for a record whose declarations pass.
fn check_prepared(
    ready: &Ready,
    types: &mut [u32],
    sizes: &mut [u64],
    old_types: &mut [u32],
    old_sizes: &mut [u64],
    marks: &mut [u8],
    scratch: &mut [u32],
) -> Result<(), Verdict>
    requires table_rooms { let s : Str = ready.now.current.record.stream.now in
        let b : Str = ready.now.released.record.stream.now in
        TableRooms s b types.old old_types.old sizes.old old_sizes.old marks.old scratch.old }
    requires fact { IsReady ready.now }
    ensures { let cur : Rec = ready_now ready.now in
        let rel : Rec = ready_then ready.now in
        meaning cur.pool rel.pool result ≡ passes 2 10 (schema_of cur) (schema_of rel) }
{
    check_declared(ready, types, scratch)?;
    check_types(ready, types, sizes, old_types, old_sizes, marks, scratch)
}

// Runs the passes from the first releases on over lent tables, none of them filled.
fn check_lent(
    pair: &Pair,
    index: &mut [u16],
    types: &mut [u32],
    sizes: &mut [u64],
    old_index: &mut [u16],
    old_types: &mut [u32],
    old_sizes: &mut [u64],
    marks: &mut [u8],
    scratch: &mut [u32],
) -> Result<(), Verdict>
    requires { let s : Str = pair.now.current.stream.now in
        let b : Str = pair.now.released.stream.now in
        IndexRoom s index.old × IndexRoom b old_index.old × TableRooms s b types.old old_types.old sizes.old old_sizes.old marks.old scratch.old }
    ensures { let cur : Rec = pair_now pair.now in
        let rel : Rec = pair_then pair.now in
        meaning cur.pool rel.pool result ≡ passes 2 10 (schema_of cur) (schema_of rel) }
{
    let facts = prepare(pair, index, old_index);
    let ready = Ready {
        rows: pair.rows,
        current: Catalog {
            record: pair.current,
            index,
        },
        released: Catalog {
            record: pair.released,
            index: old_index,
        },
        facts,
    };
    check_prepared(&ready, types, sizes, old_types, old_sizes, marks, scratch)
}

// Lends tables for streams of their length, since clearing those for the longest takes longer than the check of short ones.
fn check_sized<const INDEX: usize, const TYPES: usize, const SIZES: usize, const MARKS: usize>(
    pair: &Pair,
) -> Result<(), Verdict>
    requires current_room { let s : Str = pair.now.current.stream.now in
        (256 + length s / 7 < INDEX) × (length s / 4 ≤ TYPES) × (length s / 33 < SIZES) × (length s ≤ MARKS) }
    requires released_room { let b : Str = pair.now.released.stream.now in
        (256 + length b / 7 < INDEX) × (length b / 4 ≤ TYPES) × (length b / 33 < SIZES) }
    requires most { (INDEX ≤ 4938) × (TYPES ≤ 8192) × (SIZES ≤ 993) × (MARKS ≤ 32768) }
    ensures { let cur : Rec = pair_now pair.now in
        let rel : Rec = pair_then pair.now in
        meaning cur.pool rel.pool result ≡ passes 2 10 (schema_of cur) (schema_of rel) }
{
    let mut index = [0u16; INDEX];
    let mut old_index = [0u16; INDEX];
    let mut types = [0u32; TYPES];
    let mut sizes = [0u64; SIZES];
    let mut old_types = [0u32; TYPES];
    let mut old_sizes = [0u64; SIZES];
    let mut marks = [0u8; MARKS];
    let mut scratch = [0u32; TYPES];
    check_lent(
        pair,
        &mut index,
        &mut types,
        &mut sizes,
        &mut old_index,
        &mut old_types,
        &mut old_sizes,
        &mut marks,
        &mut scratch,
    )
}

// Runs all passes after that on the unreleased copy; the release order needs no table.
fn check_passes(pair: &Pair) -> Result<(), Verdict>
    ensures { let cur : Rec = pair_now pair.now in
        let rel : Rec = pair_then pair.now in
        meaning cur.pool rel.pool result ≡ passes 1 10 (schema_of cur) (schema_of rel) }
{
    let Pair {
        current,
        released,
        dates,
        ..
    } = *pair;
    check_release_order(current.pool, released.pool, dates.current, dates.copy)?;
    if current.stream.len() <= 2048 && released.stream.len() <= 2048 {
        return check_sized::<549, 512, 63, 2048>(pair);
    }
    check_sized::<4938, 8192, 993, 32768>(pair)
}

// The whole comparison of two records that can be read.
pub(crate) fn compare(rows: &[u8], current: &Record, released: &Record) -> Result<(), Verdict>
    requires { Legible (rec current.now.stream.now current.now.pool.now (scalars_of rows.now))
        × Legible (rec released.now.stream.now released.now.pool.now (scalars_of rows.now)) }
    ensures { let cur : Rec = rec current.now.stream.now current.now.pool.now (scalars_of rows.now) in
        let rel : Rec = rec released.now.stream.now released.now.pool.now (scalars_of rows.now) in
        meaning cur.pool rel.pool result ≡ compare (schema_of cur) (schema_of rel) }
{
    if head_unreleased(released.stream) {
        return check_nothing_released(released.stream);
    }
    let dates = Dates {
        current: required_text(head_release(current.stream)),
        copy: head_release(released.stream),
    };
    check_passes(&Pair {
        rows,
        current: *current,
        released: *released,
        dates,
    })
}
