// The fields of types compared with one another, and looked up by name.
ghost use Rattle.std.specs.Prelude.{◌≡◌, List, [], true};
ghost use Rattle.record.specs.Base.{Str, eqs};
ghost use Rattle.record.specs.Scalars.{Scalar, scalars_of};
ghost use Rattle.record.specs.Lists.{opt_of};
ghost use Rattle.record.specs.Describe.{described_as};
ghost use Rattle.record.specs.Reading.{Rec, rec};
ghost use Rattle.record.specs.Read.{Exact};
ghost use Rattle.layout.specs.Handles.{layout_of};
ghost use Rattle.layout.specs.Table.{Typed};
ghost use Rattle.layout.specs.FieldSizes.{SizesTable};
ghost use Rattle.layout.specs.Spots.{spot_of, places_from, SoundCursor};
ghost use Rattle.definition.specs.Fields.{place_in, eq_place, eq_places};
ghost use Rattle.compare.specs.Layouts.{spot_found};
ghost use Rattle.compare.specs.Sides.{whole, now_of, then_of, SoundNow, SoundThen};

use crate::alike::pass_alike;
use crate::catalog::Record;
use crate::sides::{Measured, Sides};
use layout::spots::{Ahead, Spot, SpotCursor, first_spot, pass_others};
use record::describe::{Description, put_description};
use record::seek::{Between, seek};
use record::text::{Text, bytes_of, same};

// Whether two texts that may be absent are alike, each in its pool.
pub(crate) fn alike_words(pool: &[u8], a: Option<Text>, old_pool: &[u8], b: Option<Text>) -> bool
    ensures { result ≡ true → opt_of pool.now a ≡ opt_of old_pool.now b }
{
    let Some(x) = a else {
        let Some(_) = b else {
            return true;
        };
        return false;
    };
    let Some(y) = b else {
        return false;
    };
    same(bytes_of(pool, x), bytes_of(old_pool, y))
}

// Whether two descriptions of the commonest forms are alike part by part, which is quickly seen.
fn alike(pool: &[u8], d: Description, old_pool: &[u8], e: Description) -> bool
    ensures { result ≡ true → described_as pool.now d ≡ described_as old_pool.now e }
{
    if let Description::Named(kind, name) = d {
        let Description::Named(other, named) = e else {
            return false;
        };
        if same(bytes_of(pool, kind), bytes_of(old_pool, other)) {
            return same(bytes_of(pool, name), bytes_of(old_pool, named));
        }
        return false;
    }
    if let Description::Array(kind, element, n) = d {
        let Description::Array(other, word, m) = e else {
            return false;
        };
        if n != m {
            return false;
        }
        if same(bytes_of(pool, kind), bytes_of(old_pool, other)) {
            return alike_words(pool, element, old_pool, word);
        }
        return false;
    }
    false
}

// Whether two descriptions read the same, each in its pool: both are put into buffers, since parts that differ may read the same together.
fn same_text(pool: &[u8], d: Description, old_pool: &[u8], e: Description) -> bool
    ensures { result ≡ eqs (described_as pool.now d) (described_as old_pool.now e) }
{
    let mut a = [0u8; 559];
    let mut b = [0u8; 559];
    let m = put_description(&mut a, 0, pool, d);
    let n = put_description(&mut b, 0, old_pool, e);
    same(&a[..m], &b[..n])
}

// Whether two descriptions read the same, each in its pool: by their parts first.
pub fn same_description(pool: &[u8], d: Description, old_pool: &[u8], e: Description) -> bool
    ensures { result ≡ eqs (described_as pool.now d) (described_as old_pool.now e) }
{
    alike(pool, d, old_pool, e) || same_text(pool, d, old_pool, e)
}

// Whether two fields are the same, what is quickly seen first.
pub fn same_spot(pool: &[u8], x: Spot, old_pool: &[u8], y: Spot) -> bool
    ensures { result ≡ eq_place (spot_of pool.now x) (spot_of old_pool.now y) }
{
    if x.offset != y.offset {
        return false;
    }
    if x.size != y.size {
        return false;
    }
    if x.padding != y.padding {
        return false;
    }
    if same(bytes_of(pool, x.name), bytes_of(old_pool, y.name)) {
        return same_description(pool, x.described, old_pool, y.described);
    }
    false
}

// Whether the fields from two cursors on are the same in the same order, padding included.
pub(crate) fn same_rest(sides: &Sides, from: SpotCursor, other: SpotCursor) -> bool
    requires { SoundNow sides.now from × SoundThen sides.now other }
    ensures { let cur : Rec = now_of sides.now in
        let rel : Rec = then_of sides.now in
        result ≡ eq_places (places_from cur from) (places_from rel other) }
{
    let current = sides.current;
    let released = sides.released;
    let mut is = from;
    let mut was = other;
    while let Some((x, after)) = current.next_spot(sides.rows, is) {
        let Some((y, next)) = released.next_spot(sides.rows, was) else {
            return false;
        };
        if !same_spot(current.record.pool, x, released.record.pool, y) {
            return false;
        }
        is = after;
        was = next;
    }
    let Some((_, _)) = released.next_spot(sides.rows, was) else {
        return true;
    };
    false
}

// Whether the fields from two cursors on are the same, those at their fronts that are alike first.
fn same_ahead(sides: &Sides, from: SpotCursor, other: SpotCursor) -> bool
    requires { SoundNow sides.now from × SoundThen sides.now other }
    ensures { let cur : Rec = now_of sides.now in
        let rel : Rec = then_of sides.now in
        result ≡ eq_places (places_from cur from) (places_from rel other) }
{
    let both = pass_alike(sides, from, other);
    same_rest(sides, both.is, both.was)
}

// Whether it is seen that no field is ahead; before a family's front it is not.
pub(crate) fn is_bare(stream: &[u8], c: SpotCursor) -> bool
    ensures { result ≡ true → (p : Str) (w : List Scalar) → places_from (rec stream.now p w) c ≡ [] }
{
    let Ahead::Body(k) = c.ahead else {
        return false;
    };
    let Some((_, _)) = seek(stream, k.at, 11, Between::Keys) else {
        return true;
    };
    false
}

// Whether the fields from two cursors on are seen to be the same since there are none.
pub(crate) fn both_bare(stream: &[u8], is: SpotCursor, old_stream: &[u8], was: SpotCursor) -> bool
    ensures { result ≡ true → (p q : Str) (w : List Scalar)
        → eq_places (places_from (rec stream.now p w) is) (places_from (rec old_stream.now q w) was) ≡ true }
{
    is_bare(stream, is) && is_bare(old_stream, was)
}

// Whether two types have the same fields in the same order, padding included.
pub(crate) fn same_layout(sides: &Sides, handle: u32, other: u32) -> bool
    requires { let cur : Rec = now_of sides.now in
        let rel : Rec = then_of sides.now in
        Typed cur.stream handle × Typed rel.stream other }
    ensures { let cur : Rec = now_of sides.now in
        let rel : Rec = then_of sides.now in
        result ≡ eq_places (layout_of cur handle).fields (layout_of rel other).fields }
{
    let stream = sides.current.record.stream;
    let old_stream = sides.released.record.stream;
    let is = first_spot(stream, handle);
    let was = first_spot(old_stream, other);
    if both_bare(stream, is, old_stream, was) {
        return true;
    }
    same_ahead(sides, is, was)
}

// Whether types of two records that come in parts have the same fields in the same order, padding included.
pub fn same_fields(
    rows: &[u8],
    stream: &[u8],
    pool: &[u8],
    sizes: &[u64],
    handle: u32,
    old_stream: &[u8],
    old_pool: &[u8],
    old_sizes: &[u64],
    other: u32,
) -> bool
    requires { let cur : Rec = rec stream.now pool.now (scalars_of rows.now) in
        let rel : Rec = rec old_stream.now old_pool.now (scalars_of rows.now) in
        (Typed cur.stream handle × SizesTable cur sizes.now × Exact cur)
        × (Typed rel.stream other × SizesTable rel old_sizes.now × Exact rel) }
    ensures { let cur : Rec = rec stream.now pool.now (scalars_of rows.now) in
        let rel : Rec = rec old_stream.now old_pool.now (scalars_of rows.now) in
        result ≡ eq_places (layout_of cur handle).fields (layout_of rel other).fields }
{
    let current = Measured {
        record: Record { stream, pool },
        sizes,
    };
    let released = Measured {
        record: Record {
            stream: old_stream,
            pool: old_pool,
        },
        sizes: old_sizes,
    };
    let sides = Sides {
        rows,
        current,
        released,
    };
    same_layout(&sides, handle, other)
}

// The first field of that name from a cursor on.
pub(crate) fn find_spot(
    rows: &[u8],
    side: &Measured,
    from: SpotCursor,
    name: &[u8],
) -> Option<(Spot, SpotCursor)>
    requires { let r : Rec = whole rows.now side.now in
        SoundCursor r side.now.sizes.now from }
    ensures { let r : Rec = whole rows.now side.now in
        place_in name.now (places_from r from) ≡ spot_found r.pool result }
{
    let Record { stream, pool } = side.record;
    let mut cursor = from;
    while let Some((x, after)) = side.next_spot(
        rows,
        pass_others(stream, pool, side.sizes, cursor, name),
    ) {
        if same(bytes_of(pool, x.name), name) {
            return Some((x, after));
        }
        cursor = after;
    }
    None
}
