// The pass over the standalone families: a family stands alone as it did, and no shipped layout of one that does has changed.
ghost use Rattle.std.specs.Prelude.{◌≡◌, ◌∷◌};
ghost use Rattle.record.specs.Stretch.{text_of};
ghost use Rattle.record.specs.Lists.{opt_of, family_of};
ghost use Rattle.record.specs.Steps.{fields_at, variants_at};
ghost use Rattle.record.specs.Reading.{Rec};
ghost use Rattle.record.specs.Base.{Str};
ghost use Rattle.layout.specs.Names.{name_of};
ghost use Rattle.layout.specs.Spots.{places_from};
ghost use Rattle.compare.specs.Layouts.{types_of};
ghost use Rattle.definition.specs.Standalone.{variant_names, gained, check_shipped_all, check_standing, check_family, check_standalone};
ghost use Rattle.compare.specs.Catalog.{read};
ghost use Rattle.compare.specs.Sides.{now_of, then_of, SoundNow, SoundThen, AreLaid};
ghost use Rattle.compare.specs.Pairs.{check_pair, PairTyped, PairFound};
ghost use Rattle.compare.specs.Records.{family_list};
ghost use Rattle.verdicts.specs.Meaning.{meaning};

use crate::catalog::Record;
use crate::layouts::{find_spot, same_layout};
use crate::sides::{Laid, Sides};
use layout::names::TypeName;
use layout::spots::{SpotCursor, first_spot};
use layout::table::find_named;
use record::command::{Cursor, Family, Variant};
use record::lists::{find, next};
use record::text::{Text, bytes_of};
use verdicts::verdict::Verdict;

// The name of the first field from one cursor on that none from another on has.
fn gained(sides: &Sides, is: SpotCursor, was: SpotCursor) -> Option<Text>
    requires { SoundNow sides.now is × SoundThen sides.now was }
    ensures { let cur : Rec = now_of sides.now in
        let rel : Rec = then_of sides.now in
        opt_of cur.pool result ≡ gained (places_from cur is) (places_from rel was) }
{
    let current = sides.current;
    let mut cursor = is;
    while let Some((x, after)) = current.next_spot(sides.rows, cursor) {
        let name = x.name;
        let found = find_spot(
            sides.rows,
            &sides.released,
            was,
            bytes_of(current.record.pool, name),
        );
        let Some((_, _)) = found else {
            return Some(name);
        };
        cursor = after;
    }
    None
}

// The handles of the layout of a name now and before; one that is new, or gone, is passed over.
fn find_both(laid: &Laid, name: TypeName) -> Option<(u32, u32)>
    requires { AreLaid laid.now }
    ensures { let cur : Rec = now_of laid.now.sides in
        let rel : Rec = then_of laid.now.sides in
        PairFound cur.stream cur.pool rel.stream rel.pool (name_of cur.pool name) result }
{
    let Record { stream, pool } = laid.sides.current.record;
    let then = laid.sides.released.record;
    let types = laid.types;
    let old_types = laid.old_types;
    let was = find_named(then.stream, then.pool, old_types, pool, name);
    let Some(j) = was else {
        return None;
    };
    let other = old_types[j];
    let is = find_named(stream, pool, types, pool, name);
    let Some(i) = is else {
        return None;
    };
    let handle = types[i];
    Some((handle, other))
}

// A layout of a standalone family now and before.
fn check_pair(sides: &Sides, name: TypeName, pair: Option<(u32, u32)>) -> Result<(), Verdict>
    requires { let cur : Rec = now_of sides.now in
        let rel : Rec = then_of sides.now in
        PairTyped cur.stream rel.stream pair }
    ensures { let cur : Rec = now_of sides.now in
        let rel : Rec = then_of sides.now in
        meaning cur.pool rel.pool result ≡ check_pair cur rel (name_of cur.pool name) pair }
{
    let Some((is, was)) = pair else {
        return Ok(());
    };
    if same_layout(sides, is, was) {
        return Ok(());
    }
    let from = first_spot(sides.current.record.stream, is);
    let before = first_spot(sides.released.record.stream, was);
    let change = gained(sides, from, before);
    Err(Verdict::ShippedFamilyChanged { name, change })
}

// The layouts of a family's variants from a cursor on.
fn check_variants(laid: &Laid, family: Text, from: Cursor) -> Result<(), Verdict>
    requires { AreLaid laid.now }
    ensures { let cur : Rec = now_of laid.now.sides in
        let rel : Rec = then_of laid.now.sides in
        meaning cur.pool rel.pool result ≡ check_shipped_all (types_of cur) (types_of rel)
        (variant_names (text_of cur.pool family) (variants_at cur.stream cur.pool from.at)) }
{
    let stream = laid.sides.current.record.stream;
    let mut cursor = from;
    while let Some((variant, after)) = next::<Variant>(stream, cursor) {
        let name = TypeName {
            front: family,
            back: Some(variant.discriminant),
        };
        let pair = find_both(laid, name);
        check_pair(&laid.sides, name, pair)?;
        cursor = after;
    }
    Ok(())
}

// The layouts of a family whose variants begin at a cursor: its own, then its variants'.
fn check_layouts(laid: &Laid, family: Text, from: Cursor) -> Result<(), Verdict>
    requires { AreLaid laid.now }
    ensures { let cur : Rec = now_of laid.now.sides in
        let rel : Rec = then_of laid.now.sides in
        meaning cur.pool rel.pool result ≡ check_shipped_all (types_of cur) (types_of rel)
        (text_of cur.pool family ∷ variant_names (text_of cur.pool family) (variants_at cur.stream cur.pool from.at)) }
{
    let name = TypeName {
        front: family,
        back: None,
    };
    let pair = find_both(laid, name);
    check_pair(&laid.sides, name, pair)?;
    check_variants(laid, family, from)
}

// Whether a family stands alone as the first released one of its name did, if there is one.
fn check_standing(
    pool: &[u8],
    released: &Record,
    name: Text,
    standalone: bool,
) -> Result<(), Verdict>
    ensures { let p : Str = pool.now in
        let rel : Rec = read released.now in
        meaning p rel.pool result ≡ check_standing (family_list rel) (text_of p name) standalone }
{
    let found = find::<Family>(
        released.stream,
        released.pool,
        Cursor::new(),
        bytes_of(pool, name),
    );
    let Some((was, _)) = found else {
        return Ok(());
    };
    if was.standalone == standalone {
        return Ok(());
    }
    Err(Verdict::StandingChanged {
        name,
        was: was.standalone,
        is: standalone,
    })
}

// One family, whose variants begin at a cursor.
fn check_family(laid: &Laid, m: Family, from: Cursor) -> Result<(), Verdict>
    requires { AreLaid laid.now }
    ensures { let cur : Rec = now_of laid.now.sides in
        let rel : Rec = then_of laid.now.sides in
        meaning cur.pool rel.pool result ≡ check_family (family_list rel) (types_of cur) (types_of rel)
        (family_of cur.pool m (fields_at cur.stream cur.pool from.at) (variants_at cur.stream cur.pool from.at)) }
{
    let name = m.name;
    let Sides {
        current,
        released,
        ..
    } = laid.sides;
    check_standing(current.record.pool, &released.record, name, m.standalone)?;
    if m.standalone {
        return check_layouts(laid, name, from);
    }
    Ok(())
}

// The first family that changed how it stands, or layout of a standalone one that changed.
pub(crate) fn check_standalone(laid: &Laid) -> Result<(), Verdict>
    requires { AreLaid laid.now }
    ensures { let cur : Rec = now_of laid.now.sides in
        let rel : Rec = then_of laid.now.sides in
        meaning cur.pool rel.pool result ≡ check_standalone (family_list cur) (family_list rel) (types_of cur) (types_of rel) }
{
    let stream = laid.sides.current.record.stream;
    let mut cursor = Cursor::new();
    while let Some((m, after)) = next::<Family>(stream, cursor) {
        check_family(laid, m, after)?;
        cursor = after;
    }
    Ok(())
}
