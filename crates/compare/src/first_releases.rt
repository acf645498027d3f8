// The pass over the first releases of the plugin API: each says what the last release did. First releases compare as texts.
ghost use Rattle.std.specs.Prelude.{◌≡◌};
ghost use Rattle.record.specs.Stretch.{text_of};
ghost use Rattle.record.specs.Lists.{opt_of, constant_of, enum_of, value_of, key_of};
ghost use Rattle.record.specs.Steps.{values_at, enum_found};
ghost use Rattle.record.specs.Ends.{EndsOf};
ghost use Rattle.record.specs.Reading.{Rec};
ghost use Rattle.record.specs.Base.{Str};
ghost use Rattle.verdicts.specs.Arguments.{item_of};
ghost use Rattle.compare.specs.Shipped.{shipped_of};
ghost use Rattle.definition.specs.FirstReleases.{check_arrival, check_constant_arrival, check_constant_arrivals, check_value_arrival};
ghost use Rattle.definition.specs.FirstReleases.{check_value_arrivals, check_enum_arrival, check_enum_arrivals, check_key_arrival};
ghost use Rattle.definition.specs.FirstReleases.{check_key_arrivals, check_first_releases};
ghost use Rattle.compare.specs.Sought.{PassedIf, ValueDated};
ghost use Rattle.compare.specs.Catalog.{read};
ghost use Rattle.compare.specs.Records.{constant_list, enum_list, key_list};
ghost use Rattle.verdicts.specs.Meaning.{meaning};

use crate::catalog::{Catalog, Record};
use crate::required::required_text;
use crate::shipped::{Dates, Shipped, constant_release, enum_release, key_release, value_release};
use record::command::{Constant, Cursor, Enum, PluginKey, Step, Value};
use record::cut::upto;
use record::dates::member_release;
use record::ends::Ends;
use record::keys::{first_key, next_plugin_key};
use record::lists::next;
use record::text::{Text, bytes_of, same};
use verdicts::arguments::Item;
use verdicts::verdict::Verdict;

// Nothing where the test holds, else this violation.
fn passed_if(holds: bool, otherwise: Verdict) -> Result<(), Verdict>
    ensures { PassedIf holds otherwise result }
{
    if holds {
        return Ok(());
    }
    Err(otherwise)
}

// One item, the release that it names, and what the copy says of it.
fn check_arrival(
    pool: &[u8],
    old_pool: &[u8],
    dates: Dates,
    what: Item,
    names: Text,
    was: Shipped,
) -> Result<(), Verdict>
    ensures { let p : Str = pool.now in
        let q : Str = old_pool.now in
        meaning p q result ≡ check_arrival (text_of p dates.current) (opt_of q dates.copy) (item_of p what) (text_of p names) (shipped_of q was) }
{
    match was {
        Shipped::Absent => passed_if(
            same(bytes_of(pool, names), bytes_of(pool, dates.current)),
            Verdict::Late {
                what,
                current: dates.current,
                names,
            },
        ),
        Shipped::Named(release) => passed_if(
            same(bytes_of(pool, names), bytes_of(old_pool, release)),
            Verdict::Redated {
                what,
                was: release,
                names,
            },
        ),
        Shipped::Unstated => passed_if(
            !same(bytes_of(pool, names), bytes_of(pool, dates.current)),
            Verdict::Backdated {
                what,
                copy: dates.copy,
                current: dates.current,
            },
        ),
    }
}

// One constant. One outside the plugin API or without a first release is passed over.
fn check_constant_arrival(
    pool: &[u8],
    released: &Catalog,
    dates: Dates,
    is: Constant,
) -> Result<(), Verdict>
    ensures { let p : Str = pool.now in
        let rel : Rec = read released.now.record in
        meaning p rel.pool result
        ≡ check_constant_arrival (text_of p dates.current) (opt_of rel.pool dates.copy) (constant_list rel) (constant_of p is) }
{
    if !is.ora_api {
        return Ok(());
    }
    let Some(names) = is.first_release else {
        return Ok(());
    };
    let name = is.name;
    let was = constant_release(released, bytes_of(pool, name));
    check_arrival(
        pool,
        released.record.pool,
        dates,
        Item::Constant(name),
        names,
        was,
    )
}

// The current constants.
fn check_constant_arrivals(
    current: &Record,
    released: &Catalog,
    dates: Dates,
) -> Result<(), Verdict>
    ensures { let cur : Rec = read current.now in
        let rel : Rec = read released.now.record in
        meaning cur.pool rel.pool result
        ≡ check_constant_arrivals (text_of cur.pool dates.current) (opt_of rel.pool dates.copy) (constant_list cur) (constant_list rel) }
{
    let mut cursor = Cursor::new();
    while let Some((is, after)) = next::<Constant>(current.stream, cursor) {
        check_constant_arrival(current.pool, released, dates, is)?;
        cursor = after;
    }
    Ok(())
}

// Whether a value is dated: the copy has it, or it names its own release, or its release is the current one.
fn is_dated(pool: &[u8], current: Text, was: Shipped, own: Option<Text>, release: Text) -> bool
    ensures { ValueDated pool.now current was own release result }
{
    match was {
        Shipped::Absent => {
            if let Some(_) = own {
                return true;
            }
            same(bytes_of(pool, release), bytes_of(pool, current))
        }
        Shipped::Named(_) => true,
        Shipped::Unstated => true,
    }
}

// One value of an enum, against the copy's enum as it was looked up.
fn check_value_arrival(
    pool: &[u8],
    released: &Record,
    dates: Dates,
    parent: Enum,
    was: Step<Enum>,
    is: Value,
) -> Result<(), Verdict>
    ensures { let p : Str = pool.now in
        let rel : Rec = read released.now in
        meaning p rel.pool result
        ≡ check_value_arrival (text_of p dates.current) (opt_of rel.pool dates.copy) (text_of p parent.name) (opt_of p parent.first_release)
        (enum_found rel.stream rel.pool was) (value_of p is) }
{
    let own = is.first_release;
    let Some(release) = member_release(own, parent.first_release) else {
        return Ok(());
    };
    let owner = parent.name;
    let name = is.name;
    let then = value_release(released, was, bytes_of(pool, name));
    if is_dated(pool, dates.current, then, own, release) {
        return check_arrival(
            pool,
            released.pool,
            dates,
            Item::Within(owner, name),
            release,
            then,
        );
    }
    Err(Verdict::ValueUndated {
        owner,
        name,
        current: dates.current,
        release,
    })
}

// The values of an enum from a cursor on.
fn check_value_arrivals(
    current: &Record,
    released: &Record,
    dates: Dates,
    parent: Enum,
    was: Step<Enum>,
    from: Cursor,
) -> Result<(), Verdict>
    ensures { let cur : Rec = read current.now in
        let rel : Rec = read released.now in
        meaning cur.pool rel.pool result
        ≡ check_value_arrivals (text_of cur.pool dates.current) (opt_of rel.pool dates.copy) (text_of cur.pool parent.name)
        (opt_of cur.pool parent.first_release) (enum_found rel.stream rel.pool was)
        (values_at cur.stream cur.pool from.at) }
{
    let mut cursor = from;
    while let Some((is, after)) = next::<Value>(current.stream, cursor) {
        check_value_arrival(current.pool, released, dates, parent, was, is)?;
        cursor = after;
    }
    Ok(())
}

// One enum, whose values begin at a cursor. One outside the plugin API or without a first release is passed over with its values.
fn check_enum_arrival(
    current: &Record,
    released: &Catalog,
    dates: Dates,
    is: Enum,
    from: Cursor,
) -> Result<(), Verdict>
    ensures { let cur : Rec = read current.now in
        let rel : Rec = read released.now.record in
        meaning cur.pool rel.pool result ≡ check_enum_arrival (text_of cur.pool dates.current) (opt_of rel.pool dates.copy) (enum_list rel)
        (enum_of cur.pool is (values_at cur.stream cur.pool from.at)) }
{
    if !is.ora_api {
        return Ok(());
    }
    let Some(names) = is.first_release else {
        return Ok(());
    };
    let name = is.name;
    let was = released.api_enum(bytes_of(current.pool, name));
    check_arrival(
        current.pool,
        released.record.pool,
        dates,
        Item::Enum(name),
        names,
        enum_release(was),
    )?;
    check_value_arrivals(current, &released.record, dates, is, was, from)
}

// The current enums with their values.
fn check_enum_arrivals(current: &Record, released: &Catalog, dates: Dates) -> Result<(), Verdict>
    ensures { let cur : Rec = read current.now in
        let rel : Rec = read released.now.record in
        meaning cur.pool rel.pool result
        ≡ check_enum_arrivals (text_of cur.pool dates.current) (opt_of rel.pool dates.copy) (enum_list cur) (enum_list rel) }
{
    let mut cursor = Cursor::new();
    while let Some((is, after)) = next::<Enum>(current.stream, cursor) {
        check_enum_arrival(current, released, dates, is, after)?;
        cursor = after;
    }
    Ok(())
}

// One plugin key.
fn check_key_arrival(
    pool: &[u8],
    released: &Catalog,
    dates: Dates,
    is: PluginKey,
) -> Result<(), Verdict>
    ensures { let p : Str = pool.now in
        let rel : Rec = read released.now.record in
        meaning p rel.pool result ≡ check_key_arrival (text_of p dates.current) (opt_of rel.pool dates.copy) (key_list rel) (key_of p is) }
{
    let names = required_text(is.first_release);
    let name = is.name;
    let was = key_release(released, bytes_of(pool, name));
    check_arrival(
        pool,
        released.record.pool,
        dates,
        Item::Key(name),
        names,
        was,
    )
}

// The current plugin keys.
fn check_key_arrivals(current: &Record, released: &Catalog, dates: Dates) -> Result<(), Verdict>
    ensures { let cur : Rec = read current.now in
        let rel : Rec = read released.now.record in
        meaning cur.pool rel.pool result
        ≡ check_key_arrivals (text_of cur.pool dates.current) (opt_of rel.pool dates.copy) (key_list cur) (key_list rel) }
{
    let mut at = first_key();
    while let Some((is, rest)) = next_plugin_key(current.stream, at) {
        check_key_arrival(current.pool, released, dates, is)?;
        at = rest;
    }
    Ok(())
}

// The constants, then the enums with their values, then the plugin keys; the stream is passed only as far as each of them goes.
pub(crate) fn check_first_releases(
    current: &Record,
    ends: Ends,
    released: &Catalog,
    dates: Dates,
) -> Result<(), Verdict>
    requires { EndsOf current.now.stream.now ends }
    ensures { let cur : Rec = read current.now in
        let rel : Rec = read released.now.record in
        meaning cur.pool rel.pool result
        ≡ check_first_releases (text_of cur.pool dates.current) (opt_of rel.pool dates.copy) (constant_list cur) (constant_list rel) (enum_list cur)
        (enum_list rel) (key_list cur) (key_list rel) }
{
    let pool = current.pool;
    let constants = Record {
        stream: upto(current.stream, ends.constants),
        pool,
    };
    check_constant_arrivals(&constants, released, dates)?;
    let enums = Record {
        stream: upto(current.stream, ends.enums),
        pool,
    };
    check_enum_arrivals(&enums, released, dates)?;
    let keys = Record {
        stream: upto(current.stream, ends.keys),
        pool,
    };
    check_key_arrivals(&keys, released, dates)
}
