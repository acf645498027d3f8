// The pass over the enums: a released value keeps its name and its number.
ghost use Rattle.std.specs.Prelude.{◌≡◌};
ghost use Rattle.record.specs.Stretch.{text_of};
ghost use Rattle.record.specs.Lists.{enum_of, value_of};
ghost use Rattle.record.specs.Steps.{values_at};
ghost use Rattle.record.specs.Reading.{Rec};
ghost use Rattle.record.specs.Base.{Str};
ghost use Rattle.definition.specs.Enums.{check_value, check_values, check_enum, check_enums};
ghost use Rattle.compare.specs.Sought.{NumberFrom};
ghost use Rattle.compare.specs.Catalog.{read};
ghost use Rattle.compare.specs.Records.{enum_list};
ghost use Rattle.verdicts.specs.Meaning.{meaning};

use crate::catalog::{Catalog, Record};
use record::command::{Cursor, Enum, Step, Value};
use record::lists::{find, next};
use record::text::{Text, bytes_of};
use verdicts::verdict::Verdict;

// The first value with that number from a cursor on.
fn find_number(stream: &[u8], from: Cursor, number: u64) -> Step<Value>
    ensures { NumberFrom number stream.now from.at result }
{
    let mut cursor = from;
    while let Some((v, after)) = next::<Value>(stream, cursor) {
        if v.value == number {
            return Some((v, after));
        }
        cursor = after;
    }
    None
}

// One released value against the values that are now, from a cursor on.
fn check_value(
    current: &Record,
    old_pool: &[u8],
    is: Cursor,
    owner: Text,
    was: Value,
) -> Result<(), Verdict>
    ensures { let cur : Rec = read current.now in
        let q : Str = old_pool.now in
        meaning cur.pool q result ≡ check_value (text_of q owner) (values_at cur.stream cur.pool is.at) (value_of q was) }
{
    let name = was.name;
    let named = find::<Value>(current.stream, current.pool, is, bytes_of(old_pool, name));
    if let Some((v, _)) = named {
        if v.value == was.value {
            return Ok(());
        }
        return Err(Verdict::Renumbered {
            owner,
            name,
            was: was.value,
            is: v.value,
        });
    }
    let Some((v, _)) = find_number(current.stream, is, was.value) else {
        return Err(Verdict::ValueGone { owner, name });
    };
    Err(Verdict::Renamed {
        owner,
        name,
        is: v.name,
    })
}

// The released values from a cursor on against those that are now.
fn check_values(
    current: &Record,
    released: &Record,
    is: Cursor,
    owner: Text,
    from: Cursor,
) -> Result<(), Verdict>
    ensures { let cur : Rec = read current.now in
        let rel : Rec = read released.now in
        meaning cur.pool rel.pool result ≡ check_values (text_of rel.pool owner) (values_at cur.stream cur.pool is.at)
        (values_at rel.stream rel.pool from.at) }
{
    let mut cursor = from;
    while let Some((was, after)) = next::<Value>(released.stream, cursor) {
        check_value(current, released.pool, is, owner, was)?;
        cursor = after;
    }
    Ok(())
}

// One released enum, whose values begin at a cursor.
fn check_enum(current: &Catalog, released: &Record, was: Enum, from: Cursor) -> Result<(), Verdict>
    ensures { let cur : Rec = read current.now.record in
        let rel : Rec = read released.now in
        meaning cur.pool rel.pool result
        ≡ check_enum (enum_list cur) (enum_of rel.pool was (values_at rel.stream rel.pool from.at)) }
{
    let Some((_, _)) = next::<Value>(released.stream, from) else {
        return Ok(());
    };
    let name = was.name;
    let Some((_, is)) = current.first_enum(bytes_of(released.pool, name)) else {
        return Err(Verdict::EnumGone { name });
    };
    check_values(&current.record, released, is, name, from)
}

// The first enum or value of the release that does not stand as it was.
pub(crate) fn check_enums(current: &Catalog, released: &Record) -> Result<(), Verdict>
    ensures { let cur : Rec = read current.now.record in
        let rel : Rec = read released.now in
        meaning cur.pool rel.pool result ≡ check_enums (enum_list cur) (enum_list rel) }
{
    let mut cursor = Cursor::new();
    while let Some((was, after)) = next::<Enum>(released.stream, cursor) {
        check_enum(current, released, was, after)?;
        cursor = after;
    }
    Ok(())
}
