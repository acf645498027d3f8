// The pass over the constants: a released constant stays, and keeps its value unless it holds a generation.
ghost use Rattle.std.specs.Prelude.{◌≡◌, [], map, ◌≤◌, length};
ghost use Rattle.record.specs.Base.{Str, eqs, signed};
ghost use Rattle.record.specs.Lists.{constant_of};
ghost use Rattle.record.specs.Steps.{struct_found};
ghost use Rattle.record.specs.Owner.{with_name};
ghost use Rattle.record.specs.Reading.{Rec};
ghost use Rattle.layout.specs.Room.{Room};
ghost use Rattle.layout.specs.Constants.{placed_constant};
ghost use Rattle.definition.specs.Constants.{constant_text};
ghost use Rattle.verdicts.specs.Arguments.{value_meant};
ghost use Rattle.definition.specs.Constants.{held_by_any, is_generation, check_constant, check_constants_in, check_constants};
ghost use Rattle.compare.specs.Sought.{HoldsValue};
ghost use Rattle.compare.specs.Catalog.{read};
ghost use Rattle.compare.specs.Records.{constant_list, struct_list};
ghost use Rattle.verdicts.specs.Meaning.{meaning};

use crate::catalog::{Catalog, Record};
use crate::required::required_text;
use layout::constants::{constant_table, placed_constant};
use record::command::{Constant, Step, Struct};
use record::cut::upto;
use record::text::{bytes_of, same};
use record::versioned::versioned_structs;
use record::writer::put_signed;
use verdicts::arguments::ConstantValue;
use verdicts::verdict::Verdict;

// What a constant holds.
fn value_of(c: Constant) -> ConstantValue
    ensures { HoldsValue c result }
{
    if c.is_text {
        return ConstantValue::Words(c.text);
    }
    ConstantValue::Integer(c.integer)
}

// Whether two integers are the same in decimal: just where they are the same.
fn same_integers(a: u64, b: u64) -> bool
    ensures { result ≡ eqs (signed a) (signed b) }
{
    a == b
}

// Whether an integer in decimal is this text.
fn integer_reads(n: u64, text: &[u8]) -> bool
    ensures { result ≡ eqs (signed n) text.now }
{
    let mut digits = [0u8; 21];
    let end = put_signed(&mut digits, 0, n);
    same(upto(&digits, end), text)
}

// Whether an integer has the text of a value.
fn integer_is(n: u64, pool: &[u8], value: ConstantValue) -> bool
    ensures { result ≡ eqs (signed n) (constant_text (value_meant pool.now value)) }
{
    match value {
        ConstantValue::Integer(m) => same_integers(n, m),
        ConstantValue::Words(text) => integer_reads(n, bytes_of(pool, required_text(text))),
    }
}

// Whether these words are the text of a value.
fn words_are(words: &[u8], pool: &[u8], value: ConstantValue) -> bool
    ensures { result ≡ eqs words.now (constant_text (value_meant pool.now value)) }
{
    match value {
        ConstantValue::Integer(n) => integer_reads(n, words),
        ConstantValue::Words(text) => same(words, bytes_of(pool, required_text(text))),
    }
}

// Whether a value that is now and one that was have the same text.
fn same_value(pool: &[u8], is: ConstantValue, old_pool: &[u8], was: ConstantValue) -> bool
    ensures { result ≡ eqs (constant_text (value_meant pool.now is)) (constant_text (value_meant old_pool.now was)) }
{
    match is {
        ConstantValue::Integer(n) => integer_is(n, old_pool, was),
        ConstantValue::Words(text) => words_are(bytes_of(pool, required_text(text)), old_pool, was),
    }
}

// Whether the structure in a slot keeps its generation in the constant of that name.
fn slot_holds(current: &Catalog, slot: Step<Struct>, name: &[u8]) -> bool
    ensures { let cur : Rec = read current.now.record in
        result ≡ held_by_any (struct_list cur) (constant_list cur) (with_name (struct_found cur.stream cur.pool slot) []) name.now }
{
    let Some((e, _)) = slot else {
        return false;
    };
    let pool = current.record.pool;
    let Some((constant, _)) = current.generation(bytes_of(pool, e.name)) else {
        return false;
    };
    same(bytes_of(pool, constant), name)
}

// Whether the constant of that name holds a generation: these are meant to change.
fn is_generation(current: &Catalog, name: &[u8]) -> bool
    ensures { let cur : Rec = read current.now.record in
        result ≡ is_generation (struct_list cur) (constant_list cur) name.now }
{
    let slots = versioned_structs(current.record.stream, current.record.pool);
    if slot_holds(current, slots.info, name) {
        return true;
    }
    if slot_holds(current, slots.metadata, name) {
        return true;
    }
    slot_holds(current, slots.runtime, name)
}

// One released constant against the last current one of its name; the values come first, since most are the same.
fn check_constant(current: &Catalog, old_pool: &[u8], was: Constant) -> Result<(), Verdict>
    ensures { let cur : Rec = read current.now.record in
        let q : Str = old_pool.now in
        meaning cur.pool q result ≡ check_constant (struct_list cur) (constant_list cur) (constant_of q was) }
{
    let name = was.name;
    let Some((c, _)) = current.last_constant(bytes_of(old_pool, name)) else {
        return Err(Verdict::ConstantGone { name });
    };
    let held = value_of(was);
    let holds = value_of(c);
    if same_value(current.record.pool, holds, old_pool, held) {
        return Ok(());
    }
    if is_generation(current, bytes_of(old_pool, name)) {
        return Ok(());
    }
    Err(Verdict::ConstantChanged {
        name,
        was: held,
        is: holds,
    })
}

// The released constants at these places, one after the other.
fn check_placed(current: &Catalog, released: &Record, table: &[u32]) -> Result<(), Verdict>
    ensures { let cur : Rec = read current.now.record in
        let rel : Rec = read released.now in
        meaning cur.pool rel.pool result
        ≡ check_constants_in (struct_list cur) (constant_list cur) (map (placed_constant rel.stream rel.pool) table.now) }
{
    for place in table {
        let was = placed_constant(released.stream, *place);
        check_constant(current, released.pool, was)?;
    }
    Ok(())
}

// The first constant of the release, in byte order of the names, that does not stand as it was.
pub(crate) fn check_constants(
    current: &Catalog,
    released: &Record,
    table: &mut [u32],
    scratch: &mut [u32],
) -> Result<(), Verdict>
    requires { (length released.now.stream.now ≤ 32768)
        × Room released.now.stream.now table.old
        × Room released.now.stream.now scratch.old }
    ensures { let cur : Rec = read current.now.record in
        let rel : Rec = read released.now in
        meaning cur.pool rel.pool result ≡ check_constants (struct_list cur) (constant_list cur) (constant_list rel) }
{
    let n = constant_table(released.stream, released.pool, table, scratch);
    check_placed(current, released, &table[..n])
}
