// The sizes of fields, in bytes. A size is exact as far as the limit of number 9, and one more stands for all that are larger: number 9 refuses
// every record that has one, so nothing after the reader sees the difference.
ghost use Rattle.std.specs.Prelude.{◌≡◌, ◌*◌, ◌+◌, None};
ghost use Rattle.record.specs.Base.{Str, bytes, or_else};
ghost use Rattle.record.specs.Scalars.{scalars_of, prim_size};
ghost use Rattle.record.specs.Operands.{opt_text_at, opt_number_at};
ghost use Rattle.record.specs.Schema.{Field};
ghost use Rattle.record.specs.Commands.{field_at};
ghost use Rattle.record.specs.Lists.{opt_of, field_of};
ghost use Rattle.record.specs.Steps.{enums_at, aliases_at, bitfields_at};
ghost use Rattle.record.specs.Index.{Findable};
ghost use Rattle.record.specs.Shapes.{enum_size, alias_size, bitfield_size, sized, shape_size, capped};
ghost use Rattle.record.specs.Reading.{Rec, rec, schema_of};

use crate::cut;
use crate::index::look_up;
use crate::kind::{Kind, kind_of};
use crate::le::u32_at;
use crate::operands::{opt_number_at, opt_text_at, text_at};
use crate::scalars::prim_size;
use crate::text::{Text, bytes_of};

// The largest end of a field that number 9 lets pass.
pub const LIMIT: u64 = 4294967295;

// A size as far as the limit.
#[tactic(auto, unfolding(crate::specs::Shapes::capped))]
pub(crate) fn cap(n: u64) -> u64
    ensures { result ≡ capped n }
{
    n.min(LIMIT + 1)
}

pub fn wide(n: u32) -> u64
    ensures { result ≡ n }
{
    u64::from(n)
}

#[tactic(auto, unfolding(crate::specs::Shapes::capped))]
pub fn sum(a: u64, b: u64) -> u64
    ensures { result ≡ capped (a + b) }
{
    cap(a.saturating_add(b))
}

#[tactic(auto, unfolding(crate::specs::Shapes::capped))]
pub(crate) fn product(a: u64, b: u64) -> u64
    ensures { result ≡ capped (a * b) }
{
    cap(a.saturating_mul(b))
}

pub fn or_else(n: Option<u32>, d: u32) -> u32
    ensures { result ≡ or_else n d }
{
    let Some(x) = n else {
        return d;
    };
    x
}

pub fn enum_size(stream: &[u8], pool: &[u8], index: &[u16], name: &[u8]) -> Option<u32>
    ensures { let s : Str = stream.now in
        let p : Str = pool.now in
        (Findable s p index.now → result ≡ enum_size (enums_at s p 0) name.now) }
{
    let Some((place, _)) = look_up(stream, pool, index, 4, name) else {
        return None;
    };
    Some(u32_at(cut::from(stream, place), 4))
}

pub fn alias_size(
    rows: &[u8],
    stream: &[u8],
    pool: &[u8],
    index: &[u16],
    name: &[u8],
) -> Option<u32>
    ensures { let cur : Rec = rec stream.now pool.now (scalars_of rows.now) in
        (Findable cur.stream cur.pool index.now
        → result ≡ alias_size cur.scalars (aliases_at cur.stream cur.pool 0) name.now) }
{
    let Some((place, _)) = look_up(stream, pool, index, 3, name) else {
        return None;
    };
    let underlying = text_at(cut::from(stream, place), 4);
    Some(prim_size(rows, bytes_of(pool, underlying)))
}

pub fn bitfield_size(stream: &[u8], pool: &[u8], index: &[u16], name: &[u8]) -> Option<u32>
    ensures { let s : Str = stream.now in
        let p : Str = pool.now in
        (Findable s p index.now → result ≡ bitfield_size (bitfields_at s p 0) name.now) }
{
    let Some((place, _)) = look_up(stream, pool, index, 6, name) else {
        return None;
    };
    Some(u32_at(cut::from(stream, place), 4))
}

// A scalar whose word is left out is a byte.
pub fn scalar_bytes(rows: &[u8], pool: &[u8], word: Option<Text>) -> u32
    ensures { result ≡ prim_size (scalars_of rows.now) (or_else (opt_of pool.now word) (bytes "u8")) }
{
    let Some(x) = word else {
        return prim_size(rows, b"u8");
    };
    prim_size(rows, bytes_of(pool, x))
}

// An enum that is not declared has one byte.
fn enum_bytes(stream: &[u8], pool: &[u8], index: &[u16], name: Option<Text>) -> u32
    ensures { let s : Str = stream.now in
        let p : Str = pool.now in
        (Findable s p index.now → result ≡ sized (opt_of p name) (enum_size (enums_at s p 0)) 1) }
{
    let Some(x) = name else {
        return 1;
    };
    or_else(enum_size(stream, pool, index, bytes_of(pool, x)), 1)
}

// The bytes of an enum where no index is at hand: while the record is read, and for the one enum of a family's front.
pub fn front_bytes(stream: &[u8], pool: &[u8], name: Option<Text>) -> u32
    ensures { let s : Str = stream.now in
        let p : Str = pool.now in
        result ≡ sized (opt_of p name) (enum_size (enums_at s p 0)) 1 }
{
    enum_bytes(stream, pool, &[], name)
}

// An alias that is not declared has two bytes.
fn alias_bytes(rows: &[u8], stream: &[u8], pool: &[u8], index: &[u16], name: Option<Text>) -> u32
    ensures { let cur : Rec = rec stream.now pool.now (scalars_of rows.now) in
        (Findable cur.stream cur.pool index.now
        → result ≡ sized (opt_of cur.pool name) (alias_size cur.scalars (aliases_at cur.stream cur.pool 0)) 2) }
{
    let Some(x) = name else {
        return 2;
    };
    or_else(alias_size(rows, stream, pool, index, bytes_of(pool, x)), 2)
}

// A bit field that is not declared has no bytes.
fn bitfield_bytes(stream: &[u8], pool: &[u8], index: &[u16], name: Option<Text>) -> u32
    ensures { let s : Str = stream.now in
        let p : Str = pool.now in
        (Findable s p index.now → result ≡ sized (opt_of p name) (bitfield_size (bitfields_at s p 0)) 0) }
{
    let Some(x) = name else {
        return 0;
    };
    or_else(bitfield_size(stream, pool, index, bytes_of(pool, x)), 0)
}

// The bytes of the scalar whose word stands at a place of a command.
fn scalar_at(rows: &[u8], pool: &[u8], s: &[u8], at: usize) -> u64
    ensures { let word : Str = or_else (opt_of pool.now (opt_text_at s.now at)) (bytes "u8") in
        result ≡ prim_size (scalars_of rows.now) word }
{
    u64::from(scalar_bytes(rows, pool, opt_text_at(s, at)))
}

// The number at a place of a command, 0 where it is left out.
pub(crate) fn number_at(s: &[u8], at: usize) -> u64
    ensures { result ≡ or_else (opt_number_at s.now at) 0 }
{
    u64::from(or_else(opt_number_at(s, at), 0))
}

// The bytes that a field takes, from the bytes that begin with its command. Of its operands only those are read that its kind needs.
pub fn field_size(rows: &[u8], stream: &[u8], pool: &[u8], index: &[u16], s: &[u8]) -> u64
    ensures { let cur : Rec = rec stream.now pool.now (scalars_of rows.now) in
        let field : Field = field_of cur.pool (field_at s.now) None in
        (Findable cur.stream cur.pool index.now → result ≡ capped (shape_size (schema_of cur) field)) }
{
    match kind_of(bytes_of(pool, text_at(s, 4))) {
        Kind::Scalar => cap(scalar_at(rows, pool, s, 7)),
        Kind::Enum => cap(u64::from(enum_bytes(stream, pool, index, opt_text_at(s, 7)))),
        Kind::TypeAlias => cap(u64::from(alias_bytes(
            rows,
            stream,
            pool,
            index,
            opt_text_at(s, 7),
        ))),
        Kind::Bitfield => cap(u64::from(bitfield_bytes(stream, pool, index, opt_text_at(s, 7)))),
        Kind::InlineArray => product(scalar_at(rows, pool, s, 10), number_at(s, 13)),
        Kind::InlineArray2d => array2d_size(rows, pool, s),
        Kind::CstrPtr => 4,
        Kind::StructPtr => 4,
        Kind::StructArrayPtr => 4,
        Kind::StructPtrArrayPtr => 4,
        Kind::TaggedFamPtr => 4,
        Kind::SimpleFamPtr => 4,
        Kind::OpaquePtr => 4,
        Kind::FnPtr => 4,
        Kind::Padding => cap(number_at(s, 28)),
        Kind::Text => 0,
        Kind::Other => 0,
    }
}

// The bytes that a field takes, where no index is at hand.
pub(crate) fn size_unindexed(rows: &[u8], stream: &[u8], pool: &[u8], s: &[u8]) -> u64
    ensures { let cur : Rec = rec stream.now pool.now (scalars_of rows.now) in
        let field : Field = field_of cur.pool (field_at s.now) None in
        result ≡ capped (shape_size (schema_of cur) field) }
{
    field_size(rows, stream, pool, &[], s)
}

// The bytes that an array of two dimensions takes.
fn array2d_size(rows: &[u8], pool: &[u8], s: &[u8]) -> u64
    ensures { let x : Str = s.now in
        let word : Str = or_else (opt_of pool.now (opt_text_at x 10)) (bytes "u8") in
        result ≡ capped (prim_size (scalars_of rows.now) word
        * or_else (opt_number_at x 18) 0 * or_else (opt_number_at x 23) 0) }
{
    let line = product(scalar_at(rows, pool, s, 10), number_at(s, 18));
    product(line, number_at(s, 23))
}
