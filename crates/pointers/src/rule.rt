// What is asked of one field: a pointer to a structure names a declared structure, one to a tagged family a declared family (02, W-212).
ghost use Rattle.std.specs.Prelude.{◌≡◌};
ghost use Rattle.record.specs.Base.{Str};
ghost use Rattle.record.specs.Lists.{opt_of};
ghost use Rattle.record.specs.Index.{Indexed};
ghost use Rattle.record.specs.References.{types_at};
ghost use Rattle.pointers.specs.Pointers.{pointee_of, is_struct, is_family, pointee_fault, field_fault, field_here};
ghost use Rattle.pointers.specs.declared.rule.Pointee.TheVariants.{ToStruct, ToFamily};

use record::cut;
use record::index::find_declared;
use record::kind::{Kind, kind_of};
use record::operands::text_at;
use record::references::referenced_type;
use record::text::{Text, bytes_of};

// What a pointer of a kind must name: its pointee.
#[derive(Clone, Copy)]
pub enum Pointee {
    ToStruct,
    ToFamily,
    Unjudged,
}

// What a pointer of this kind must name.
fn pointee_of(kind: Kind) -> Pointee
    ensures { result ≡ pointee_of kind }
{
    match kind {
        Kind::StructPtr | Kind::StructArrayPtr | Kind::StructPtrArrayPtr => Pointee::ToStruct,
        Kind::TaggedFamPtr => Pointee::ToFamily,
        _ => Pointee::Unjudged,
    }
}

// Whether a structure of this name is declared.
fn is_struct(stream: &[u8], pool: &[u8], index: &[u16], name: &[u8]) -> bool
    requires { Indexed stream.now pool.now index.now }
    ensures { result ≡ is_struct (types_at stream.now pool.now) name.now }
{
    let Some((_, _)) = find_declared(stream, pool, index, 8, name) else {
        return false;
    };
    true
}

// Whether a family of this name is declared.
fn is_family(stream: &[u8], pool: &[u8], index: &[u16], name: &[u8]) -> bool
    requires { Indexed stream.now pool.now index.now }
    ensures { result ≡ is_family (types_at stream.now pool.now) name.now }
{
    let Some((_, _)) = find_declared(stream, pool, index, 9, name) else {
        return false;
    };
    true
}

// The number of the fault of a name that must be a structure's, if it has one.
fn struct_fault(stream: &[u8], pool: &[u8], index: &[u16], named: Option<Text>) -> Option<u32>
    requires { Indexed stream.now pool.now index.now }
    ensures { let s : Str = stream.now in
        let p : Str = pool.now in
        result ≡ pointee_fault (types_at s p) ToStruct (opt_of p named) }
{
    let Some(t) = named else {
        return Some(59);
    };
    let name = bytes_of(pool, t);
    if is_struct(stream, pool, index, name) {
        return None;
    }
    if is_family(stream, pool, index, name) {
        return Some(60);
    }
    Some(59)
}

// The fault of a name that must be a family's.
fn family_fault(stream: &[u8], pool: &[u8], index: &[u16], named: Option<Text>) -> Option<u32>
    requires { Indexed stream.now pool.now index.now }
    ensures { let s : Str = stream.now in
        let p : Str = pool.now in
        result ≡ pointee_fault (types_at s p) ToFamily (opt_of p named) }
{
    let Some(t) = named else {
        return Some(59);
    };
    let name = bytes_of(pool, t);
    if is_family(stream, pool, index, name) {
        return None;
    }
    if is_struct(stream, pool, index, name) {
        return Some(60);
    }
    Some(59)
}

// The fault of the field whose command stands at a place. Most fields are no pointers, and of those only the kind is read.
pub(crate) fn field_fault(stream: &[u8], pool: &[u8], index: &[u16], at: usize) -> Option<u32>
    requires { Indexed stream.now pool.now index.now }
    ensures { let s : Str = stream.now in
        let p : Str = pool.now in
        result ≡ field_fault (types_at s p) (field_here s p at) }
{
    let field = cut::from(stream, at);
    match pointee_of(kind_of(bytes_of(pool, text_at(field, 4)))) {
        Pointee::Unjudged => None,
        Pointee::ToStruct => struct_fault(stream, pool, index, referenced_type(pool, field)),
        Pointee::ToFamily => family_fault(stream, pool, index, referenced_type(pool, field)),
    }
}
