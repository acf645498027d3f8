// The kinds of a field.
ghost use Rattle.std.specs.Prelude.{◌≡◌};
ghost use Rattle.record.specs.Kind.{kind_of};

use crate::text::same;

// What a field is; Other is a word that names no kind.
#[derive(Clone, Copy)]
pub enum Kind {
    Scalar,
    Enum,
    TypeAlias,
    Bitfield,
    InlineArray,
    InlineArray2d,
    CstrPtr,
    StructPtr,
    StructArrayPtr,
    StructPtrArrayPtr,
    TaggedFamPtr,
    SimpleFamPtr,
    OpaquePtr,
    FnPtr,
    Padding,
    Text,
    Other,
}

// The kind that a word names, by the whole word: its length leaves at most three words of the table.
pub fn kind_of(word: &[u8]) -> Kind
    ensures { result ≡ kind_of word.now }
{
    match word.len() {
        4 if same(word, b"enum") => Kind::Enum,
        6 if same(word, b"scalar") => Kind::Scalar,
        6 if same(word, b"fn_ptr") => Kind::FnPtr,
        6 if same(word, b"string") => Kind::Text,
        7 if same(word, b"padding") => Kind::Padding,
        8 if same(word, b"bitfield") => Kind::Bitfield,
        8 if same(word, b"cstr_ptr") => Kind::CstrPtr,
        10 if same(word, b"type_alias") => Kind::TypeAlias,
        10 if same(word, b"struct_ptr") => Kind::StructPtr,
        10 if same(word, b"opaque_ptr") => Kind::OpaquePtr,
        12 if same(word, b"inline_array") => Kind::InlineArray,
        14 if same(word, b"inline_array2d") => Kind::InlineArray2d,
        14 if same(word, b"tagged_fam_ptr") => Kind::TaggedFamPtr,
        14 if same(word, b"simple_fam_ptr") => Kind::SimpleFamPtr,
        16 if same(word, b"struct_array_ptr") => Kind::StructArrayPtr,
        20 if same(word, b"struct_ptr_array_ptr") => Kind::StructPtrArrayPtr,
        _ => Kind::Other,
    }
}
