// The commands of a stream, each with its operands, and the cursor that goes from one to the next.
ghost use Rattle.std.specs.Prelude.{◌≡◌};
ghost use Rattle.record.specs.Commands.{head_at, constant_at, alias_at, enum_at, value_at, bitfield_at, member_at, struct_at};
ghost use Rattle.record.specs.Commands.{family_at, variant_at, field_at, key_at, version_at, width_of, command_of, start, place, step_at};

use crate::le;
use crate::operands::{flag_at, opt_number_at, opt_text_at, text_at};
use crate::text::Text;

// The head of a record.
#[derive(Clone, Copy)]
pub struct Head {
    pub release: Option<Text>,
    pub unreleased: bool,
}

// A constant: an integer, kept as its 64 bits, or a text.
#[derive(Clone, Copy)]
pub struct Constant {
    pub name: Text,
    pub is_text: bool,
    pub integer: u64,
    pub text: Option<Text>,
    pub ora_api: bool,
    pub first_release: Option<Text>,
}

// A name for a scalar word.
#[derive(Clone, Copy)]
pub struct TypeAlias {
    pub name: Text,
    pub underlying: Text,
}

// An enum; its values follow.
#[derive(Clone, Copy)]
pub struct Enum {
    pub name: Text,
    pub size: u32,
    pub ora_api: bool,
    pub first_release: Option<Text>,
}

// A value of an enum; the number is kept as its 64 bits.
#[derive(Clone, Copy)]
pub struct Value {
    pub name: Text,
    pub value: u64,
    pub first_release: Option<Text>,
}

// A bit field; its members follow.
#[derive(Clone, Copy)]
pub struct Bitfield {
    pub name: Text,
    pub size: u32,
    pub first_release: Option<Text>,
}

// A member of a bit field.
#[derive(Clone, Copy)]
pub struct Member {
    pub name: Text,
    pub bit: u32,
    pub width: Option<u32>,
    pub first_release: Option<Text>,
}

// A structure; its fields follow.
#[derive(Clone, Copy)]
pub struct Struct {
    pub name: Text,
    pub generation_slot: Option<Text>,
    pub version_constant: Option<Text>,
}

// A family (a tagged FAM of the Rust); its common fields follow, then its variants.
#[derive(Clone, Copy)]
pub struct Family {
    pub name: Text,
    pub discriminant_field: Text,
    pub discriminant_type: Text,
    pub param_len_field: Text,
    pub param_len_type: Option<Text>,
    pub standalone: bool,
}

// A variant of a family; its fields follow.
#[derive(Clone, Copy)]
pub struct Variant {
    pub discriminant: Text,
}

// A field of a structure, a family or a variant.
#[derive(Clone, Copy)]
pub struct Field {
    pub name: Text,
    pub kind: Text,
    pub type_name: Option<Text>,
    pub element: Option<Text>,
    pub count: Option<u32>,
    pub rows: Option<u32>,
    pub cols: Option<u32>,
    pub size: Option<u32>,
}

// A plugin key.
#[derive(Clone, Copy)]
pub struct PluginKey {
    pub name: Text,
    pub first_release: Option<Text>,
}

// A generation of a structure that has shipped.
#[derive(Clone, Copy)]
pub struct Version {
    pub struct_name: Text,
    pub version: u32,
}

#[derive(Clone, Copy)]
pub enum Command {
    Head(Head),
    Constant(Constant),
    TypeAlias(TypeAlias),
    Enum(Enum),
    Value(Value),
    Bitfield(Bitfield),
    Member(Member),
    Struct(Struct),
    Family(Family),
    Variant(Variant),
    Field(Field),
    PluginKey(PluginKey),
    UnstoredKey(PluginKey),
    Version(Version),
}

pub(crate) fn head_at(s: &[u8]) -> Head
    ensures { result ≡ head_at s.now }
{
    Head {
        release: opt_text_at(s, 1),
        unreleased: flag_at(s, 4),
    }
}

pub fn constant_at(s: &[u8]) -> Constant
    ensures { result ≡ constant_at s.now }
{
    Constant {
        name: text_at(s, 1),
        is_text: flag_at(s, 4),
        integer: le::u64_at(s, 5),
        text: opt_text_at(s, 13),
        ora_api: flag_at(s, 16),
        first_release: opt_text_at(s, 17),
    }
}

pub(crate) fn alias_at(s: &[u8]) -> TypeAlias
    ensures { result ≡ alias_at s.now }
{
    TypeAlias {
        name: text_at(s, 1),
        underlying: text_at(s, 4),
    }
}

pub(crate) fn enum_at(s: &[u8]) -> Enum
    ensures { result ≡ enum_at s.now }
{
    Enum {
        name: text_at(s, 1),
        size: le::u32_at(s, 4),
        ora_api: flag_at(s, 8),
        first_release: opt_text_at(s, 9),
    }
}

pub(crate) fn value_at(s: &[u8]) -> Value
    ensures { result ≡ value_at s.now }
{
    Value {
        name: text_at(s, 1),
        value: le::u64_at(s, 4),
        first_release: opt_text_at(s, 12),
    }
}

pub(crate) fn bitfield_at(s: &[u8]) -> Bitfield
    ensures { result ≡ bitfield_at s.now }
{
    Bitfield {
        name: text_at(s, 1),
        size: le::u32_at(s, 4),
        first_release: opt_text_at(s, 8),
    }
}

// Inlined, since a search by name reads all operands of the member alone that it finds.
#[inline(always)]
pub(crate) fn member_at(s: &[u8]) -> Member
    ensures { result ≡ member_at s.now }
{
    Member {
        name: text_at(s, 1),
        bit: le::u32_at(s, 4),
        width: opt_number_at(s, 8),
        first_release: opt_text_at(s, 13),
    }
}

pub(crate) fn struct_at(s: &[u8]) -> Struct
    ensures { result ≡ struct_at s.now }
{
    Struct {
        name: text_at(s, 1),
        generation_slot: opt_text_at(s, 4),
        version_constant: opt_text_at(s, 7),
    }
}

pub fn family_at(s: &[u8]) -> Family
    ensures { result ≡ family_at s.now }
{
    Family {
        name: text_at(s, 1),
        discriminant_field: text_at(s, 4),
        discriminant_type: text_at(s, 7),
        param_len_field: text_at(s, 10),
        param_len_type: opt_text_at(s, 13),
        standalone: flag_at(s, 16),
    }
}

pub(crate) fn variant_at(s: &[u8]) -> Variant
    ensures { result ≡ variant_at s.now }
{
    Variant {
        discriminant: text_at(s, 1),
    }
}

pub fn field_at(s: &[u8]) -> Field
    ensures { result ≡ field_at s.now }
{
    Field {
        name: text_at(s, 1),
        kind: text_at(s, 4),
        type_name: opt_text_at(s, 7),
        element: opt_text_at(s, 10),
        count: opt_number_at(s, 13),
        rows: opt_number_at(s, 18),
        cols: opt_number_at(s, 23),
        size: opt_number_at(s, 28),
    }
}

pub(crate) fn key_at(s: &[u8]) -> PluginKey
    ensures { result ≡ key_at s.now }
{
    PluginKey {
        name: text_at(s, 1),
        first_release: opt_text_at(s, 4),
    }
}

pub(crate) fn version_at(s: &[u8]) -> Version
    ensures { result ≡ version_at s.now }
{
    Version {
        struct_name: text_at(s, 1),
        version: le::u32_at(s, 4),
    }
}

// The bytes that a command takes, its number among them; 0 where no command has that number, as the definition of that name has it.
pub(crate) fn width_of(byte: u8) -> usize
    ensures { result ≡ width_of byte }
{
    match byte {
        1 => 5,
        2 => 20,
        3 => 7,
        4 => 12,
        5 => 15,
        6 => 11,
        7 => 16,
        8 => 10,
        9 => 17,
        10 => 4,
        11 => 33,
        12 => 7,
        13 => 7,
        14 => 8,
        15 => 1,
        0 | 16..=255 => 0,
    }
}

// The command of a number, from the bytes that begin with it.
pub(crate) fn command_of(byte: u8, s: &[u8]) -> Command
    ensures { result ≡ command_of byte s.now }
{
    match byte {
        1 => Command::Head(head_at(s)),
        2 => Command::Constant(constant_at(s)),
        3 => Command::TypeAlias(alias_at(s)),
        4 => Command::Enum(enum_at(s)),
        5 => Command::Value(value_at(s)),
        6 => Command::Bitfield(bitfield_at(s)),
        7 => Command::Member(member_at(s)),
        8 => Command::Struct(struct_at(s)),
        9 => Command::Family(family_at(s)),
        10 => Command::Variant(variant_at(s)),
        11 => Command::Field(field_at(s)),
        12 => Command::PluginKey(key_at(s)),
        13 => Command::UnstoredKey(key_at(s)),
        _ => Command::Version(version_at(s)),
    }
}

// What is open after a command: a field or a variant that follows belongs to it.
#[derive(Clone, Copy)]
pub enum Parent {
    NoParent,
    InStruct,
    InFamily,
}

// A place in the stream, with the number of the command before it (0 at the front) and what that command leaves open.
#[derive(Clone, Copy)]
pub struct Cursor {
    pub at: usize,
    pub last: u8,
    pub parent: Parent,
}

// An element of a list with the cursor after it, or none where the list ends.
pub type Step<E> = Option<(E, Cursor)>;

impl Cursor {
    // The front of a stream.
    pub fn new() -> Self
        ensures { result ≡ start }
    {
        Cursor {
            at: 0,
            last: 0,
            parent: Parent::NoParent,
        }
    }

    // A place of the stream, with nothing known of what stands before it.
    pub fn place(at: usize) -> Self
        ensures { result ≡ place at }
    {
        Cursor {
            at,
            last: 0,
            parent: Parent::NoParent,
        }
    }

    // The command at the cursor, unjudged, with a cursor that knows its place alone. It stops at the end command, at a number that is no
    // command's, and where the stream ends inside the command.
    pub fn next(self, s: &[u8]) -> Step<Command>
        ensures { result ≡ step_at s.now self.at }
    {
        let at = self.at;
        if s.len() <= at {
            return None;
        }
        let byte = s[at];
        if byte == 15 {
            return None;
        }
        let width = width_of(byte);
        if width == 0 {
            return None;
        }
        if s.len() - at < width {
            return None;
        }
        Some((
            command_of(byte, &s[at..]),
            Cursor {
                at: at + width,
                last: 0,
                parent: Parent::NoParent,
            },
        ))
    }
}
