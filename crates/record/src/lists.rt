// The lists of a record, an element at a time: the next element from a cursor on, with the cursor after it.
// Written by tools/lists.py.
ghost use Rattle.std.specs.Prelude.{◌≡◌, ℕ};
ghost use Rattle.record.specs.Base.{Str};
ghost use Rattle.record.specs.Commands.{Step};
ghost use Rattle.record.specs.Listing.{Listing, Naming};
ghost use Rattle.record.specs.Listings.{head_list, constant_list, alias_list, value_list, enum_list, member_list, bitfield_list, key_list};
ghost use Rattle.record.specs.Listings.{field_list, struct_list, variant_list, family_list, unstored_list, version_list};
ghost use Rattle.record.specs.Listings.{value_naming, member_naming, bitfield_naming, family_naming};

use crate::command::{
    Bitfield, Constant, Cursor, Enum, Family, Field, Head, Member, PluginKey, Step, Struct,
    TypeAlias, Value, Variant, Version, alias_at, bitfield_at, constant_at, enum_at, family_at,
    field_at, head_at, key_at, member_at, struct_at, value_at, variant_at, version_at,
};
use crate::cut;
use crate::seek::{Between, seek};
use crate::text::{Text, bytes_of, same};

// The element of a list: which command it is, what may stand between, and how its operands are read.
pub trait Listed: Copy {
    ghost list: { Listing Self };

    fn sought() -> (u8, Between)
        ensures { result ≡ (list.elements.number, list.elements.between) };

    fn read(s: &[u8]) -> Self
        ensures { result ≡ list.elements.read s.now };
}

// A plugin key of no field that is stored: its list is not that of the keys after a field.
#[derive(Clone, Copy)]
pub struct UnstoredKey {
    pub key: PluginKey,
}

// The next element of the list that goes on at a cursor. It, its decoders and the search by name are inlined, so that a search reads of the elements
// that it passes the name alone.
#[inline(always)]
pub fn next<E: Listed>(stream: &[u8], from: Cursor) -> Step<E>
    ensures { E.list.From stream.now from.at result }
{
    let (number, between) = E::sought();
    let Some((at, after)) = seek(stream, from.at, number, between) else {
        return None;
    };
    Some((E::read(cut::from(stream, at)), Cursor::place(after)))
}

impl Listed for Head {
    ghost list = { head_list };

    fn sought() -> (u8, Between) {
        (1, Between::Anything)
    }

    #[inline(always)]
    fn read(s: &[u8]) -> Self {
        head_at(s)
    }
}

impl Listed for Constant {
    ghost list = { constant_list };

    fn sought() -> (u8, Between) {
        (2, Between::Anything)
    }

    #[inline(always)]
    fn read(s: &[u8]) -> Self {
        constant_at(s)
    }
}

impl Listed for TypeAlias {
    ghost list = { alias_list };

    fn sought() -> (u8, Between) {
        (3, Between::Anything)
    }

    #[inline(always)]
    fn read(s: &[u8]) -> Self {
        alias_at(s)
    }
}

impl Listed for Value {
    ghost list = { value_list };

    fn sought() -> (u8, Between) {
        (5, Between::Nothing)
    }

    #[inline(always)]
    fn read(s: &[u8]) -> Self {
        value_at(s)
    }
}

impl Listed for Enum {
    ghost list = { enum_list };

    fn sought() -> (u8, Between) {
        (4, Between::Anything)
    }

    #[inline(always)]
    fn read(s: &[u8]) -> Self {
        enum_at(s)
    }
}

impl Listed for Member {
    ghost list = { member_list };

    fn sought() -> (u8, Between) {
        (7, Between::Nothing)
    }

    #[inline(always)]
    fn read(s: &[u8]) -> Self {
        member_at(s)
    }
}

impl Listed for Bitfield {
    ghost list = { bitfield_list };

    fn sought() -> (u8, Between) {
        (6, Between::Anything)
    }

    #[inline(always)]
    fn read(s: &[u8]) -> Self {
        bitfield_at(s)
    }
}

impl Listed for PluginKey {
    ghost list = { key_list };

    fn sought() -> (u8, Between) {
        (12, Between::Nothing)
    }

    #[inline(always)]
    fn read(s: &[u8]) -> Self {
        key_at(s)
    }
}

impl Listed for Field {
    ghost list = { field_list };

    fn sought() -> (u8, Between) {
        (11, Between::Keys)
    }

    #[inline(always)]
    fn read(s: &[u8]) -> Self {
        field_at(s)
    }
}

impl Listed for Struct {
    ghost list = { struct_list };

    fn sought() -> (u8, Between) {
        (8, Between::Anything)
    }

    #[inline(always)]
    fn read(s: &[u8]) -> Self {
        struct_at(s)
    }
}

impl Listed for Variant {
    ghost list = { variant_list };

    fn sought() -> (u8, Between) {
        (10, Between::Fields)
    }

    #[inline(always)]
    fn read(s: &[u8]) -> Self {
        variant_at(s)
    }
}

impl Listed for Family {
    ghost list = { family_list };

    fn sought() -> (u8, Between) {
        (9, Between::Anything)
    }

    #[inline(always)]
    fn read(s: &[u8]) -> Self {
        family_at(s)
    }
}

impl Listed for UnstoredKey {
    ghost list = { unstored_list };

    fn sought() -> (u8, Between) {
        (13, Between::Anything)
    }

    #[inline(always)]
    fn read(s: &[u8]) -> Self {
        UnstoredKey { key: key_at(s) }
    }
}

impl Listed for Version {
    ghost list = { version_list };

    fn sought() -> (u8, Between) {
        (14, Between::Anything)
    }

    #[inline(always)]
    fn read(s: &[u8]) -> Self {
        version_at(s)
    }
}

// The element of a list that is searched by name.
pub trait Named: Listed {
    ghost naming: { Naming Self };

    fn name(self) -> Text
        ensures { result ≡ naming.name self };

    // The list that is searched is the one that a step goes along.
    ghost along: { (s : Str) (at : ℕ) (r : Step Self) → Self.list.From s at r → naming.list.From s at r };
}

// The first element of that name from a cursor on.
#[inline(always)]
pub fn find<E: Named>(stream: &[u8], pool: &[u8], from: Cursor, name: &[u8]) -> Step<E>
    ensures { E.naming.Found stream.now pool.now from.at name.now result }
{
    let mut cursor = from;
    loop {
        let Some((e, after)) = next::<E>(stream, cursor) else {
            return None;
        };
        if same(bytes_of(pool, e.name()), name) {
            return Some((e, after));
        }
        cursor = after;
    }
}

impl Named for Value {
    ghost naming = { value_naming };

    ghost along = { λ s at r f. f };

    fn name(self) -> Text {
        self.name
    }
}

impl Named for Member {
    ghost naming = { member_naming };

    ghost along = { λ s at r f. f };

    fn name(self) -> Text {
        self.name
    }
}

impl Named for Bitfield {
    ghost naming = { bitfield_naming };

    ghost along = { λ s at r f. f };

    fn name(self) -> Text {
        self.name
    }
}

impl Named for Family {
    ghost naming = { family_naming };

    ghost along = { λ s at r f. f };

    fn name(self) -> Text {
        self.name
    }
}
