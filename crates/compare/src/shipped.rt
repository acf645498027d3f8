// What the copy of the last release says of one item of the plugin API. Of two of one name the later counts, and one outside the plugin API does not.
ghost use Rattle.std.specs.Prelude.{◌≡◌, []};
ghost use Rattle.record.specs.Steps.{enum_found};
ghost use Rattle.record.specs.Keys.{plugin_keys};
ghost use Rattle.record.specs.Reading.{Rec};
ghost use Rattle.definition.specs.FirstReleases.{constant_release, value_release, key_release};
ghost use Rattle.compare.specs.Shipped.{shipped_of, ShippedWith, EnumShipped};
ghost use Rattle.compare.specs.Catalog.{read};
ghost use Rattle.compare.specs.Records.{constant_list, struct_list, key_list};

use crate::catalog::{Catalog, Record};
use record::command::{Enum, Step, Value};
use record::dates::member_release;
use record::keys::{first_stored, next_stored_key};
use record::lists::find;
use record::text::{Text, bytes_of, same};

// The release about to ship, and the one that the copy gives.
#[derive(Clone, Copy)]
pub struct Dates {
    pub current: Text,
    pub copy: Option<Text>,
}

#[derive(Clone, Copy)]
pub enum Shipped {
    // The copy has no such item: it arrives now.
    Absent,
    // It has the item and names the release in which that arrived.
    Named(Text),
    // It has the item and does not say since when.
    Unstated,
}

// What the copy says of an item that it has, by the release that it gives or does not.
pub fn shipped_with(release: Option<Text>) -> Shipped
    ensures { ShippedWith release result }
{
    match release {
        None => Shipped::Unstated,
        Some(t) => Shipped::Named(t),
    }
}

// What the copy says of a constant.
pub(crate) fn constant_release(released: &Catalog, name: &[u8]) -> Shipped
    ensures { let rel : Rec = read released.now.record in
        shipped_of rel.pool result ≡ constant_release name.now (constant_list rel) }
{
    let Some((c, _)) = released.api_constant(name) else {
        return Shipped::Absent;
    };
    shipped_with(c.first_release)
}

// What the copy says of an enum that was looked up there.
pub fn enum_release(was: Step<Enum>) -> Shipped
    ensures { EnumShipped was result }
{
    let Some((e, _)) = was else {
        return Shipped::Absent;
    };
    shipped_with(e.first_release)
}

// What the copy says of a value of an enum that was looked up there: the value's own release, else its enum's.
pub fn value_release(released: &Record, was: Step<Enum>, name: &[u8]) -> Shipped
    ensures { let rel : Rec = read released.now in
        shipped_of rel.pool result ≡ value_release (enum_found rel.stream rel.pool was) name.now }
{
    let Some((e, from)) = was else {
        return Shipped::Absent;
    };
    let Some((v, _)) = find::<Value>(released.stream, released.pool, from, name) else {
        return Shipped::Absent;
    };
    shipped_with(member_release(v.first_release, e.first_release))
}

// What the copy says of a plugin key by structures' fields alone.
fn stored_release(released: &Record, name: &[u8]) -> Shipped
    ensures { let rel : Rec = read released.now in
        shipped_of rel.pool result ≡ key_release name.now (plugin_keys (struct_list rel) []) }
{
    let mut found = Shipped::Absent;
    let mut at = first_stored();
    while let Some((k, rest)) = next_stored_key(released.stream, at) {
        at = rest;
        if same(bytes_of(released.pool, k.name), name) {
            found = shipped_with(k.first_release);
        }
    }
    found
}

// What the copy says of a plugin key: the unstored ones come after those of fields, so the last of them counts first.
pub(crate) fn key_release(released: &Catalog, name: &[u8]) -> Shipped
    ensures { let rel : Rec = read released.now.record in
        shipped_of rel.pool result ≡ key_release name.now (key_list rel) }
{
    if let Some((k, _)) = released.last_unstored(name) {
        return shipped_with(k.first_release);
    }
    stored_release(&released.record, name)
}
