// Which generation number covers a changed type: the one of the root that owns its name before the first "::".
ghost use Rattle.std.specs.Prelude.{◌≡◌};
ghost use Rattle.record.specs.Base.{eqs};
ghost use Rattle.record.specs.Reading.{Rec};
ghost use Rattle.layout.specs.Handles.{type_name};
ghost use Rattle.definition.specs.Coverage.{owning};
ghost use Rattle.compare.specs.CoverTable.{colons_first, one_family, cover_in, cover_meant, Packed, Knows};
ghost use Rattle.compare.specs.Catalog.{read};
ghost use Rattle.compare.specs.Marked.{AreOwners};
ghost use Rattle.compare.specs.Records.{type_lists};

use crate::catalog::{Catalog, Record};
use layout::names::{family_part, put_name, type_name};
use record::cut::{from, upto};
use record::index::stands_alone;
use record::le::byte_at;
use record::ownership::owner_among;
use record::text::{Text, same};
use record::versioned::Versioned;

// A record with its roots and the marks of what is under them, by which an owner is asked for.
#[derive(Clone, Copy)]
pub struct Marked<'a, 'b> {
    pub catalog: Catalog<'a>,
    pub roots: Versioned,
    pub marks: &'b [u8],
}

// Whether a text begins with two colons.
#[tactic(auto, unfolding(crate::specs::CoverTable::colons_first))]
fn colons_first(s: &[u8]) -> bool
    ensures { result ≡ colons_first s.now }
{
    byte_at(s, 0) == b':' && byte_at(s, 1) == b':'
}

// The name before its first two colons; all of it where there are none.
fn before_colons(name: &[u8]) -> &[u8]
    ensures { result.now ≡ owning name.now }
{
    for i in 0..name.len() {
        if colons_first(from(name, i)) {
            return upto(name, i);
        }
    }
    name
}

// Whether two types are variants of one family.
#[tactic(auto, unfolding(crate::specs::CoverTable::one_family))]
fn one_family(g: u32, h: u32) -> bool
    ensures { result ≡ one_family g h }
{
    let family = family_part(g);
    family != 0 && family == family_part(h)
}

// Whether two types have one name before the first "::": variants of one family do, and so it is asked of the handles first.
fn same_owning(current: &Record, g: u32, h: u32) -> bool
    ensures { let cur : Rec = read current.now in
        result ≡ eqs (owning (type_name cur.stream cur.pool g)) (owning (type_name cur.stream cur.pool h)) }
{
    if one_family(g, h) {
        return true;
    }
    let mut a = [0u8; 512];
    let mut b = [0u8; 512];
    let Record { stream, pool } = *current;
    let m = put_name(&mut a, 0, pool, type_name(stream, g));
    let n = put_name(&mut b, 0, pool, type_name(stream, h));
    same(before_colons(&a[..m]), before_colons(&b[..n]))
}

// The entry of a type that is under the root of this name: two more than the stretch as a number, since 0 and 1 are taken.
fn packed(root: Text) -> u32
    ensures { Packed root result }
{
    (root.start as u32) * 256 + (root.len as u32) + 2
}

// The entry of a changed type, by its name before the first "::".
fn entry_named(current: &Marked, leads: &[u16], name: &[u8]) -> u32
    ensures { let cur : Rec = read current.now.catalog.record in
        (AreOwners current.now leads.now
        → cover_meant cur.pool result ≡ cover_in (type_lists cur) name.now) }
{
    let Record { stream, pool } = current.catalog.record;
    let index = current.catalog.index;
    if stands_alone(stream, pool, index, name) {
        return 0;
    }
    let Some(root) = owner_among(
        stream,
        pool,
        current.roots,
        current.marks,
        index,
        leads,
        name,
    ) else {
        return 1;
    };
    packed(root)
}

// The entry of a changed type.
fn entry_of(current: &Marked, leads: &[u16], handle: u32) -> u32
    ensures { let cur : Rec = read current.now.catalog.record in
        (AreOwners current.now leads.now
        → cover_meant cur.pool result ≡ cover_in (type_lists cur) (owning (type_name cur.stream cur.pool handle))) }
{
    let mut name = [0u8; 512];
    let Record { stream, pool } = current.catalog.record;
    let n = put_name(&mut name, 0, pool, type_name(stream, handle));
    entry_named(current, leads, before_colons(&name[..n]))
}

// The entry of a changed type, taken over from the one before, which has its handle and its entry in `last`, where both have one name before
// the first "::": an owner is seldom sought twice.
pub(crate) fn entry_after(
    current: &Marked,
    leads: &[u16],
    last: Option<(u32, u32)>,
    handle: u32,
) -> u32
    ensures { let cur : Rec = read current.now.catalog.record in
        (AreOwners current.now leads.now
        → Knows cur.stream cur.pool last
        → cover_meant cur.pool result ≡ cover_in (type_lists cur) (owning (type_name cur.stream cur.pool handle))) }
{
    let Some((before, entry)) = last else {
        return entry_of(current, leads, handle);
    };
    if same_owning(&current.catalog.record, before, handle) {
        return entry;
    }
    entry_of(current, leads, handle)
}
