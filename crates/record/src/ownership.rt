// The owner of a name: the first root, in slot order metadata, runtime, info, from which references lead to it.
ghost use Rattle.std.specs.Prelude.{◌≡◌, ◌≤◌, ◌<◌, length, ◌+◌, ◌/◌};
ghost use Rattle.record.specs.Base.{Str, is_text};
ghost use Rattle.record.specs.Index.{IndexRoom};
ghost use Rattle.record.specs.Marks.{reference_at, Clear};
ghost use Rattle.record.specs.Leads.{LeadTable, LeadsTo};
ghost use Rattle.record.specs.Versioned.{InSlots};
ghost use Rattle.record.specs.declared.leads.Lead.TheVariants.{AField};
ghost use Rattle.record.specs.Ownership.{EightClear, MarkedName, Known, OwnerBy, IsOwner, OwnerFound};

use crate::command::{Step, Struct};
use crate::cut;
use crate::index::fill_index;
use crate::le::byte_at;
use crate::leads::{Lead, lead_to};
use crate::marks::{mark_roots, reference_at};
use crate::operands::opt_text_at;
use crate::references::{has_slot, is_text};
use crate::text::{Text, bytes_of, same};
use crate::versioned::{Versioned, versioned_structs};
use texts::le::word;

// Whether the field at a place refers to the name. The two names that it may refer to are read first, since they are seldom the
// one that is asked for.
fn refers_to(stream: &[u8], pool: &[u8], place: usize, name: &[u8]) -> bool
    ensures { result ≡ is_text (reference_at stream.now pool.now place) name.now }
{
    let bytes = cut::from(stream, place);
    let maybe = is_text(pool, opt_text_at(bytes, 7), name)
        || is_text(pool, opt_text_at(bytes, 10), name);
    maybe && is_text(pool, reference_at(stream, pool, place), name)
}

// Whether eight marks from a place on are there, and none is set.
pub(crate) fn eight_clear(marks: &[u8], place: usize) -> bool
    ensures { EightClear marks.now place result }
{
    8 <= marks.len() && place <= marks.len() - 8 && word(marks, place) == 0
}

// Whether a field with this mark refers to the name, where none that refers to it has a lower mark than the one at a place.
fn marked_first(
    stream: &[u8],
    pool: &[u8],
    marks: &[u8],
    place: usize,
    name: &[u8],
    mark: u8,
) -> bool
    requires { 0 < mark }
    ensures { let s : Str = stream.now in
        let p : Str = pool.now in
        (LeadsTo s p marks.now name.now (AField place)
        → MarkedName s p marks.now name.now mark result) }
{
    let least = byte_at(marks, place);
    if mark < least {
        return false;
    }
    if mark == least && refers_to(stream, pool, place, name) {
        return true;
    }
    marked_name(stream, pool, marks, name, mark)
}

// Whether a field with this mark refers to the name.
fn marked_name(stream: &[u8], pool: &[u8], marks: &[u8], name: &[u8], mark: u8) -> bool
    requires { 0 < mark }
    ensures { MarkedName stream.now pool.now marks.now name.now mark result }
{
    let mut place = 0;
    while place < marks.len() {
        if eight_clear(marks, place) {
            place += 8;
            continue;
        }
        if marks[place] != mark {
            place += 1;
            continue;
        }
        if refers_to(stream, pool, place, name) {
            return true;
        }
        place += 1;
    }
    false
}

// Whether a field with this mark refers to the name, where a field of the least mark among those that do may be known.
fn marked_by(stream: &[u8], pool: &[u8], marks: &[u8], lead: Lead, name: &[u8], mark: u8) -> bool
    requires { 0 < mark }
    ensures { let s : Str = stream.now in
        let p : Str = pool.now in
        (LeadsTo s p marks.now name.now lead → MarkedName s p marks.now name.now mark result) }
{
    match lead {
        Lead::Unknown => marked_name(stream, pool, marks, name, mark),
        Lead::NoField => false,
        Lead::AField(place) => marked_first(stream, pool, marks, place, name, mark),
    }
}

// The root in a slot, where it is the name's or has marked a field that leads to the name.
fn owner_in(
    stream: &[u8],
    pool: &[u8],
    marks: &[u8],
    index: &[u16],
    root: Step<Struct>,
    lead: Lead,
    name: &[u8],
    mark: u8,
) -> Option<Text>
    requires { 0 < mark }
    ensures { let s : Str = stream.now in
        let p : Str = pool.now in
        OwnerBy s p marks.now index.now root lead name.now mark result }
{
    let Some((root, _)) = root else {
        return None;
    };
    let own = root.name;
    if same(bytes_of(pool, own), name) {
        return Some(own);
    }
    if has_slot(stream, pool, index, name) {
        return None;
    }
    if marked_by(stream, pool, marks, lead, name, mark) {
        return Some(own);
    }
    None
}

// The owner of a name, where the roots, the marks and the index are the record's and what the lead says holds.
fn owner_by(
    stream: &[u8],
    pool: &[u8],
    roots: Versioned,
    marks: &[u8],
    index: &[u16],
    lead: Lead,
    name: &[u8],
) -> Option<Text>
    ensures { let s : Str = stream.now in
        let p : Str = pool.now in
        (Known s p marks.now index.now → InSlots s p roots
        → LeadsTo s p marks.now name.now lead → IsOwner s p name.now result) }
{
    let first = roots.metadata;
    if let Some(t) = owner_in(stream, pool, marks, index, first, lead, name, 1) {
        return Some(t);
    }
    let second = roots.runtime;
    if let Some(t) = owner_in(stream, pool, marks, index, second, lead, name, 2) {
        return Some(t);
    }
    let third = roots.info;
    owner_in(stream, pool, marks, index, third, lead, name, 3)
}

// The owner of a name by a table of leads: many names may be asked of one walk.
pub fn owner_among(
    stream: &[u8],
    pool: &[u8],
    roots: Versioned,
    marks: &[u8],
    index: &[u16],
    leads: &[u16],
    name: &[u8],
) -> Option<Text>
    ensures { let s : Str = stream.now in
        let p : Str = pool.now in
        (Known s p marks.now index.now → InSlots s p roots
        → LeadTable s p marks.now leads.now → IsOwner s p name.now result) }
{
    let lead = lead_to(stream, pool, index, leads, name);
    owner_by(stream, pool, roots, marks, index, lead, name)
}

// The owner of one name, on marks that are clear and an index, which are lent for its walk.
fn owner_lent(
    stream: &[u8],
    pool: &[u8],
    marks: &mut [u8],
    index: &mut [u16],
    name: &[u8],
) -> Option<Text>
    requires { (length stream.now ≤ 32768) × (length stream.now ≤ length marks.old) × Clear marks.old
        × IndexRoom stream.now index.old }
    ensures { IsOwner stream.now pool.now name.now result }
{
    fill_index(stream, pool, index);
    let roots = versioned_structs(stream, pool);
    mark_roots(stream, pool, roots, index, marks);
    owner_by(stream, pool, roots, marks, index, Lead::Unknown, name)
}

// The owner of one name, with tables for a stream of its length, since clearing those for the longest takes longer than the answer of a short one.
fn owner_sized<const MARKS: usize, const INDEX: usize>(
    stream: &[u8],
    pool: &[u8],
    name: &[u8],
) -> Option<Text>
    requires { (length stream.now ≤ MARKS) × (MARKS ≤ 32768) × (256 + length stream.now / 7 < INDEX) × (INDEX ≤ 4938) }
    ensures { IsOwner stream.now pool.now name.now result }
{
    let mut marks = [0u8; MARKS];
    let mut index = [0u16; INDEX];
    owner_lent(stream, pool, &mut marks, &mut index, name)
}

// The owner of a name. A stream of more than 32,768 bytes is no record, and nothing in it is owned.
pub fn owner_of(stream: &[u8], pool: &[u8], name: &[u8]) -> Option<Text>
    ensures { OwnerFound 32768 stream.now pool.now name.now result }
{
    if stream.len() <= 2048 {
        return owner_sized::<2048, 549>(stream, pool, name);
    }
    if 32768 < stream.len() {
        return None;
    }
    owner_sized::<32768, 4938>(stream, pool, name)
}
