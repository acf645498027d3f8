// For each declared type a place whose mark is no higher than that of any field with a mark that refers to it: a table, in a slice
// that the caller lends, where many names are asked of one walk. The entry of a type is (its command's place + 1) / 10, since no two
// stand within ten bytes, and names that nobody declares share entry 0. A place is kept as one more than it is. A table of no
// entries knows nothing.
ghost use Rattle.std.specs.Prelude.{◌<◌};
ghost use Rattle.record.specs.Base.{Str};
ghost use Rattle.record.specs.Leads.{EntryNamed, IsLeast, PutLeast, PutLead, LeadsFilled, LeadGiven};

use crate::index::{first_named, link_at};
use crate::le::byte_at;
use crate::marks::reference_at;
use crate::ownership::eight_clear;
use crate::text::bytes_of;

// A place whose mark is no higher than that of any field with a mark that refers to a name, as far as it is known.
#[derive(Clone, Copy)]
pub enum Lead {
    Unknown,
    NoField,
    AField(usize),
}

// The entry of a name: by the first structure, else by the first family.
fn entry_named(stream: &[u8], pool: &[u8], index: &[u16], name: &[u8]) -> usize
    ensures { EntryNamed stream.now pool.now index.now name.now result }
{
    let found = first_named(stream, pool, index, 8, name);
    if found == 0 {
        return first_named(stream, pool, index, 9, name) / 10;
    }
    found / 10
}

// Whether an entry leads to a field whose mark is no higher than that of the field at a place.
fn is_least(marks: &[u8], entry: usize, place: usize) -> bool
    ensures { IsLeast marks.now entry place result }
{
    entry != 0 && byte_at(marks, entry - 1) <= byte_at(marks, place)
}

// Puts a field into an entry, unless one stands there whose mark is as low.
fn put_least(marks: &[u8], leads: &mut [u16], entry: usize, place: usize)
    requires { place < 32768 }
    ensures { PutLeast marks.now leads.old entry place leads.new }
{
    if leads.len() <= entry {
        return;
    }
    if is_least(marks, link_at(leads, entry), place) {
        return;
    }
    leads[entry] = (place + 1) as u16;
}

// Puts the field at a place into the table, where it has a mark.
fn put_lead(
    stream: &[u8],
    pool: &[u8],
    marks: &[u8],
    index: &[u16],
    leads: &mut [u16],
    place: usize,
)
    requires { place < 32768 }
    ensures { let s : Str = stream.now in
        let p : Str = pool.now in
        PutLead s p marks.now index.now leads.old place leads.new }
{
    if byte_at(marks, place) == 0 {
        return;
    }
    let Some(name) = reference_at(stream, pool, place) else {
        return;
    };
    let entry = entry_named(stream, pool, index, bytes_of(pool, name));
    put_least(marks, leads, entry, place);
}

// Fills the table.
pub fn fill_leads(stream: &[u8], pool: &[u8], marks: &[u8], index: &[u16], leads: &mut [u16])
    ensures { LeadsFilled stream.now pool.now marks.now index.now leads.new }
{
    if 32768 < marks.len() {
        return;
    }
    let mut place = 0;
    while place < marks.len() {
        if eight_clear(marks, place) {
            place += 8;
            continue;
        }
        put_lead(stream, pool, marks, index, leads, place);
        place += 1;
    }
}

// What the table says of a name.
pub(crate) fn lead_to(stream: &[u8], pool: &[u8], index: &[u16], leads: &[u16], name: &[u8]) -> Lead
    ensures { LeadGiven stream.now pool.now index.now leads.now name.now result }
{
    if leads.len() == 0 {
        return Lead::Unknown;
    }
    let entry = entry_named(stream, pool, index, name);
    if leads.len() <= entry {
        return Lead::Unknown;
    }
    let link = link_at(leads, entry);
    if link == 0 {
        return Lead::NoField;
    }
    Lead::AField(link - 1)
}
