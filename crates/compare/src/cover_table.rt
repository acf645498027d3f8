// The table of what covers each type: an entry for each handle of the table of types. The pass over the fields puts which types changed, and what
// covers those is put here.
ghost use Rattle.std.specs.Prelude.{◌≤◌, ◌≡◌, length};
ghost use Rattle.record.specs.Reading.{Rec};
ghost use Rattle.compare.specs.Catalog.{read};
ghost use Rattle.compare.specs.Marked.{AreMarked, AreOwners};
ghost use Rattle.compare.specs.CoverTable.{Entered, first_uncovered, is_under, first_touched};

use crate::catalog::Record;
use crate::coverage::{Marked, entry_after};
use layout::names::type_name;
use record::leads::fill_leads;
use record::text::{Text, bytes_of, same};
use verdicts::verdict::Verdict;

// How many types changed. Only the time depends on it, so that no more than a bound is promised.
fn count_changed(cover: &[u32]) -> usize
    ensures { result ≤ length cover.now }
{
    cover.iter().filter(|entry| **entry != 0).count()
}

// Puts the entry of each type that is not as it was.
fn fill_entries(current: &Marked, types: &[u32], leads: &[u16], cover: &mut [u32])
    requires { AreOwners current.now leads.now × (length types.now ≤ length cover.old) }
    ensures { let cur : Rec = read current.now.catalog.record in
        Entered cur.stream cur.pool types.now cover.old cover.new }
{
    let mut last = None;
    for (i, handle) in types.iter().enumerate() {
        if cover[i] == 0 {
            continue;
        }
        let entry = entry_after(current, leads, last, *handle);
        cover[i] = entry;
        last = Some((*handle, entry));
    }
}

// Puts these entries without a table of leads.
fn fill_few(current: &Marked, types: &[u32], cover: &mut [u32])
    requires { AreMarked current.now × (length types.now ≤ length cover.old) }
    ensures { let cur : Rec = read current.now.catalog.record in
        Entered cur.stream cur.pool types.now cover.old cover.new }
{
    fill_entries(current, types, &current.catalog.index[0..0], cover);
}

// Puts these entries by a table of leads, which takes less time where many types changed. It has room for the types of a stream of 32,768 bytes.
fn fill_many(current: &Marked, types: &[u32], cover: &mut [u32])
    requires { AreMarked current.now × (length types.now ≤ length cover.old)
        × (length current.now.marks.now ≤ 32768) }
    ensures { let cur : Rec = read current.now.catalog.record in
        Entered cur.stream cur.pool types.now cover.old cover.new }
{
    let mut leads = [0u16; 3277];
    let Record { stream, pool } = current.catalog.record;
    fill_leads(
        stream,
        pool,
        current.marks,
        current.catalog.index,
        &mut leads,
    );
    fill_entries(current, types, &leads, cover);
}

// Puts the entry of each type that is not as it was, where the marks are those of the owners and the index is the record's.
pub(crate) fn fill_cover(current: &Marked, types: &[u32], cover: &mut [u32])
    requires { AreMarked current.now × (length types.now ≤ length cover.old) }
    ensures { let cur : Rec = read current.now.catalog.record in
        Entered cur.stream cur.pool types.now cover.old cover.new }
{
    let n = count_changed(&cover[..types.len()]);
    if n < 8 || 32768 < current.marks.len() {
        fill_few(current, types, cover);
        return;
    }
    fill_many(current, types, cover);
}

// The first changed type that no number covers.
pub(crate) fn check_covered(stream: &[u8], types: &[u32], cover: &[u32]) -> Result<(), Verdict>
    ensures { result ≡ first_uncovered stream.now types.now cover.now }
{
    for (handle, entry) in types.iter().zip(cover) {
        if *entry == 1 {
            let name = type_name(stream, *handle);
            return Err(Verdict::Uncovered { name });
        }
    }
    Ok(())
}

// Whether an entry says that the type is under the root of this name.
fn is_under(pool: &[u8], entry: u32, root: &[u8]) -> bool
    ensures { result ≡ is_under pool.now root.now entry }
{
    if entry < 2 {
        return false;
    }
    let stretch = entry - 2;
    let name = Text {
        start: (stretch / 256 % 65536) as u16,
        len: (stretch % 256) as u8,
    };
    same(bytes_of(pool, name), root)
}

// The first changed type under the root of this name, by its handle.
pub(crate) fn first_touched(pool: &[u8], types: &[u32], cover: &[u32], root: &[u8]) -> Option<u32>
    ensures { result ≡ first_touched pool.now types.now cover.now root.now }
{
    for (handle, entry) in types.iter().zip(cover) {
        if is_under(pool, *entry, root) {
            return Some(*handle);
        }
    }
    None
}
