// The first four bytes of names, in a table that the caller lends: most names that differ do so there, and numbers are compared faster than texts.
ghost use Rattle.std.specs.Prelude.{ℕ, ◌≡◌};
ghost use Rattle.record.specs.Base.{Str, before};
ghost use Rattle.record.specs.Marks.{Clear};
ghost use Rattle.layout.specs.Handles.{type_name};
ghost use Rattle.layout.specs.Fronts.{FrontPut, FrontRead, Fronts};

use crate::names::{family_part, name_at, place_part, type_before};
use record::words::front_of;

// Above every front: it has four bytes.
const FRONTS_END: u64 = 4294967296;

// Puts the front of the name at a place, with the place. A command takes four bytes at least, so no two types have one entry: their place divided
// by four.
fn put_front(fronts: &mut [u64], place: usize, front: u64)
    ensures { FrontPut fronts.old place front fronts.new }
{
    if 65536 <= place || FRONTS_END <= front {
        return;
    }
    let entry = place / 4;
    if fronts.len() <= entry {
        return;
    }
    fronts[entry] = front * 131072 + (place as u64) + 1;
}

// The front of the name at a place, where the table has it.
fn front_at(fronts: &[u64], place: usize) -> Option<u64>
    ensures { FrontRead fronts.now place result }
{
    let e = *fronts.get(place / 4)?;
    if 65536 <= place || e % 131072 != (place as u64) + 1 {
        return None;
    }
    Some(e / 131072)
}

// The fronts of the names of some types, in a table without entries.
pub(crate) fn fill_fronts(stream: &[u8], pool: &[u8], handles: &[u32], fronts: &mut [u64])
    requires { Clear fronts.old }
    ensures { Fronts stream.now pool.now fronts.new }
{
    for handle in handles {
        let place = place_part(*handle);
        put_front(fronts, place, front_of(name_at(stream, pool, place)));
    }
}

// Whether one type's name goes before another's, by the table where it tells.
pub(crate) fn fronted_before(stream: &[u8], pool: &[u8], fronts: &[u64], g: u32, h: u32) -> bool
    requires { Fronts stream.now pool.now fronts.now }
    ensures { let key : ℕ → Str = type_name stream.now pool.now in
        result ≡ before (key g) (key h) }
{
    if family_part(g) == family_part(h) {
        let a = front_at(fronts, place_part(g));
        let b = front_at(fronts, place_part(h));
        if let (Some(x), Some(y)) = (a, b) {
            if x != y {
                return x < y;
            }
        }
    }
    type_before(stream, pool, g, h)
}
