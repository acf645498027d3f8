// A draft held under a name, behind those that stay (02, W-211).
ghost use Rattle.std.specs.Prelude.{◌≡◌, [], ◌++◌};
ghost use Rattle.record.specs.Base.{Str};
ghost use Rattle.record.specs.Fill.{fronted};
ghost use Rattle.record.specs.Reading.{rec};
ghost use Rattle.drafts.specs.Packing.{kept};
ghost use Rattle.drafts.specs.Parts.{parts_of};
ghost use Rattle.drafts.specs.Shelf.{shelve};
ghost use Rattle.drafts.specs.Shelving.{rows_of, covering, shelved_as};
ghost use Rattle.drafts.specs.Holding.{Short, Room, Settable, Behind};

use crate::closing::{close_up, kept_before, moved_starts, sizes_but};
use crate::saying::{done, no_room};
use crate::shelved::{Shelf, ShelfAnswer, set_row, with_shelf};
use crate::store::put_parts;

// Closes the places up and puts a draft behind them, in a buffer that has the room.
fn hold_at(
    held: &mut [u8],
    starts: &[usize],
    sizes: &[usize],
    end: usize,
    stream: &[u8],
    pool: &[u8],
)
    requires { Room starts.now sizes.now held.old end stream.now pool.now }
    ensures { let b : Str = held.old in
        let new : Str = parts_of (rec stream.now pool.now []) in
        held.new ≡ fronted b (kept (covering starts.now sizes.now) 0 b ++ new) }
{
    close_up(held, starts, sizes);
    put_parts(&mut held[end..], stream, pool);
}

// Holds a draft behind the places that stay, where it fits.
fn hold_behind(
    shelf: Shelf,
    row: usize,
    name: &[u8],
    sizes: &[usize],
    end: usize,
    stream: &[u8],
    pool: &[u8],
    held: &mut [u8],
) -> ShelfAnswer
    requires { Behind shelf row name.now held.old sizes.now end × Short stream.now pool.now }
    ensures { let new : Str = parts_of (rec stream.now pool.now []) in
        shelved_as result held.new ≡ shelve name.now new (rows_of shelf) held.old }
{
    let starts = shelf.starts;
    let len = stream.len() + pool.len() + 8;
    let need = end + len;
    if held.len() < need {
        return with_shelf(no_room(need, 0), shelf);
    }
    let moved = moved_starts(&starts, sizes, held.len());
    hold_at(held, &starts, sizes, end, stream, pool);
    with_shelf(done(0), set_row(shelf, moved, row, name, end, len))
}

// Holds a draft under a name in a row, where it fits.
pub(crate) fn hold(
    shelf: Shelf,
    row: usize,
    name: &[u8],
    stream: &[u8],
    pool: &[u8],
    held: &mut [u8],
) -> ShelfAnswer
    requires { Settable shelf row name.now held.old × Short stream.now pool.now }
    ensures { let new : Str = parts_of (rec stream.now pool.now []) in
        shelved_as result held.new ≡ shelve name.now new (rows_of shelf) held.old }
{
    let starts = shelf.starts;
    let sizes = sizes_but(shelf, row);
    let end = kept_before(&starts, &sizes, held.len());
    hold_behind(shelf, row, name, &sizes, end, stream, pool, held)
}
