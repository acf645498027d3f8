// The length of the lines of fields, by their operands: nothing is put.
ghost use Rattle.std.specs.Prelude.{◌≤◌, ◌≡◌, [], length};
ghost use Rattle.record.specs.Base.{Str};
ghost use Rattle.record.specs.Commands.{place};
ghost use Rattle.layout.specs.Listing.{line_of};
ghost use Rattle.layout.specs.Lines.{LinesFrom};
ghost use Rattle.layout.specs.Names.{name_of};
ghost use Rattle.layout.specs.Spots.{place_at, cursor_at};
ghost use Rattle.layout.specs.declared.spots.SpotCursor.{SpotCursor};
ghost use Rattle.layout.specs.declared.spots.Ahead.TheVariants.{Body};

use crate::field_sizes::size_before;
use crate::names::{TypeName, name_len};
use record::cut;
use record::describe::shape_len;
use record::operands::text_at;
use record::seek::{Between, seek};
use record::sizes::sum;
use record::text::bytes_of;
use record::writer::{after, number_len};

// The length of a field's line without the name of its type, from the bytes that begin with the field's command.
fn field_len(pool: &[u8], s: &[u8], offset: u64, size: u64) -> usize
    ensures { (result ≡ length (line_of [] (place_at pool.now s.now offset size))) × (result ≤ 859) }
{
    let name = bytes_of(pool, text_at(s, 1)).len();
    let digits = number_len(offset) + number_len(size);
    name + digits + shape_len(pool, s) + 5
}

// Where the lines of a record's fields from a place on end, if they begin at a place of a buffer.
pub(crate) fn measure_fields(
    at: usize,
    stream: &[u8],
    pool: &[u8],
    sizes: &[u64],
    owner: TypeName,
    from: usize,
    start: u64,
) -> usize
    ensures { let p : Str = pool.now in
        let ahead : SpotCursor = cursor_at (Body (place from)) start in
        LinesFrom stream.now p sizes.now (name_of p owner) ahead [] at [] result }
{
    let n = name_len(pool, owner);
    let mut end = at;
    let mut next = from;
    let mut offset = start;
    while let Some((here, past)) = seek(stream, next, 11, Between::Keys) {
        let size = size_before(sizes, past);
        let rest = field_len(pool, cut::from(stream, here), offset, size);
        end = after(end, n + rest);
        offset = sum(offset, size);
        next = past;
    }
    end
}
