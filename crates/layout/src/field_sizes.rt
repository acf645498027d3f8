// The sizes of a record's fields, each computed once, in a table that the caller lends.
ghost use Rattle.std.specs.Prelude.{◌/◌, ◌≡◌, get_or, set};
ghost use Rattle.record.specs.Scalars.{scalars_of};
ghost use Rattle.record.specs.Index.{Findable};
ghost use Rattle.record.specs.Reading.{Rec, rec};
ghost use Rattle.layout.specs.Room.{SizesRoom};
ghost use Rattle.layout.specs.FieldSizes.{SizesTable};

use record::cut;
use record::seek::{Between, seek};
use record::sizes::field_size;

// A field takes 33 bytes of the stream, so no two fields have one entry: the place after a field divided by 33.
fn put_size(sizes: &mut [u64], after: usize, size: u64)
    ensures { sizes.new ≡ set sizes.old (after / 33) size }
{
    let entry = after / 33;
    if entry < sizes.len() {
        sizes[entry] = size;
    }
}

// The size of the field before a place; a table that is too short has 0 for it.
pub fn size_before(sizes: &[u64], after: usize) -> u64
    ensures { result ≡ get_or sizes.now (after / 33) 0 }
{
    sizes.get(after / 33).copied().unwrap_or(0)
}

// The sizes of all fields.
pub fn fill_sizes(rows: &[u8], stream: &[u8], pool: &[u8], index: &[u16], sizes: &mut [u64])
    requires { Findable stream.now pool.now index.now × SizesRoom stream.now sizes.old }
    ensures { let cur : Rec = rec stream.now pool.now (scalars_of rows.now) in
        SizesTable cur sizes.new }
{
    let mut at = 0;
    while let Some((place, after)) = seek(stream, at, 11, Between::Anything) {
        put_size(
            sizes,
            after,
            field_size(rows, stream, pool, index, cut::from(stream, place)),
        );
        at = after;
    }
}
