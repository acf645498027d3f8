// A record in a lent buffer, in parts: the length and the bytes of its stream, then of its pool.
ghost use Rattle.std.specs.Prelude.{◌≡◌};
ghost use Rattle.record.specs.Scalars.{scalars_of};
ghost use Rattle.drafts.specs.Parts.{stated, part, after_part};
ghost use Rattle.drafts.specs.Code.{HeldRead};

use record::cut;
use record::le::u32_at;
use record::read::read_record;
use record::refusal::{Refusal, Side};

// The length that stands before a part; a cut one counts as 0.
pub fn stated(b: &[u8]) -> usize
    ensures { result ≡ stated b.now }
{
    if b.len() < 4 {
        return 0;
    }
    u32_at(b, 0) as usize
}

// The bytes of a part; one that ends early counts as the bytes that came.
pub fn part(b: &[u8]) -> &[u8]
    ensures { result.now ≡ part b.now }
{
    cut::upto(cut::from(b, 4), stated(b))
}

// What follows a part.
pub fn after_part(b: &[u8]) -> &[u8]
    ensures { result.now ≡ after_part b.now }
{
    cut::from(cut::from(b, 4), stated(b))
}

// Reads the record in a buffer as current. A stated length above its limit is 8 even where the part ends early.
pub fn read_held(rows: &[u8], b: &[u8]) -> Result<(), (Refusal, usize)>
    ensures { HeldRead (scalars_of rows.now) b.now result }
{
    if 32768 < stated(b) {
        return Err((Refusal::Long, 0));
    }
    let rest = after_part(b);
    if 16384 < stated(rest) {
        return Err((Refusal::Long, 0));
    }
    read_record(Side::Current, rows, part(b), part(rest))
}
