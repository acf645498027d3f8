// The check of a current record's pointers: its refusals first, then its fields in the order of the stream (02, W-212).
ghost use Rattle.std.specs.Prelude.{◌≤◌, length, ◌+◌, ◌/◌, ◌<◌};
ghost use Rattle.record.specs.Scalars.{built_in};
ghost use Rattle.record.specs.Reading.{rec};
ghost use Rattle.record.specs.Index.{Indexed, IndexRoom};
ghost use Rattle.pointers.specs.Pointers.{pointers, fault_from, Answers};

use crate::rule::field_fault;
use layout::answer::{Answer, refused};
use record::index::fill_index;
use record::read::read_record;
use record::refusal::Side;
use record::scalars::built_in;
use record::seek::{Between, seek};

// The first field that breaks the rule, by the index of the record's names.
fn first_fault(stream: &[u8], pool: &[u8], index: &[u16]) -> Answer
    requires { Indexed stream.now pool.now index.now }
    ensures { Answers (fault_from stream.now pool.now 0) result }
{
    let mut at = 0;
    loop {
        let Some((place, after)) = seek(stream, at, 11, Between::Anything) else {
            return Answer {
                number: 0,
                side: 0,
                place: 0,
                len: 0,
            };
        };
        if let Some(number) = field_fault(stream, pool, index, place) {
            return Answer {
                number,
                side: 0,
                place,
                len: 0,
            };
        }
        at = after;
    }
}

// Fills the index that it is lent, and looks by it.
fn check_lent(stream: &[u8], pool: &[u8], index: &mut [u16]) -> Answer
    requires { (length stream.now ≤ 32768) × IndexRoom stream.now index.old }
    ensures { Answers (fault_from stream.now pool.now 0) result }
{
    fill_index(stream, pool, index);
    first_fault(stream, pool, index)
}

// With an index for a stream of its length, since clearing one for the longest takes longer than the answer of a short one.
fn check_sized<const INDEX: usize>(stream: &[u8], pool: &[u8]) -> Answer
    requires { (length stream.now ≤ 32768) × (256 + length stream.now / 7 < INDEX) × (INDEX ≤ 4938) }
    ensures { Answers (fault_from stream.now pool.now 0) result }
{
    let mut index = [0u16; INDEX];
    check_lent(stream, pool, &mut index)
}

// Whether the pointers of a current record name what they must: 0, the record's refusal, or 59 or 60 with the place of the first field that breaks
// this.
pub fn check_pointers(stream: &[u8], pool: &[u8]) -> Answer
    ensures { Answers (pointers (rec stream.now pool.now built_in)) result }
{
    let rows = built_in();
    if let Err((refusal, place)) = read_record(Side::Current, &rows, stream, pool) {
        return refused(Side::Current, refusal, place);
    }
    if stream.len() <= 2048 {
        return check_sized::<549>(stream, pool);
    }
    check_sized::<4938>(stream, pool)
}
