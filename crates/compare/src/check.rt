// The check: both records read, the passes, and the verdict as an answer with its message in the lent buffer.
ghost use Rattle.verdicts.specs.Meaning.{meaning};
ghost use Rattle.std.specs.Prelude.{length};
ghost use Rattle.layout.specs.Answer.{Answered};
ghost use Rattle.record.specs.Scalars.{built_in};
ghost use Rattle.record.specs.Reading.{Rec, rec};
ghost use Rattle.definition.specs.Answer.{verdict_of, check};

use crate::catalog::Record;
use crate::compare::compare;
use layout::answer::{Answer, refused};
use record::read::read_record;
use record::refusal::Side;
use record::scalars::built_in;
use verdicts::messages::write_verdict;
use verdicts::verdict::{Verdict, number_found};

// Answers a verdict, with its message in the lent buffer.
fn answer_verdict(
    out: &mut [u8],
    found: Result<(), Verdict>,
    pool: &[u8],
    old_pool: &[u8],
) -> Answer
    ensures { Answered out.old out.new
        (verdict_of (length out.old) (meaning pool.now old_pool.now found)) result }
{
    let number = number_found(found);
    match write_verdict(out, found, pool, old_pool) {
        Ok(n) => Answer {
            number,
            side: 0,
            place: 0,
            len: n,
        },
        Err(n) => Answer {
            number: 10,
            side: 0,
            place: 0,
            len: n,
        },
    }
}

// Checks a current record against a released one, with the message of a verdict in the lent buffer.
pub fn check(
    stream: &[u8],
    pool: &[u8],
    old_stream: &[u8],
    old_pool: &[u8],
    out: &mut [u8],
) -> Answer
    ensures { let cur : Rec = rec stream.now pool.now built_in in
        let rel : Rec = rec old_stream.now old_pool.now built_in in
        Answered out.old out.new (check (length out.old) cur rel) result }
{
    let rows = built_in();
    if let Err((refusal, place)) = read_record(Side::Current, &rows, stream, pool) {
        return refused(Side::Current, refusal, place);
    }
    if let Err((refusal, place)) = read_record(Side::Released, &rows, old_stream, old_pool) {
        return refused(Side::Released, refusal, place);
    }
    let current = Record { stream, pool };
    let released = Record {
        stream: old_stream,
        pool: old_pool,
    };
    let found = compare(&rows, &current, &released);
    answer_verdict(out, found, pool, old_pool)
}
