// The whole reading of a record: 8, then 7, then the commands from the front, then 9.
ghost use Rattle.std.specs.Prelude.{◌≡◌, length};
ghost use Rattle.record.specs.Scalars.{scalars_of};
ghost use Rattle.record.specs.Commands.{start};
ghost use Rattle.record.specs.Reading.{Rec, rec};
ghost use Rattle.record.specs.Read.{outcome_of, parsed_from, Read};

use crate::command::Cursor;
use crate::letters::odd_letter;
use crate::refusal::{Refusal, Side};
use crate::vast::vast_type;

// The longest stream and the longest pool.
const STREAM_LIMIT: usize = 32768;

const POOL_LIMIT: usize = 16384;

// Judges the commands from the front.
fn read_commands(side: Side, stream: &[u8], pool: &[u8]) -> Result<(), (Refusal, usize)>
    ensures { result ≡ outcome_of (parsed_from side stream.now pool.now start) }
{
    let mut cursor = Cursor::new();
    while let Some((_, after)) = cursor.judged(side, stream, pool)? {
        cursor = after;
    }
    Ok(())
}

// Reads a record as one side, under a table of scalar words. One that can be read has the schema that the unjudged lists give.
pub fn read_record(
    side: Side,
    rows: &[u8],
    stream: &[u8],
    pool: &[u8],
) -> Result<(), (Refusal, usize)>
    ensures { let cur : Rec = rec stream.now pool.now (scalars_of rows.now) in
        Read side cur result }
{
    if STREAM_LIMIT < stream.len() {
        return Err((Refusal::Long, 0));
    }
    if POOL_LIMIT < pool.len() {
        return Err((Refusal::Long, 0));
    }
    if let Some(i) = odd_letter(pool) {
        return Err((Refusal::Letter, i));
    }
    if let Err((refusal, place)) = read_commands(side, stream, pool) {
        return Err((refusal, place));
    }
    if let Some(place) = vast_type(rows, stream, pool) {
        return Err((Refusal::Vast, place));
    }
    Ok(())
}
