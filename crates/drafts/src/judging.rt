// An addition judged: a record of a head, one type with its parts, and the end.
ghost use Rattle.std.specs.Prelude.{◌≡◌, []};
ghost use Rattle.record.specs.Reading.{rec};
ghost use Rattle.record.specs.Read.{outcome_of};
ghost use Rattle.drafts.specs.Addition.{may_add, addition};
ghost use Rattle.drafts.specs.Judging.{is_first, is_vast, commands_read, refused_at, onward, misfit, Shaped};

use crate::find::{is_part, is_type};
use record::le::byte_at;
use record::letters::odd_letter;
use record::read::read_record;
use record::refusal::{Refusal, Side};
use record::seek::after_at;

// What may stand in an addition after the command of a number.
fn may_add(last: u8, byte: u8) -> bool
    ensures { result ≡ may_add last byte }
{
    if last == 0 {
        return byte == 1;
    }
    if last == 1 {
        return is_type(byte);
    }
    is_part(byte) || byte == 15
}

// The refusals that go before 3.
fn is_first(refusal: Refusal) -> bool
    ensures { result ≡ is_first refusal }
{
    matches!(refusal, Refusal::Cut | Refusal::Unknown)
}

// Whether a refusal is 9.
fn is_vast(refusal: Refusal) -> bool
    ensures { result ≡ is_vast refusal }
{
    matches!(refusal, Refusal::Vast)
}

// What a reading says of the commands alone: 9 comes after all of them.
fn commands_read(read: Result<(), (Refusal, usize)>) -> Result<(), (Refusal, usize)>
    ensures { result ≡ commands_read read }
{
    match read {
        Ok(()) => Ok(()),
        Err((refusal, place)) => {
            if is_vast(refusal) {
                Ok(())
            } else {
                Err((refusal, place))
            }
        }
    }
}

// Whether a reading is refused at a place.
fn refused_at(plain: Result<(), (Refusal, usize)>, at: usize) -> bool
    ensures { result ≡ refused_at plain at }
{
    match plain {
        Ok(()) => false,
        Err((_, place)) => place == at,
    }
}

// The place after the command at a place; 0 where the reading or the commands end.
fn onward(stream: &[u8], plain: Result<(), (Refusal, usize)>, at: usize) -> usize
    ensures { result ≡ onward stream.now plain at }
{
    if refused_at(plain, at) {
        return 0;
    }
    after_at(stream, at)
}

// A command out of shape is 3, unless the reading refuses it by 2 or 1.
fn misfit(plain: Result<(), (Refusal, usize)>, at: usize) -> Result<(), (Refusal, usize)>
    ensures { result ≡ misfit plain at }
{
    let Err((refusal, place)) = plain else {
        return Err((Refusal::Misplaced, at));
    };
    if is_first(refusal) && place == at {
        return Err((refusal, place));
    }
    Err((Refusal::Misplaced, at))
}

// Goes along the commands that a current record's reading has passed, to the first that is out of an addition's shape.
fn read_shape(stream: &[u8], plain: Result<(), (Refusal, usize)>) -> Result<(), (Refusal, usize)>
    ensures { Shaped stream.now plain result }
{
    let mut at = 0;
    let mut last = 0;
    loop {
        let byte = byte_at(stream, at);
        if may_add(last, byte) {
            let after = onward(stream, plain, at);
            if after == 0 {
                return plain;
            }
            at = after;
            last = byte;
        } else {
            return misfit(plain, at);
        }
    }
}

// Reads an addition: 8, 7, then its commands. Its sizes are not judged. Its commands are read as a record's and not judged here one by one: a
// second caller of the judgement of a command would make the compiler put a call into the check's reading.
pub(crate) fn read_addition(rows: &[u8], stream: &[u8], pool: &[u8]) -> Result<(), (Refusal, usize)>
    ensures { result ≡ outcome_of (addition (rec stream.now pool.now [])) }
{
    if 32768 < stream.len() || 16384 < pool.len() {
        return Err((Refusal::Long, 0));
    }
    if let Some(i) = odd_letter(pool) {
        return Err((Refusal::Letter, i));
    }
    let read = read_record(Side::Current, rows, stream, pool);
    read_shape(stream, commands_read(read))
}
