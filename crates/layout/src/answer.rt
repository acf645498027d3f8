// What the calls answer: 01's number, side, place and length of the text.
ghost use Rattle.record.specs.Base.{Str};
ghost use Rattle.layout.specs.Answer.{refusal_of, Answered};

use record::refusal::{Refusal, Side};

#[repr(C)]
#[derive(Clone, Copy, PartialEq, Eq)]
pub struct Answer {
    pub number: u32,
    pub side: u32,
    pub place: usize,
    pub len: usize,
}

// A record that is refused: nothing is written.
pub fn refused(side: Side, refusal: Refusal, place: usize) -> Answer
    ensures { (out : Str) → Answered out out (refusal_of side refusal place) result }
{
    Answer {
        number: refusal.number(),
        side: side.number(),
        place,
        len: 0,
    }
}
