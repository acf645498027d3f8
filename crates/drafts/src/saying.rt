// What the calls of a draft answer.
ghost use Rattle.drafts.specs.Edits.{refused, declined, no_room, done};
ghost use Rattle.drafts.specs.Answering.{Says};

use layout::answer::Answer;
use record::refusal::Refusal;

// Number, side, place and length, and the count kept beside the draft.
#[repr(C)]
#[derive(Clone, Copy, PartialEq, Eq)]
pub struct DraftAnswer {
    pub answer: Answer,
    pub changed: usize,
}

// A record that is refused.
pub(crate) fn refusal(side: u32, refusal: Refusal, place: usize, changed: usize) -> DraftAnswer
    ensures { Says result (refused side refusal place changed) }
{
    DraftAnswer {
        answer: Answer {
            number: refusal.number(),
            side,
            place,
            len: 0,
        },
        changed,
    }
}

// An edit that is refused by its own number.
pub(crate) fn declined(number: u32, changed: usize) -> DraftAnswer
    ensures { Says result (declined number changed) }
{
    DraftAnswer {
        answer: Answer {
            number,
            side: 0,
            place: 0,
            len: 0,
        },
        changed,
    }
}

// A buffer that is too small, with the length needed.
pub(crate) fn no_room(need: usize, changed: usize) -> DraftAnswer
    ensures { Says result (no_room need changed) }
{
    DraftAnswer {
        answer: Answer {
            number: 10,
            side: 0,
            place: 0,
            len: need,
        },
        changed,
    }
}

// No refusal.
pub(crate) fn done(changed: usize) -> DraftAnswer
    ensures { Says result (done changed) }
{
    DraftAnswer {
        answer: Answer {
            number: 0,
            side: 0,
            place: 0,
            len: 0,
        },
        changed,
    }
}
