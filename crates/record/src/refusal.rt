// How a record is read, and why it is refused.
ghost use Rattle.std.specs.Prelude.{◌≡◌};
ghost use Rattle.record.specs.Refusals.{refusal_number, side_number};

// A record is read as the one about to ship, or as the copy of the last release.
#[derive(Clone, Copy)]
pub enum Side {
    Current = 0,
    Released = 1,
}

impl Side {
    pub fn number(self) -> u32
        ensures { result ≡ side_number self }
    {
        self as u32
    }
}

#[derive(Clone, Copy)]
pub enum Refusal {
    Cut = 1,
    Unknown = 2,
    Misplaced = 3,
    Outside = 4,
    Missing = 5,
    Flag = 6,
    Letter = 7,
    Long = 8,
    Vast = 9,
}

impl Refusal {
    pub fn number(self) -> u32
        ensures { result ≡ refusal_number self }
    {
        self as u32
    }
}
