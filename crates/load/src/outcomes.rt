// The outcomes that a pair can have.
ghost use Rattle.std.specs.Prelude.{◌≡◌, MatchOption, None, Some};
ghost use Rattle.load.specs.Load.{outcome_at};

#[derive(Clone, Copy)]
pub enum Outcome {
    Accepted,
    ConstantGone,
    FieldGone,
    FieldMoved,
    FieldResized,
    Unraised,
}

impl Outcome {
    // The outcome that a number asks for.
    pub(crate) fn numbered(n: u32) -> Option<Outcome>
        ensures { MatchOption result (outcome_at n ≡ None) (λ o. outcome_at n ≡ Some o) }
    {
        match n {
            0 => Some(Outcome::Accepted),
            20 => Some(Outcome::ConstantGone),
            34 => Some(Outcome::FieldGone),
            35 => Some(Outcome::FieldMoved),
            36 => Some(Outcome::FieldResized),
            43 => Some(Outcome::Unraised),
            _ => None,
        }
    }
}
