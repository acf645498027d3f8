// Pointers that point somewhere: the check that every pointer of a current record names what it must (02, W-212).
#![tactic(auto)]

pub mod check;
pub mod rule;
