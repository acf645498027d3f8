// The verdicts of the comparison and their messages.
#![tactic(auto)]

pub mod arguments;
pub mod messages;
pub mod template;
pub mod verdict;
