// Texts as bytes: numbers read from them, whether two are the same, and their letters in UTF-8.
#![tactic(auto)]

pub mod back;
pub mod le;
pub mod utf8;
