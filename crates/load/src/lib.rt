// The load: specs/ has the definition of the pairs, proofs/ that each has its outcome.
#![tactic(auto)]

pub mod commands;
pub mod drawn;
pub mod draws;
pub mod outcomes;
pub mod pair;
pub mod root;
pub mod settings;
pub mod streams;
pub mod structures;
