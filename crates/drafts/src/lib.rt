// Drafts: types that come and go, with the number of layouts changed beside them (02, W-210), and drafts under names (02, W-211).
#![tactic(auto)]

pub mod adding;
pub mod changes;
pub mod closing;
pub mod draft;
pub mod editing;
pub mod find;
pub mod held;
pub mod holding;
pub mod judging;
pub mod marking;
pub mod names;
pub mod opening;
pub mod pack;
pub mod places;
pub mod row;
pub mod saying;
pub mod shelf;
pub mod shelved;
pub mod store;
pub mod writing;
