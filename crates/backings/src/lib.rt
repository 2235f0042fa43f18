// The backings of an entry by number, and which of them are free.
#![tactic(auto)]

pub mod backing;
pub mod marks;
