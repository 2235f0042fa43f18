// The verdict on an entry, and what is written.
#![tactic(auto)]

pub mod entry;
pub mod file;
pub mod numbers;
pub mod sheet;
