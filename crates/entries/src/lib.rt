// An entry as a value.
#![tactic(auto)]

pub mod calls;
pub mod entry;
