// The expressions of an entry's body, and the shapes of a call.
#![tactic(auto)]

pub mod backer;
pub mod parameters;
pub mod peel;
pub mod shape;
pub mod walk;
