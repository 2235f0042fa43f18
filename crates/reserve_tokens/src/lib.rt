// The token that a state field holds.
#![tactic(auto)]

pub mod calls;
pub mod guard;
pub mod raise;
pub mod reserve;
