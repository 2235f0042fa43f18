// Where a state field starts, and what raises it.
#![tactic(auto)]

pub mod assignment;
pub mod raise;
pub mod zero;
