// The tokens that entries are known to hold, and what comes in with an asset parameter.
#![tactic(auto)]

pub mod entry;
pub mod inflow;
pub mod naming;
pub mod number;
pub mod set;
pub mod token;
