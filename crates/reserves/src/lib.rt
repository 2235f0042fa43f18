// The state fields that cover a payout.
#![tactic(auto)]

pub mod ahead;
pub mod covering;
pub mod holding;
pub mod reading;
pub mod state;
