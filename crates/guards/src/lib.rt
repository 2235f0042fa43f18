// A payout's token and amount, the guards that bound an amount, and the assignments that lower a state field by it.
#![tactic(auto)]

pub mod contained;
pub mod guarded;
pub mod lowering;
pub mod payout;
