// Payout by payout, the cover of each.
#![tactic(auto)]

pub mod answer;
pub mod payout;
