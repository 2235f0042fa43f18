// The tokens that fund a map, and what is the same for all entries of a file.
#![tactic(auto)]

pub mod facts;
pub mod funder;
pub mod funding;
pub mod ledger;
pub mod token;
