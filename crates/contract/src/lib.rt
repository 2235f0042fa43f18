// The verdicts on all entries of a file at once.
#![tactic(auto)]

pub mod records;
