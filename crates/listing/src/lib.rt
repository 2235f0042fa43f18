// The listing of a file.
#![tactic(auto)]

pub mod lines;
mod records;
pub mod text;
