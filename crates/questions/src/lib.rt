// Questions 1 to 8: any bytes, one answer.
#![tactic(auto)]

pub mod check;
mod comparison;
pub mod content;
pub mod file;
pub mod names;
pub mod question;
