// The model file as fields: a one-byte tag, a two-byte length (most significant byte first), that many content bytes.
#![tactic(auto)]

pub mod bytes;
pub mod field;
pub mod front;
pub mod named;
pub mod number;
pub mod row;
pub mod table;
