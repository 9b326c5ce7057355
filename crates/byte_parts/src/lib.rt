//! Bytes: little-endian numbers, parts of a slice, and copies into lent memory.
#![tactic(auto)]

pub mod copy;
pub mod cut;
pub mod number;
