//! Lent memory: what is in use of it, and the questions that it answers for the stores that lie in it.
#![tactic(auto)]

pub mod files;
pub mod memory;
