//! A lock over a writing store.
#![tactic(auto)]

pub mod uses;
pub mod write_lock;
