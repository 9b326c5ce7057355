//! Stores: what a store holds, what it can be asked, how it changes, and what every store keeps to.
#![tactic(auto)]

pub mod admission;
pub mod fault;
pub mod info;
pub mod laws;
pub mod limits;
pub mod questions;
pub mod read;
pub mod walk;
pub mod write;
