//! The operations that only look: they ask two stores of any makes, and write what they found into the caller's buffer.
#![tactic(auto)]

mod listing;
mod objects;
pub mod outcome;
pub mod pair;
pub mod place;
pub mod storages;
