//! The form of an image: files as tagged fields, one behind the other.
#![tactic(auto)]

pub mod fault;
mod field;
pub mod layout;
pub mod open;
pub mod seek;
