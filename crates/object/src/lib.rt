//! What every stored object has: a legal name, a format and a protection.
#![tactic(auto)]

pub mod format;
pub mod name;
pub mod protection;
