//! The session machine as definitions (`specs/`), the types that it shares with the code, and its laws.
#![tactic(auto)]

pub mod fault;
pub mod laws;
pub mod samples;
pub mod session;
