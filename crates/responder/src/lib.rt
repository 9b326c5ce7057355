//! The responder: the code that serves the cable, over any two stores.
#![tactic(auto)]

mod checks;
pub mod command;
pub mod reply;
pub mod responder;
pub mod session;
