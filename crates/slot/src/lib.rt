//! A store in lent memory with a slot of 32,768 bytes for each file. Adding and removing move no file's bytes.
#![tactic(auto)]

mod changes;
mod prepare;
pub mod slot_store;
