//! A store in lent memory whose files' bytes lie one behind another, without gaps.
#![tactic(auto)]

mod changes;
mod gap;
pub mod packed_store;
