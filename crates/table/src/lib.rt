//! Files in lent memory: a table of rows by ascending number, and one run of bytes in which the files lie.
#![tactic(auto)]

pub mod area;
pub mod fault;
pub mod part;
pub mod place;
pub mod rows;
pub mod search;
