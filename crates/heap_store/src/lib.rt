//! A writing store over the heap. It takes all its memory when it is made, so that it never wants for any later.
#![tactic(auto)]

pub mod heap;
mod memory;
mod row;
mod splice;
