//! A read-only store in an image of tagged fields.
#![tactic(auto)]

pub mod image_store;
pub mod samples;
