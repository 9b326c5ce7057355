//! Whether two stores, or two pairs of storages, hold the same.
#![tactic(auto)]

mod bytes;
pub mod contents;
mod files;
pub mod storages;
