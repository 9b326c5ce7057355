//! Datasets: what an ObjectInfo, a StorageInfo and the DeviceInfo say, and their bytes.
#![tactic(auto)]

pub mod device;
pub mod info;
pub mod read;
mod text;
pub mod write;
