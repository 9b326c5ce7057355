//! Datasets as records.
use object::name::Name;
use object::protection::Protection;

/// What an ObjectInfo dataset says of an object. `parent` is a handle, or 0 at the root.
#[derive(Clone, Copy, PartialEq, Eq)]
pub struct ObjectInfo {
    pub storage: u32,
    pub format: u16,
    pub protection: Protection,
    pub size: u32,
    pub parent: u32,
    pub name: Name,
}

/// What a StorageInfo dataset says of a storage.
#[derive(Clone, Copy, Debug, PartialEq, Eq)]
pub struct StorageInfo {
    pub kind: StorageKind,
    pub writable: bool,
    pub capacity: u64,
    pub free_bytes: u64,
    pub free_objects: u32,
}

/// The two storages: the one that can be written, and the read-only one. Each has its storage type's number.
#[derive(Clone, Copy, Debug, PartialEq, Eq)]
pub enum StorageKind {
    Programs = 3,
    Handbook = 1,
}
