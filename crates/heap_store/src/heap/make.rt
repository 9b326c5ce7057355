//! Making a store.
ghost use Rattle.heap_store.specs.Made.{Made};
ghost use Rattle.heap_store.specs.declared.heap.make.NoStore.TheVariants.{OutOfMemory};
ghost use Rattle.std.specs.Prelude.{◌≡◌};

use crate::heap::HeapStore;
use crate::memory::Memory;
use std::alloc::{AllocError, Global};
use store::limits::are_legal_sizes;

/// Why no store was made.
#[derive(Clone, Copy, PartialEq, Eq, Debug)]
pub enum NoStore {
    /// There is too little memory.
    OutOfMemory,
    /// The limit or the capacity is above what a store may have.
    WrongSize,
}

impl From<AllocError> for NoStore {
    ghost from_gives = { λ _ r. r ≡ OutOfMemory };

    fn from(_e: AllocError) -> NoStore {
        NoStore::OutOfMemory
    }
}

impl HeapStore {
    /// An empty store with places for `limit` files of at most `capacity` bytes in all. It takes all its memory here.
    pub fn new(heap: Global, limit: u32, capacity: u32) -> Result<HeapStore, NoStore>
        ensures { Made limit capacity result }
    {
        if !are_legal_sizes(limit as usize, capacity as usize) {
            return Err(NoStore::WrongSize);
        }
        let memory = Memory::new(heap, limit, capacity)?;
        Ok(HeapStore {
            memory,
            limit,
            capacity,
        })
    }
}
