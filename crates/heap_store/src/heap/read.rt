//! The reading questions, over the heap.
ghost use Rattle.heap_store.specs.Held.{held, held_sound};

use crate::heap::HeapStore;
use byte_parts::copy::copy_fitting;
use store::info::FileInfo;
use store::read::ReadStore;

impl ReadStore for HeapStore {
    ghost contents = { held };

    ghost sound = { held_sound };

    fn capacity(&self) -> u32 {
        self.capacity
    }

    fn limit(&self) -> u32 {
        self.limit
    }

    fn total(&self) -> u32 {
        self.memory.total() as u32
    }

    fn count(&self) -> u32 {
        self.memory.count() as u32
    }

    fn next_above(&self, number: u32) -> Option<u32> {
        self.memory.next_above(number)
    }

    fn describe(&self, number: u32) -> Option<FileInfo> {
        self.memory.describe(number)
    }

    fn copy(&self, number: u32, offset: u32, into: &mut [u8]) -> usize {
        let bytes = self.memory.bytes_of(number);
        let skipped = bytes.len().min(offset as usize);
        copy_fitting(&bytes[skipped..], into)
    }
}
