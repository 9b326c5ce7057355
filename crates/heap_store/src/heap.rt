//! The store.
ghost use Rattle.std.specs.Prelude.{◌≤◌};
ghost use Rattle.store.specs.Sound.{Sound};
ghost use Rattle.heap_store.specs.InMemory.{holding};

use crate::memory::Memory;

pub mod make;
pub mod read;
pub mod write;

/// A store that owns its memory. Its facts: what it holds is sound, and there is memory for as many files and bytes as it
/// may hold.
#[derive(Drop)]
pub struct HeapStore {
    memory: Memory,
    limit: u32,
    capacity: u32,
    ghost sound: { ∥ Sound (holding capacity limit memory.files) ∥₁ },
    ghost row_room: { limit ≤ memory.row_room },
    ghost byte_room: { capacity ≤ memory.byte_room },
}
