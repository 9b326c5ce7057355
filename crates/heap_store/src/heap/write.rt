//! The changes, over the heap.
ghost use Rattle.std.specs.Prelude.{false};

use crate::heap::HeapStore;
use store::admission::check_addition;
use store::fault::StoreFault;
use store::info::NewFile;
use store::questions::is_taken;
use store::write::WriteStore;

impl WriteStore for HeapStore {
    ghost locked = { λ _. false };

    fn is_locked(&self) -> bool {
        false
    }

    #[tactic(auto, using(crate::proofs::Changes::addition))]
    fn add(&mut self, number: u32, file: &NewFile, bytes: &[u8]) -> Result<(), StoreFault> {
        check_addition(self, number, file, bytes)?;
        self.memory.add(number, file, bytes);
        Ok(())
    }

    #[tactic(auto, unfolding(store::specs::Changes::removed), using(crate::proofs::Changes::goes_soundly))]
    fn remove(&mut self, number: u32) -> Result<(), StoreFault> {
        if !is_taken(self, number) {
            return Err(StoreFault::Absent);
        }
        if self.memory.has_children(number) {
            return Err(StoreFault::HasChildren);
        }
        self.memory.remove(number);
        Ok(())
    }
}
