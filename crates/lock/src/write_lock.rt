//! A write lock: the store below it, locked if that is or the lock is set.
ghost use Rattle.std.specs.Prelude.{◌≡◌, Bool, true, false, ◌||◌};

use store::fault::StoreFault;
use store::info::{FileInfo, NewFile};
use store::read::ReadStore;
use store::write::WriteStore;

/// A lock over a store that it only borrows. It is a writing store itself, so a lock may lie over a lock.
#[derive(Drop)]
pub struct WriteLock<'a, S> {
    below: &'a mut S,
    set: bool,
}

impl<'a, S> WriteLock<'a, S> {
    /// A lock over `below`, not set.
    pub fn new(below: &'a mut S) -> WriteLock<'a, S>
        ensures below { result.below.now ≡ below.old }
        ensures set { result.set ≡ false }
        ensures lender { result.below.ghost_name ≡ below.entry.ghost_name }
    {
        WriteLock { below, set: false }
    }

    /// Sets the lock or takes it off. The store below stays as it is.
    pub fn set_to(&mut self, set: bool)
        ensures below { self.new.below.now ≡ self.old.below.now }
        ensures set { self.new.set ≡ set }
        ensures lender { self.new.below.ghost_name ≡ self.old.below.ghost_name }
    {
        self.set = set;
    }
}

impl<'a, S: WriteStore> ReadStore for WriteLock<'a, S> {
    ghost contents = { λ l. S.ReadStore.contents l.below.now };

    ghost sound = { λ l. S.ReadStore.sound l.below.now };

    fn capacity(&self) -> u32 {
        self.below.capacity()
    }

    fn limit(&self) -> u32 {
        self.below.limit()
    }

    fn total(&self) -> u32 {
        self.below.total()
    }

    fn count(&self) -> u32 {
        self.below.count()
    }

    fn next_above(&self, number: u32) -> Option<u32> {
        self.below.next_above(number)
    }

    fn describe(&self, number: u32) -> Option<FileInfo> {
        self.below.describe(number)
    }

    fn copy(&self, number: u32, offset: u32, into: &mut [u8]) -> usize {
        self.below.copy(number, offset, into)
    }
}

impl<'a, S: WriteStore> WriteStore for WriteLock<'a, S> {
    ghost locked = { λ l. l.set || S.WriteStore.locked l.below.now };

    fn is_locked(&self) -> bool {
        self.set || self.below.is_locked()
    }

    #[tactic(auto, unfolding(store::specs::Changes::added))]
    fn add(&mut self, number: u32, file: &NewFile, bytes: &[u8]) -> Result<(), StoreFault> {
        if self.set {
            return Err(StoreFault::ReadOnly);
        }
        self.below.add(number, file, bytes)
    }

    #[tactic(auto, unfolding(store::specs::Changes::removed))]
    fn remove(&mut self, number: u32) -> Result<(), StoreFault> {
        if self.set {
            return Err(StoreFault::ReadOnly);
        }
        self.below.remove(number)
    }
}
