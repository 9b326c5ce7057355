//! The changes that a store takes.
ghost use Rattle.std.specs.Prelude.{◌≡◌, Bool};
ghost use Rattle.store.specs.Changes.{added, removed};
ghost use Rattle.store.specs.Changing.{file_of, result_of, contents_after};

use crate::fault::StoreFault;
use crate::info::NewFile;
use crate::read::ReadStore;

/// A store that can be changed, unless it is locked. A refusal alters nothing, and a store refuses for no other cause than the
/// definitions of adding and removing give.
pub trait WriteStore: ReadStore {
    ghost locked: { Self → Bool };

    /// Whether the store is locked.
    fn is_locked(&self) -> bool
        ensures { result ≡ locked self.now };

    /// Adds a file under a number.
    fn add(&mut self, number: u32, file: &NewFile, bytes: &[u8]) -> Result<(), StoreFault>
        ensures result { result ≡ result_of (added (locked self.old) number (file_of file.now bytes.now) (Self.ReadStore.contents self.old)) }
        ensures contents { Self.ReadStore.contents self.new ≡ contents_after (Self.ReadStore.contents self.old) (added (locked self.old) number (file_of file.now bytes.now) (Self.ReadStore.contents self.old)) }
        ensures lock { locked self.new ≡ locked self.old };

    /// Removes the file with this number.
    fn remove(&mut self, number: u32) -> Result<(), StoreFault>
        ensures result { result ≡ result_of (removed (locked self.old) number (Self.ReadStore.contents self.old)) }
        ensures contents { Self.ReadStore.contents self.new ≡ contents_after (Self.ReadStore.contents self.old) (removed (locked self.old) number (Self.ReadStore.contents self.old)) }
        ensures lock { locked self.new ≡ locked self.old };
}
