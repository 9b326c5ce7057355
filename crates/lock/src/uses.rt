//! Locks in use over any writing store: one gives it back as it was, and of two that lie over one another either closes it.
ghost use Rattle.std.specs.Prelude.{◌≡◌, ◌||◌};
ghost use Rattle.store.specs.Changes.{added};
ghost use Rattle.store.specs.Changing.{file_of, result_of};

use crate::write_lock::WriteLock;
use store::fault::StoreFault;
use store::info::NewFile;
use store::write::WriteStore;

/// Whether a store is locked under two locks, of which the upper lies over the lower.
pub fn is_locked_under<S: WriteStore>(store: &mut S, lower: bool, upper: bool) -> bool
    ensures { result ≡ upper || (lower || S.WriteStore.locked store.old) }
{
    let mut below = WriteLock::new(store);
    below.set_to(lower);
    let mut above = WriteLock::new(&mut below);
    above.set_to(upper);
    above.is_locked()
}

/// Adds a file to a store under two locks, of which the upper lies over the lower.
pub fn add_under<S: WriteStore>(
    store: &mut S,
    lower: bool,
    upper: bool,
    number: u32,
    file: &NewFile,
    bytes: &[u8],
) -> Result<(), StoreFault>
    ensures { result ≡ result_of (added (upper || (lower || S.WriteStore.locked store.old)) number (file_of file.now bytes.now) (S.ReadStore.contents store.old)) }
{
    let mut below = WriteLock::new(store);
    below.set_to(lower);
    let mut above = WriteLock::new(&mut below);
    above.set_to(upper);
    above.add(number, file, bytes)
}

/// Whether a store would be locked under one lock that is set or not. The store comes back as it was.
pub fn is_locked_if<S: WriteStore>(store: &mut S, set: bool) -> bool
    ensures value { result ≡ set || S.WriteStore.locked store.old }
    ensures store { store.new ≡ store.old }
{
    let mut lock = WriteLock::new(store);
    lock.set_to(set);
    lock.is_locked()
}
