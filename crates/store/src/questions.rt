//! Questions that follow from those of a store.
ghost use Rattle.std.specs.Prelude.{◌≡◌, not};
ghost use Rattle.store.specs.Contents.{lookup};
ghost use Rattle.store.specs.Sound.{is_parent};
ghost use Rattle.store.specs.Changes.{is_absent, has_room};

use crate::read::ReadStore;

/// Whether a file has this number.
pub fn is_taken<S: ReadStore>(store: &S, number: u32) -> bool
    ensures { result ≡ not (is_absent (lookup number (S.ReadStore.contents store.now).files)) }
{
    store.describe(number).is_some()
}

/// Whether a parent is the root or a folder of the store.
pub fn is_parent<S: ReadStore>(store: &S, parent: u32) -> bool
    ensures { result ≡ is_parent parent (S.ReadStore.contents store.now).files }
{
    parent == 0
        || store
            .describe(parent)
            .is_some_and(|file| file.format.is_folder())
}

/// Whether a place is free, and so many bytes are.
pub fn has_room<S: ReadStore>(store: &S, size: u32) -> bool
    ensures { result ≡ has_room size (S.ReadStore.contents store.now) }
{
    store.count() < store.limit() && size <= store.capacity() - store.total()
}
