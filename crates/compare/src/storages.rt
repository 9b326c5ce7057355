//! Whether two pairs of storages are equal, and so reply alike.
ghost use Rattle.std.specs.Prelude.{◌≡◌, Decides};
ghost use Rattle.protocol.specs.Alike.{Alike};
ghost use Rattle.protocol.specs.Storages.{SoundStorages};

use crate::contents::same_contents;
use looking::pair::StoragePair;
use store::read::ReadStore;
use store::write::WriteStore;

// Apart from the public call, whose law stands in a proof file, so that a planted fault shows in the code.
fn are_equal<W: WriteStore, R: ReadStore, V: WriteStore, Q: ReadStore>(
    a: &StoragePair<'_, W, R>,
    b: &StoragePair<'_, V, Q>,
) -> bool
    ensures equal { Decides result (a.now ≡ b.now) }
    ensures sound { SoundStorages a.now × SoundStorages b.now }
{
    a.first().is_locked() == b.first().is_locked()
        && same_contents(a.first(), b.first())
        && same_contents(a.second(), b.second())
}

/// Whether two pairs of stores are equal storages, which is exactly if new responders over them reply alike to every list of calls.
pub fn same_storages<W: WriteStore, R: ReadStore, V: WriteStore, Q: ReadStore>(
    a: &StoragePair<'_, W, R>,
    b: &StoragePair<'_, V, Q>,
) -> bool
    ensures equal { Decides result (a.now ≡ b.now) }
    ensures alike { Decides result (Alike a.now b.now) }
{
    are_equal(a, b)
}
