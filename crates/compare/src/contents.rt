//! Whether two stores of any makes hold the same.
ghost use Rattle.std.specs.Prelude.{◌≡◌, Decides};

use crate::files::same_files;
use store::read::ReadStore;

/// Whether two stores hold the same: files, capacity and limit. It asks both stores and keeps nothing.
pub fn same_contents<A: ReadStore, B: ReadStore>(a: &A, b: &B) -> bool
    ensures { Decides result (A.ReadStore.contents a.now ≡ B.ReadStore.contents b.now) }
{
    a.capacity() == b.capacity() && a.limit() == b.limit() && same_files(a, b)
}
