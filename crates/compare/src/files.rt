//! Whether two stores have the same files.
ghost use Rattle.std.specs.Prelude.{◌≡◌, Decides};
ghost use Rattle.store.specs.Contents.{lookup};

use crate::bytes::same_bytes;
use store::info::FileInfo;
use store::read::ReadStore;
use store::walk::numbers_of;

#[tactic(auto, using(object::proofs::Stored::name_decides))]
fn same_info(x: &FileInfo, y: &FileInfo) -> bool
    ensures { Decides result (x.now ≡ y.now) }
{
    x == y
}

// Whether a number finds the same.
fn same_file<A: ReadStore, B: ReadStore>(a: &A, b: &B, number: u32) -> bool
    ensures { Decides result (lookup number (A.ReadStore.contents a.now).files ≡ lookup number (B.ReadStore.contents b.now).files) }
{
    match (a.describe(number), b.describe(number)) {
        (None, None) => true,
        (Some(x), Some(y)) => same_info(&x, &y) && same_bytes(a, b, number, x.length),
        _ => false,
    }
}

/// Whether two stores have the same files under the same numbers.
pub fn same_files<A: ReadStore, B: ReadStore>(a: &A, b: &B) -> bool
    ensures { Decides result ((A.ReadStore.contents a.now).files ≡ (B.ReadStore.contents b.now).files) }
{
    a.count() == b.count() && numbers_of(a).all(|number| same_file(a, b, number))
}
