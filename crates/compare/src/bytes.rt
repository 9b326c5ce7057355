//! Whether a file has the same bytes in two stores.
ghost use Rattle.std.specs.Prelude.{◌≡◌, length, Decides};
ghost use Rattle.byte_parts.specs.Parts.{fitting};
ghost use Rattle.store.specs.Contents.{lookup, bytes_of, rest_of};

use store::read::ReadStore;

// Whether the next 64 bytes from `at` on are the same, or as many as there are.
fn same_chunk<A: ReadStore, B: ReadStore>(a: &A, b: &B, number: u32, at: u32) -> bool
    ensures { Decides result (fitting 64 (rest_of number at (A.ReadStore.contents a.now).files) ≡ fitting 64 (rest_of number at (B.ReadStore.contents b.now).files)) }
{
    let mut x = [0; 64];
    let mut y = [0; 64];
    a.copy(number, at, &mut x) == b.copy(number, at, &mut y) && x == y
}

// Whether the bytes of a file are the same, which has `size` bytes in both stores.
#[tactic(auto, using(crate::proofs::Chunks::grown))]
pub fn same_bytes<A: ReadStore, B: ReadStore>(a: &A, b: &B, number: u32, size: u32) -> bool
    requires { (length (bytes_of (lookup number (A.ReadStore.contents a.now).files)) ≡ size) × (length (bytes_of (lookup number (B.ReadStore.contents b.now).files)) ≡ size) }
    ensures { Decides result (bytes_of (lookup number (A.ReadStore.contents a.now).files) ≡ bytes_of (lookup number (B.ReadStore.contents b.now).files)) }
{
    for at in (0..size).step_by(64) {
        if !same_chunk(a, b, number, at) {
            return false;
        }
    }
    true
}
