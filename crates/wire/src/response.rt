//! Response containers.
ghost use Rattle.std.specs.Prelude.{◌≡◌, ◌≤◌, length};

pub mod write;

/// The length of the longest response.
pub const MAX_RESPONSE: usize = 32;

/// Up to five parameters, in the value itself: the library has no heap.
#[derive(Clone, Copy)]
pub struct Parameters {
    values: [u32; 5],
    count: u8,
    ghost few: { count ≤ 5 },
    ghost whole: { length values ≡ 5 },
}
