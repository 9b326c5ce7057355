//! The gap that a removal leaves.
ghost use Rattle.std.specs.Prelude.{◌≡◌, ◌+◌, ◌^◌, ◌<◌};

/// `length` bytes from `start` on.
#[derive(Clone, Copy)]
pub struct Gap {
    pub start: u32,
    pub length: u32,
    ghost fits: { start + length < 2 ^ 32 },
}

impl Gap {
    ghost use Rattle.packed.specs.Gaps.{start_after};

    /// Where a file begins once the gap is closed, if it began at `start` before.
    pub fn start_after(self, start: u32) -> u32
        ensures { result ≡ start_after self start }
    {
        if start >= self.start + self.length {
            start - self.length
        } else {
            start
        }
    }
}
