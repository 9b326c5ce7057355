//! Writing to a memory of bytes, and closing a gap in it.
ghost use Rattle.std.specs.Prelude.{◌≡◌, ◌+◌, ◌≤◌, length};
ghost use Rattle.table.specs.Areas.{written, closed_up};

/// Writes `from` over the bytes from `at` on, and nothing else.
#[tactic(auto, using(std::proofs::lemmas::Slice::overwrites))]
pub fn write_at(bytes: &mut [u8], at: usize, from: &[u8])
    requires { at + length from.now ≤ length bytes.old }
    ensures { bytes.new ≡ written bytes.old at from.now }
{
    bytes[at..at + from.len()].copy_from_slice(from);
}

/// Closes the gap of `len` bytes at `at`: the bytes behind it, up to `total`, move down by `len`. Each byte from `at` to
/// `total - len` is written once, in ascending order, and no other; without a gap none is written.
pub fn close_up(bytes: &mut [u8], at: usize, len: usize, total: usize)
    requires gap { at + len ≤ total }
    requires within { total ≤ length bytes.old }
    ensures { bytes.new ≡ closed_up bytes.old at len total }
{
    if len > 0 {
        bytes.copy_within(at + len..total, at);
    }
}
