//! Parts of the memory of bytes.
ghost use Rattle.std.specs.Prelude.{◌≡◌, ◌+◌, ◌≤◌, length as extent, take, drop};
ghost use Rattle.byte_parts.specs.Parts.{Copied};

use byte_parts::copy::copy_fitting;

/// Copies the file of `length` bytes from `start` on, from `offset` within it, to the front of `into`, as much as fits, and answers how much.
pub fn copy_part(bytes: &[u8], start: u32, length: u32, offset: u32, into: &mut [u8]) -> usize
    requires { start + length ≤ extent bytes.now }
    ensures { Copied (drop offset (take length (drop start bytes.now))) into.old into.new result }
{
    let file = &bytes[start as usize..start as usize + length as usize];
    match file.get(offset as usize..) {
        Some(rest) => copy_fitting(rest, into),
        None => 0,
    }
}
