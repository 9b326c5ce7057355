//! Writes at a place of the caller's buffer, one behind the other. They serve the crates above, whose public calls ask for the
//! room first.
//!
//! `out` and `place` stay two parameters: a struct over the buffer, or its rest handed back, would need in each contract a
//! clause on where it is written back to.
ghost use Rattle.std.specs.Prelude.{◌≡◌, ℕ, ◌+◌, ◌*◌, ◌≤◌, List, map, length};
ghost use Rattle.byte_parts.specs.Numbers.{le};
ghost use Rattle.wire.specs.Containers.{numbers, head};
ghost use Rattle.wire.specs.Strings.{string, array};
ghost use Rattle.wire.specs.Writing.{Wrote};

use crate::container::{HEAD, Heading};
use byte_parts::number::Number;

/// What is put into a buffer as a whole.
pub trait Put {
    ghost bytes: { Self → List ℕ };

    // That its numbers fit their bytes.
    ghost fits: { Self → Type 0 };

    /// How many bytes it has.
    fn size(&self) -> usize
        ensures { result ≡ length (bytes self.now) };

    /// Puts its bytes into `out` at `place`, and answers the place behind them.
    fn put(&self, out: &mut [u8], place: usize) -> usize
        requires { place + length (bytes self.now) ≤ length out.old }
        ensures bytes { Wrote place (bytes self.now) out.old out.new result }
        ensures fits { fits self.now };
}

/// Puts `bytes` into `out` at `place`, and answers the place behind them.
pub fn put_bytes(out: &mut [u8], place: usize, bytes: &[u8]) -> usize
    requires { place + length bytes.now ≤ length out.old }
    ensures { Wrote place bytes.now out.old out.new result }
{
    let end = place + bytes.len();
    out[place..end].copy_from_slice(bytes);
    end
}

/// Puts a number.
pub fn put_number<T: Number>(out: &mut [u8], place: usize, number: T) -> usize
    requires { place + T.WIDTH ≤ length out.old }
    ensures { Wrote place (le T.WIDTH (T.number number)) out.old out.new result }
{
    let end = place + T::WIDTH;
    number.write_le(&mut out[place..end]);
    end
}

/// Puts numbers one behind the other.
pub fn put_numbers<T: Number>(out: &mut [u8], place: usize, list: &[T]) -> usize
    requires { place + T.WIDTH * length list.now ≤ length out.old }
    ensures { Wrote place (numbers T.WIDTH (map T.number list.now)) out.old out.new result }
{
    let mut next = place;
    for number in list {
        next = put_number(out, next, *number);
    }
    next
}

/// Puts a string.
pub fn put_string(out: &mut [u8], place: usize, units: &[u16]) -> usize
    requires short { length units.now ≤ 254 }
    requires room { place + length (string units.now) ≤ length out.old }
    ensures { Wrote place (string units.now) out.old out.new result }
{
    if units.is_empty() {
        return put_number(out, place, 0u8);
    }
    let next = put_number(out, place, units.len() as u8 + 1);
    let next = put_numbers(out, next, units);
    put_number(out, next, 0u16)
}

/// Puts a count of things in memory in four bytes.
pub fn put_count(out: &mut [u8], place: usize, count: usize) -> usize
    requires { place + 4 ≤ length out.old }
    ensures { Wrote place (le 4 count) out.old out.new result }
{
    put_number(out, place, (count % 0x1_0000_0000) as u32)
}

/// Puts the head of a container of any type, whose payload has `len` bytes.
#[tactic(auto, using(crate::proofs::Puts::put_then), unfolding(crate::specs::Containers::head))]
pub fn put_head(out: &mut [u8], kind: u16, heading: Heading, len: usize) -> usize
    requires { 12 + len ≤ length out.old }
    ensures { Wrote 0 (head kind heading.code heading.transaction len) out.old out.new result }
{
    let next = put_count(out, 0, HEAD + len);
    let next = put_number(out, next, kind);
    let next = put_number(out, next, heading.code);
    put_number(out, next, heading.transaction)
}

/// Puts an array of numbers.
#[tactic(auto, using(crate::proofs::Puts::length_put))]
pub fn put_array<T: Number>(out: &mut [u8], place: usize, list: &[T]) -> usize
    requires { place + (4 + T.WIDTH * length list.now) ≤ length out.old }
    ensures { Wrote place (array T.WIDTH (map T.number list.now)) out.old out.new result }
{
    let next = put_count(out, place, list.len());
    put_numbers(out, next, list)
}
