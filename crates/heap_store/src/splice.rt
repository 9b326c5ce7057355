//! Putting a run into a vector and taking one out, within the memory that it has.
ghost use Rattle.std.specs.Prelude.{◌≡◌, ◌+◌, ◌≤◌, ◌++◌, length, take, drop, vec_len, vec_capacity};

use std::ops::Range;

/// Puts `run` in at `at`.
pub(crate) fn put_in(bytes: &mut Vec<u8>, at: usize, run: &[u8])
    requires within { at ≤ vec_len bytes.old }
    requires fits { vec_len bytes.old + length run.now ≤ vec_capacity bytes.old }
    ensures items { bytes.new.items ≡ take at bytes.old.items ++ (run.now ++ drop at bytes.old.items) }
    ensures capacity { vec_capacity bytes.old ≤ vec_capacity bytes.new }
{
    bytes.extend_from_slice(run).unwrap();
    bytes[at..].rotate_right(run.len());
}

/// Takes the bytes at `place` out.
// By copying down what lies behind them, which costs less than `drain`.
pub(crate) fn take_out(bytes: &mut Vec<u8>, place: Range<usize>)
    requires order { place.start ≤ place.end }
    requires within { place.end ≤ vec_len bytes.old }
    ensures items { bytes.new.items ≡ take place.start bytes.old.items ++ drop place.end bytes.old.items }
    ensures capacity { vec_capacity bytes.new ≡ vec_capacity bytes.old }
{
    let left = bytes.len() - (place.end - place.start);
    bytes.copy_within(place.end.., place.start);
    bytes.truncate(left);
}
