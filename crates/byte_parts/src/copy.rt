//! A copy of as much as fits.
ghost use Rattle.byte_parts.specs.Parts.{Copied};

/// Copies the front of `from` into `into`, as many bytes as `into` holds, and answers how many.
/// What lies behind them in `into` stays.
pub fn copy_fitting(from: &[u8], into: &mut [u8]) -> usize
    ensures { Copied from.now into.old into.new result }
{
    let room = into.len();
    let count = room.min(from.len());
    into[..count].copy_from_slice(&from[..count]);
    count
}
