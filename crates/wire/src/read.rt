//! Numbers at fixed places of the caller's bytes. Missing bytes count as 0. They serve the crates above too.
ghost use Rattle.std.specs.Prelude.{◌≡◌};
ghost use Rattle.wire.specs.Containers.{number_at};

use byte_parts::copy::copy_fitting;
use byte_parts::number::Number;

pub fn number_at<T: Number>(bytes: &[u8], place: usize) -> T
    ensures { T.number result ≡ number_at T.WIDTH place bytes.now }
{
    let (_, behind) = bytes.split_at(place.min(bytes.len()));
    let mut cells = [0; 8];
    let cells = &mut cells[..T::WIDTH];
    copy_fitting(behind, cells);
    T::from_le(cells)
}
