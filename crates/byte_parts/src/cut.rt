//! Readers that cut what they read off the front, and hand on the rest.
ghost use Rattle.std.specs.Prelude.{◌≡◌};
ghost use Rattle.std.specs.Option.{option_map};
ghost use Rattle.byte_parts.specs.Numbers.{cut_number};
ghost use Rattle.byte_parts.specs.Parts.{cut_part};

use crate::number::Number;

/// The first `len` bytes and the rest, or `None` if there are fewer.
pub fn cut(bytes: &[u8], len: usize) -> Option<(&[u8], &[u8])>
    ensures { option_map (λ p. (p.0.now, p.1.now)) result ≡ cut_part len bytes.now }
{
    bytes.split_at_checked(len)
}

/// The number at the front and the rest, or `None` if it is cut short.
pub fn cut_number<T: Number>(bytes: &[u8]) -> Option<(T, &[u8])>
    ensures { option_map (λ p. (T.number p.0, p.1.now)) result ≡ cut_number T.WIDTH bytes.now }
{
    let (front, rest) = cut(bytes, T::WIDTH)?;
    Some((T::from_le(front), rest))
}
