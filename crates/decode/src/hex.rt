//! Bytes in hexadecimal digits.
ghost use Rattle.std.specs.Prelude.{◌<◌, MatchResult, ◌≡◌};
ghost use Rattle.std.specs.Char.{digit_value};
ghost use Rattle.decode.specs.declared.hex.HexError.TheVariants.{NoDigit, OutOfMemory};

use std::alloc::{AllocError, AllocFailed, Global};
use std::error::Error;
use std::fmt;

/// Why digits are no bytes.
#[derive(Clone, Copy, Debug)]
pub enum HexError {
    NoDigit(char),
    HalfByte,
    OutOfMemory(AllocError),
}

impl fmt::Display for HexError {
    fn fmt<W: fmt::Write>(&self, f: &mut fmt::Formatter<W>) -> fmt::Result {
        match self {
            HexError::NoDigit(c) => write!(f, "{c:?} is no hexadecimal digit"),
            HexError::HalfByte => f.write_str("half a byte at the end"),
            HexError::OutOfMemory(error) => write!(f, "{error}"),
        }
    }
}

impl Error for HexError {}

impl From<AllocError> for HexError {
    ghost from_gives = { λ error r. r ≡ OutOfMemory error };

    fn from(error: AllocError) -> HexError {
        HexError::OutOfMemory(error)
    }
}

impl<T: Drop> From<AllocFailed<T>> for HexError {
    fn from(failed: AllocFailed<T>) -> HexError {
        HexError::OutOfMemory(AllocError::from(failed))
    }
}

/// The value of a digit.
fn digit_in(c: char) -> Result<u8, HexError>
    ensures { MatchResult result (λ d. (d ≡ digit_value c) × (d < 16)) (λ e. e ≡ NoDigit c) }
{
    match c.to_digit(16) {
        Some(digit) => Ok(digit as u8),
        None => Err(HexError::NoDigit(c)),
    }
}

/// The bytes that pairs of digits stand for. Spaces between the digits do not matter.
pub fn bytes_in(heap: Global, digits: &str) -> Result<Vec<u8>, HexError> {
    let mut bytes = Vec::new(heap);
    let mut high = None;
    for c in digits.chars().filter(|c| !c.is_whitespace()) {
        let digit = digit_in(c)?;
        match high.take() {
            Some(upper) => bytes.push(digit | (upper << 4))?,
            None => high = Some(digit),
        }
    }
    match high {
        Some(_) => Err(HexError::HalfByte),
        None => Ok(bytes),
    }
}
