//! Lists of numbers in words.
ghost use Rattle.std.specs.Prelude.{◌≡◌};
ghost use Rattle.byte_parts.specs.Numbers.{value};

use std::fmt;

/// A number in a list.
#[derive(Clone, Copy)]
pub struct Entry(pub u32);

/// The lower byte stands first.
impl From<[u8; 2]> for Entry {
    ghost from_gives = { λ bytes entry. entry.0 ≡ value bytes };

    fn from(bytes: [u8; 2]) -> Entry {
        Entry(u32::from(u16::from_le_bytes(bytes)))
    }
}

/// The lowest byte stands first.
impl From<[u8; 4]> for Entry {
    ghost from_gives = { λ bytes entry. entry.0 ≡ value bytes };

    fn from(bytes: [u8; 4]) -> Entry {
        Entry(u32::from_le_bytes(bytes))
    }
}

/// Numbers in hexadecimal, with so many digits at least.
#[derive(Clone, Copy)]
pub struct Numbers<'a, T, const DIGITS: usize>(pub &'a [T]);

/// Codes, with all their digits.
pub type Codes<'a> = Numbers<'a, [u8; 2], 4>;

/// Parameters, handles and storage ids, with no leading zero.
pub type Ids<'a> = Numbers<'a, [u8; 4], 1>;

/// Each number stands behind a space.
impl<T: Copy + Into<Entry>, const DIGITS: usize> fmt::Display for Numbers<'_, T, DIGITS> {
    fn fmt<W: fmt::Write>(&self, f: &mut fmt::Formatter<W>) -> fmt::Result {
        for bytes in self.0 {
            let entry: Entry = (*bytes).into();
            write!(f, " 0x{:0DIGITS$x}", entry.0)?;
        }
        Ok(())
    }
}
