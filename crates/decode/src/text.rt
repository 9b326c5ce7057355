//! The text of units, fit for a terminal.
ghost use Rattle.std.specs.Prelude.{◌≡◌, Some};
ghost use Rattle.byte_parts.specs.Numbers.{value};
ghost use Rattle.decode.specs.Units.{unit_text};

use std::fmt;

/// A unit of UTF-16.
#[derive(Clone, Copy)]
pub struct Unit(pub u16);

impl From<u16> for Unit {
    ghost from_gives = { λ n unit. unit.0 ≡ n };

    fn from(unit: u16) -> Unit {
        Unit(unit)
    }
}

/// The lower byte stands first.
impl From<[u8; 2]> for Unit {
    ghost from_gives = { λ bytes unit. unit.0 ≡ value bytes };

    fn from(bytes: [u8; 2]) -> Unit {
        Unit(u16::from_le_bytes(bytes))
    }
}

/// Half pairs and control characters are escaped.
impl fmt::Display for Unit {
    ghost output = { λ unit. Some (unit_text unit.0) };

    // A character writes its own bytes: `write_char` would check them again.
    fn fmt<W: fmt::Write>(&self, f: &mut fmt::Formatter<W>) -> fmt::Result {
        match char::from_u32(u32::from(self.0)) {
            Some(c) if !c.is_control() => f.write_str(c.encode_utf8(&mut [0; 4])),
            _ => write!(f, "\\u{{{:x}}}", self.0),
        }
    }
}

/// Units as a text in quotes.
#[derive(Clone, Copy)]
pub struct Quoted<'a, U>(pub &'a [U]);

impl<U: Copy + Into<Unit>> fmt::Display for Quoted<'_, U> {
    fn fmt<W: fmt::Write>(&self, f: &mut fmt::Formatter<W>) -> fmt::Result {
        f.write_char('"')?;
        for unit in self.0 {
            let unit: Unit = (*unit).into();
            fmt::Display::fmt(&unit, f)?;
        }
        f.write_char('"')
    }
}
