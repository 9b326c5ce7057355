//! Protections of objects.
ghost use Rattle.std.specs.Prelude.{◌≡◌};
ghost use Rattle.object.specs.Protections.{protection_number, protection_told};

use byte_parts::number::UnknownNumber;

/// Whether an object may be deleted or changed by a host, with the number on the wire.
#[derive(Clone, Copy, Debug, PartialEq, Eq)]
pub enum Protection {
    Unprotected = 0,
    ReadOnly = 1,
}

impl Protection {
    /// The protection's number on the wire.
    pub fn number(self) -> u16
        ensures { result ≡ protection_number self }
    {
        self as u16
    }
}

impl TryFrom<u16> for Protection {
    type Error = UnknownNumber;

    ghost try_from_gives = { λ number r. r ≡ protection_told number };

    fn try_from(number: u16) -> Result<Protection, UnknownNumber> {
        match number {
            0 => Ok(Protection::Unprotected),
            1 => Ok(Protection::ReadOnly),
            _ => Err(UnknownNumber { number }),
        }
    }
}
