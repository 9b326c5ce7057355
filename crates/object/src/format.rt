//! Formats of objects.
ghost use Rattle.std.specs.Prelude.{◌≡◌};
ghost use Rattle.object.specs.Formats.{format_number, format_told, is_folder};

use byte_parts::number::UnknownNumber;

/// What an object is, with its number on the wire and in an image. An association is a folder.
#[derive(Clone, Copy, Debug, PartialEq, Eq)]
pub enum Format {
    Undefined = 0x3000,
    Association = 0x3001,
    Text = 0x3004,
}

impl Format {
    /// The format's number on the wire and in an image.
    pub fn number(self) -> u16
        ensures { result ≡ format_number self }
    {
        self as u16
    }

    /// Whether an object of this format is a folder.
    pub fn is_folder(self) -> bool
        ensures { result ≡ is_folder self }
    {
        matches!(self, Format::Association)
    }
}

impl TryFrom<u16> for Format {
    type Error = UnknownNumber;

    ghost try_from_gives = { λ number r. r ≡ format_told number };

    fn try_from(number: u16) -> Result<Format, UnknownNumber> {
        match number {
            0x3000 => Ok(Format::Undefined),
            0x3001 => Ok(Format::Association),
            0x3004 => Ok(Format::Text),
            _ => Err(UnknownNumber { number }),
        }
    }
}
