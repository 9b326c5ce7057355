//! The fields of an image: a tag, a length and a content.
ghost use Rattle.std.specs.Prelude.{◌≡◌, ◌≤◌, length};
ghost use Rattle.std.specs.Option.{option_map};
ghost use Rattle.image_format.specs.Parsed.{cut_field, head_in};
ghost use Rattle.image_format.specs.Tags.{tag_number};

use byte_parts::cut::{cut, cut_number};
use object::format::Format;

/// The tags of a file's three fields.
#[derive(Clone, Copy)]
pub enum Tag {
    Head = 0x01,
    Name = 0x02,
    Body = 0x03,
}

/// What a file's first field says.
#[derive(Clone, Copy)]
pub struct Head {
    pub number: u32,
    pub parent: u32,
    pub format: Format,
}

/// The content of the field at the front and what lies behind it, or `None` if no whole field with this tag is there.
pub fn cut_field(tag: Tag, bytes: &[u8]) -> Option<(&[u8], &[u8])>
    ensures { option_map (λ p. (p.0.now, p.1.now)) result ≡ cut_field (tag_number tag) bytes.now }
{
    let (found, rest) = cut_number::<u8>(bytes)?;
    if found != tag as u8 {
        return None;
    }
    let (len, rest) = cut_number::<u16>(rest)?;
    cut(rest, len as usize)
}

/// The head that a first field's content holds.
pub fn head_in(content: &[u8]) -> Option<Head>
    ensures { result ≡ head_in content.now }
{
    let (number, rest) = cut_number(content)?;
    let (parent, rest) = cut_number(rest)?;
    let (format, rest) = cut_number::<u16>(rest)?;
    if !rest.is_empty() {
        return None;
    }
    let format = Format::try_from(format).ok()?;
    Some(Head {
        number,
        parent,
        format,
    })
}
