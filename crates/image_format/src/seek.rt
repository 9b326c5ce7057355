//! Walking over the files of an image.
ghost use Rattle.std.specs.Prelude.{◌≡◌, nat_lt};
ghost use Rattle.std.specs.Iterator.{YieldsFirstBy, item_count};
ghost use Rattle.std.specs.Option.{option_map};
ghost use Rattle.image_format.specs.Walk.{cut_record, records, sought, sought_at, plain_of};

use crate::field::{Head, Tag, cut_field, head_in};

/// A file in the image, with its name and its bytes as parts of the image.
#[derive(Clone, Copy)]
pub struct Record<'a> {
    pub head: Head,
    pub name: &'a [u8],
    pub body: &'a [u8],
}

/// The file at the front and what lies behind it.
pub fn cut_record(bytes: &[u8]) -> Option<(Record<'_>, &[u8])>
    ensures { option_map (λ p. (plain_of p.0, p.1.now)) result ≡ cut_record bytes.now }
{
    let (content, rest) = cut_field(Tag::Head, bytes)?;
    let head = head_in(content)?;
    let (name, rest) = cut_field(Tag::Name, rest)?;
    let (body, rest) = cut_field(Tag::Body, rest)?;
    Some((Record { head, name, body }, rest))
}

/// The first `count` files of `rest`, from the front.
#[derive(Drop)]
struct Records<'a> {
    rest: &'a [u8],
    count: u32,
}

impl<'a> Iterator for Records<'a> {
    type Item = Record<'a>;

    ghost next_gives = { YieldsFirstBy plain_of (λ s. records s.count s.rest.now) };

    ghost remaining = { item_count (λ s. records s.count s.rest.now) };

    fn next(&mut self) -> Option<Record<'a>> {
        self.count = self.count.checked_sub(1)?;
        let (record, behind) = cut_record(self.rest)?;
        self.rest = behind;
        Some(record)
    }
}

fn is_above(head: Head, number: u32) -> bool
    ensures { result ≡ nat_lt number head.number }
{
    head.number > number
}

// The image and the count are two parameters here and in `find`, since each caller has them in a struct of its own.
/// The first of the first `count` files whose number is above `number`.
pub fn seek_above(image: &[u8], count: u32, number: u32) -> Option<Record<'_>>
    ensures { option_map plain_of result ≡ sought count image.now number }
{
    Records { rest: image, count }.find(|record| is_above(record.head, number))
}

/// The file with this number, if it is one of the first `count`.
pub fn find(image: &[u8], count: u32, number: u32) -> Option<Record<'_>>
    ensures { option_map plain_of result ≡ sought_at count image.now number }
{
    seek_above(image, count, number.saturating_sub(1)).filter(|record| record.head.number == number)
}
