//! Reading an image whole: how much it holds, or where it is wrong.
ghost use Rattle.std.specs.Prelude.{◌≡◌, ◌-◌, ◌≤◌, length, IfSome, IfOk, Some};
ghost use Rattle.std.specs.Option.{option_map};
ghost use Rattle.image_format.specs.Encoded.{head_tag, name_tag, body_tag};
ghost use Rattle.image_format.specs.Parsed.{read_field, checked, head_in, right_body, file_by, parsed};
ghost use Rattle.image_format.specs.Walk.{right_behind, folder_sought, sought_at, behind, measured, summed, ok_by, seen, layout_of};
ghost use Rattle.object.specs.Names.{name_in};

use crate::fault::SpoiltImage;
use crate::field::{Head, Tag, cut_field, head_in};
use crate::layout::Layout;
use crate::seek::find;
use object::format::Format;
use object::name::Name;
use store::limits::{LAST_NUMBER, MAX_FILES, MAX_LENGTH};

/// What lies behind the name at the front of `rest`, if it is legal.
fn behind_name(rest: &[u8]) -> Option<&[u8]>
    ensures { option_map (λ x. x.now) result ≡ option_map behind (read_field name_tag name_in rest.now) }
{
    let (content, behind) = cut_field(Tag::Name, rest)?;
    Name::from_bytes(content)?;
    Some(behind)
}

/// The length of the bytes at the front of `rest`, if a file of this format may have them.
fn body_at(format: Format, rest: &[u8]) -> Option<(u32, &[u8])>
    ensures value { option_map (λ p. (p.0, p.1.now)) result ≡ option_map measured (read_field body_tag (λ bs. checked (right_body format) (Some bs)) rest.now) }
    ensures bound { IfSome result (λ p. p.0 ≤ 32768) }
{
    let (content, behind) = cut_field(Tag::Body, rest)?;
    let length = content.len();
    if length > MAX_LENGTH || (format.is_folder() && length != 0) {
        return None;
    }
    Some((length as u32, behind))
}

/// The files at the front of an image that were read: how many, and the number of the last, which is 0 if there is none.
#[derive(Clone, Copy)]
struct Front<'a> {
    image: &'a [u8],
    count: u32,
    last: u32,
}

impl Front<'_> {
    /// Whether one of the files is the folder `number`.
    fn has_folder(&self, number: u32) -> bool
        ensures { result ≡ folder_sought (sought_at self.now.count self.now.image.now number) }
    {
        find(self.image, self.count, number).is_some_and(|record| record.head.format.is_folder())
    }

    /// Whether a head is right behind the files.
    fn is_right_head(&self, head: Head) -> bool
        ensures { result ≡ right_behind self.now.image.now self.now.count self.now.last head }
    {
        head.number > self.last
            && head.number <= LAST_NUMBER
            && (head.parent == 0 || self.has_folder(head.parent))
    }

    /// The head at the front of `rest`, if it is right.
    fn head_at<'b>(&self, rest: &'b [u8]) -> Option<(Head, &'b [u8])>
        ensures { option_map (λ p. (p.0, p.1.now)) result ≡ read_field head_tag (λ bs. checked (right_behind self.now.image.now self.now.count self.now.last) (head_in bs)) rest.now }
    {
        let (content, behind) = cut_field(Tag::Head, rest)?;
        let head = head_in(content)?;
        if !self.is_right_head(head) {
            return None;
        }
        Some((head, behind))
    }

    /// The number and the length of the file at the front of `rest`, and what lies behind it, or the place of its first wrong field.
    fn file_at<'b>(&self, rest: &'b [u8]) -> Result<(u32, u32, &'b [u8]), SpoiltImage>
        ensures value { seen result ≡ ok_by summed (file_by (right_behind self.now.image.now self.now.count self.now.last) (length self.now.image.now) rest.now) }
        ensures bound { IfOk result (λ p. p.1 ≤ 32768) }
    {
        let (head, names) = self.head_at(rest).ok_or(spoilt_at(self.image, rest))?;
        let bodies = behind_name(names).ok_or(spoilt_at(self.image, names))?;
        let (length, behind) = body_at(head.format, bodies).ok_or(spoilt_at(self.image, bodies))?;
        Ok((head.number, length, behind))
    }
}

/// The refusal of an image whose last part, `rest`, begins with a wrong field.
fn spoilt_at(image: &[u8], rest: &[u8]) -> SpoiltImage
    ensures { result.place ≡ length image.now - length rest.now }
{
    SpoiltImage {
        place: image.len().saturating_sub(rest.len()),
    }
}

/// How much an image holds, or the place of its first wrong field.
pub fn layout_in(image: &[u8]) -> Result<Layout, SpoiltImage>
    ensures { result ≡ ok_by layout_of (parsed image.now) }
{
    let mut rest = image;
    let mut last = 0;
    let mut total = 0;
    for count in 0..MAX_FILES {
        if rest.is_empty() {
            return Ok(Layout { count, total });
        }
        let front = Front { image, count, last };
        let (number, length, behind) = front.file_at(rest)?;
        last = number;
        total += length;
        rest = behind;
    }
    if !rest.is_empty() {
        return Err(spoilt_at(image, rest));
    }
    Ok(Layout {
        count: MAX_FILES,
        total,
    })
}
