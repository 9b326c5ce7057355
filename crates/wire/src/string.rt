//! Strings: a count of units with the closing 0, the units, the closing 0.
ghost use Rattle.std.specs.Prelude.{◌≡◌, ◌<◌, ◌==◌};
ghost use Rattle.std.specs.Option.{option_map};
ghost use Rattle.wire.specs.Laws.{StringsReadBack};
ghost use Rattle.wire.specs.Strings.{closed_units, string_in};
ghost use Rattle.wire.specs.Texts.{text_parts, read_parts};

use byte_parts::cut::cut_number;

/// A string at the front of the caller's bytes: its units, two bytes each with the lower one first and without the closing
/// 0, and the bytes behind it.
#[derive(Clone, Copy)]
pub struct Text<'a> {
    pub units: &'a [u8],
    pub rest: &'a [u8],
}

/// Whether a unit closes a string.
fn is_closing(unit: u16) -> bool
    ensures { result ≡ (unit == 0) }
{
    unit == 0
}

/// Reads `count` units other than 0, then a 0.
fn read_units(bytes: &[u8], count: usize) -> Option<Text<'_>>
    requires { count < 256 }
    ensures { option_map text_parts result ≡ option_map read_parts (closed_units count bytes.now) }
{
    let mut rest = bytes;
    for _ in 0..count {
        let (unit, after) = cut_number(rest)?;
        if is_closing(unit) {
            return None;
        }
        rest = after;
    }
    let (end, behind) = cut_number(rest)?;
    if !is_closing(end) {
        return None;
    }
    let (units, _) = bytes.split_at(2 * count);
    Some(Text {
        units,
        rest: behind,
    })
}

/// Reads the string at the front, if it is well formed.
#[tactic(auto, using(crate::proofs::ReadBack::strings_back, crate::proofs::Units::string_counted))]
pub fn read_string(bytes: &[u8]) -> Option<Text<'_>>
    ensures value { option_map text_parts result ≡ option_map read_parts (string_in bytes.now) }
    ensures law { StringsReadBack }
{
    let (count, rest) = cut_number::<u8>(bytes)?;
    match count {
        0 => {
            let (units, rest) = rest.split_at(0);
            Some(Text { units, rest })
        }
        1 => None,
        _ => read_units(rest, count as usize - 1),
    }
}
