//! The text of a name, fit for a terminal.
ghost use Rattle.std.specs.Prelude.{◌≡◌, Some};
ghost use Rattle.std.specs.Option.{option_map};
ghost use Rattle.object.specs.Names.{units_of};
ghost use Rattle.inspect.specs.Signs.{is_high, is_low, paired, single, cut_sign};
ghost use Rattle.inspect.specs.Texts.{sign_text, units_text};

use object::name::Name;
use std::fmt;

/// What the front of a name stands for: a character, or a unit that a terminal is not sent.
#[derive(Clone, Copy)]
enum Sign {
    Plain(char),
    Escaped(u16),
}

/// A unit that is not half of a pair. Lone halves and control characters are escaped.
impl From<u16> for Sign {
    ghost from_gives = { λ unit sign. sign ≡ single unit };

    fn from(unit: u16) -> Sign {
        match char::from_u32(u32::from(unit)) {
            Some(c) if !c.is_control() => Sign::Plain(c),
            _ => Sign::Escaped(unit),
        }
    }
}

#[tactic(auto, using(crate::proofs::Escapes::escape_written))]
impl fmt::Display for Sign {
    ghost output = { λ sign. Some (sign_text sign) };

    // A character writes its own bytes: `write_char` would check them again.
    fn fmt<W: fmt::Write>(&self, f: &mut fmt::Formatter<W>) -> fmt::Result {
        match *self {
            Sign::Plain(c) => f.write_str(c.encode_utf8(&mut [0; 4])),
            Sign::Escaped(unit) => write!(f, "\\u{{{unit:04x}}}"),
        }
    }
}

fn is_high(unit: u16) -> bool
    ensures { result ≡ is_high unit }
{
    matches!(unit, 0xd800..=0xdbff)
}

fn is_low(unit: u16) -> bool
    ensures { result ≡ is_low unit }
{
    matches!(unit, 0xdc00..=0xdfff)
}

/// The character of a surrogate pair.
fn pair(high: u16, low: u16) -> Option<char>
    ensures { result ≡ paired high low }
{
    if is_high(high) && is_low(low) {
        char::from_u32(0x10000 + (u32::from(high) - 0xd800) * 0x400 + (u32::from(low) - 0xdc00))
    } else {
        None
    }
}

/// The sign at the front and the units behind it.
// `char::decode_utf16` would not show what lies behind a pair, and the contract promises it.
fn cut_sign(units: &[u16]) -> Option<(Sign, &[u16])>
    ensures { option_map (λ p. (p.0, p.1.now)) result ≡ cut_sign units.now }
{
    let (first, rest) = units.split_first()?;
    let Some((second, behind)) = rest.split_first() else {
        return Some((Sign::from(*first), rest));
    };
    match pair(*first, *second) {
        Some(c) => Some((Sign::Plain(c), behind)),
        None => Some((Sign::from(*first), rest)),
    }
}

/// A name in UTF-8, with lone halves of pairs and control characters as `\u{d800}`.
#[derive(Clone, Copy)]
pub struct Shown<'a>(pub &'a Name);

impl fmt::Display for Shown<'_> {
    ghost output = { λ shown. Some (units_text (units_of shown.0.now)) };

    fn fmt<W: fmt::Write>(&self, f: &mut fmt::Formatter<W>) -> fmt::Result {
        let mut rest = self.0.units();
        while let Some((sign, behind)) = cut_sign(rest) {
            write!(f, "{sign}")?;
            rest = behind;
        }
        Ok(())
    }
}
