//! Names: 1 to 63 units of 16 bits, each legal.
ghost use Rattle.std.specs.Prelude.{◌≡◌, true};
ghost use Rattle.object.specs.Legal.{stored_name};

pub mod compare;
pub mod make;

/// How many units a name has at most.
pub const MAX_UNITS: usize = 63;

/// A legal name. No value of this type breaks the rule on names, so code that only carries names knows nothing of it.
#[derive(Clone, Copy, PartialEq, Eq)]
pub struct Name {
    units: [u16; MAX_UNITS],
    len: u8,
    ghost legal: { stored_name len units ≡ true },
}
