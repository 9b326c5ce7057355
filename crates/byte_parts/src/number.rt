//! Unsigned numbers of a fixed width as bytes, the lowest byte first.
ghost use Rattle.std.specs.Prelude.{◌≡◌, ℕ, ◌≤◌, length};
ghost use Rattle.std.proofs.Common.{rules};
ghost use Rattle.byte_parts.specs.Numbers.{le, value};

/// A number that stands for nothing where one of a few was wanted.
#[derive(Clone, Copy, Debug, PartialEq, Eq)]
pub struct UnknownNumber {
    pub number: u16,
}

/// An unsigned number of `WIDTH` bytes. `number` is what it counts, and tells it from all others.
pub trait Number: Copy {
    ghost WIDTH: { ℕ };

    ghost number: { Self → ℕ };

    /// How many bytes the number has.
    const WIDTH: usize;

    /// The number that so many bytes stand for.
    fn from_le(bytes: &[u8]) -> Self
        requires { length bytes.now ≡ WIDTH }
        ensures { number result ≡ value bytes.now };

    /// Writes the number's bytes.
    fn write_le(self, out: &mut [u8])
        requires { length out.old ≡ WIDTH }
        ensures { out.new ≡ le WIDTH (number self) };

    ghost one_value: { (a b : Self) → number a ≡ number b → a ≡ b };

    ghost narrow: { WIDTH ≤ 8 };
}

impl Number for u8 {
    ghost WIDTH = { 1 };

    ghost number = { λ n. n };

    const WIDTH: usize = 1;

    fn from_le(bytes: &[u8]) -> u8 {
        u8::from_le_bytes([bytes[0]])
    }

    fn write_le(self, out: &mut [u8]) {
        out.copy_from_slice(&u8::to_le_bytes(self));
    }

    ghost one_value = { λ a b e. e };

    ghost narrow = { Prim.search rules };
}

impl Number for u16 {
    ghost WIDTH = { 2 };

    ghost number = { λ n. n };

    const WIDTH: usize = 2;

    fn from_le(bytes: &[u8]) -> u16 {
        u16::from_le_bytes([bytes[0], bytes[1]])
    }

    fn write_le(self, out: &mut [u8]) {
        out.copy_from_slice(&u16::to_le_bytes(self));
    }

    ghost one_value = { λ a b e. e };

    ghost narrow = { Prim.search rules };
}

impl Number for u32 {
    ghost WIDTH = { 4 };

    ghost number = { λ n. n };

    const WIDTH: usize = 4;

    fn from_le(bytes: &[u8]) -> u32 {
        u32::from_le_bytes([bytes[0], bytes[1], bytes[2], bytes[3]])
    }

    fn write_le(self, out: &mut [u8]) {
        out.copy_from_slice(&u32::to_le_bytes(self));
    }

    ghost one_value = { λ a b e. e };

    ghost narrow = { Prim.search rules };
}

impl Number for u64 {
    ghost WIDTH = { 8 };

    ghost number = { λ n. n };

    const WIDTH: usize = 8;

    fn from_le(bytes: &[u8]) -> u64 {
        u64::from_le_bytes([
            bytes[0], bytes[1], bytes[2], bytes[3], bytes[4], bytes[5], bytes[6], bytes[7],
        ])
    }

    fn write_le(self, out: &mut [u8]) {
        out.copy_from_slice(&u64::to_le_bytes(self));
    }

    ghost one_value = { λ a b e. e };

    ghost narrow = { Prim.search rules };
}
