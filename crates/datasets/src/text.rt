//! Texts that the responder itself gives.
ghost use Rattle.std.specs.Prelude.{◌≡◌};

/// A text in ASCII as units.
pub(crate) fn units<const N: usize>(text: &[u8; N]) -> [u16; N]
    ensures { result ≡ text.now }
{
    let mut units = [0; N];
    for (i, letter) in text.iter().enumerate() {
        units[i] = u16::from(*letter);
    }
    units
}
