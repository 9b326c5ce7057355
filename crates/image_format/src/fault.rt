//! Why an image is refused.
ghost use Rattle.std.specs.Prelude.{◌≡◌};
ghost use Rattle.image_format.specs.Refusal.{spoilt_image_number};

/// A spoilt image: the place of the first wrong field's tag, or the image's length where a field is missing.
#[derive(Clone, Copy, Debug, PartialEq, Eq)]
pub struct SpoiltImage {
    pub place: usize,
}

impl SpoiltImage {
    /// The refusal's number.
    pub fn number(self) -> u16
        ensures { result ≡ spoilt_image_number }
    {
        3
    }
}
