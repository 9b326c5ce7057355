//! The store in an image.
ghost use Rattle.std.specs.Prelude.{◌≡◌, true};
ghost use Rattle.image.specs.Held.{holds};

use image_format::fault::SpoiltImage;
use image_format::layout::Layout;

pub mod open;
pub mod read;

/// A read-only store over the bytes of an accepted image, which it only borrows.
#[derive(Clone, Copy)]
pub struct ImageStore<'a> {
    image: &'a [u8],
    layout: Layout,
    ghost right: { holds image.now layout.count layout.total ≡ true },
}

/// What came of opening an image: the store, and whether the image was accepted. The store of a refused image is empty.
#[derive(Clone, Copy)]
pub struct Opened<'a> {
    pub store: ImageStore<'a>,
    pub verdict: Result<(), SpoiltImage>,
}
