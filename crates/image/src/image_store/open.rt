//! Opening an image.
ghost use Rattle.std.specs.Prelude.{◌≡◌, [], Ok, IfOk, OnOk};
ghost use Rattle.std.specs.Result.{result_map_both};
ghost use Rattle.image.specs.Held.{held, verdict_of};
ghost use Rattle.image_format.specs.Images.{ImageLaws, IsImage};
ghost use Rattle.image_format.specs.Parsed.{parsed};

use crate::image_store::{ImageStore, Opened};
use image_format::fault::SpoiltImage;
use image_format::layout::Layout;
use image_format::open::layout_in;

impl<'a> ImageStore<'a> {
    /// The store in an image, or the place of the image's first wrong field.
    #[tactic(auto, using(image_format::proofs::Exact::image_laws, crate::proofs::Asked::held_image))]
    pub fn try_open(image: &'a [u8]) -> Result<ImageStore<'a>, SpoiltImage>
        ensures contents { IfOk result (λ s. held s.image.now ≡ held image.now) }
        ensures verdict { result_map_both (λ _. tt) (λ e. e) result ≡ verdict_of (parsed image.now) }
        ensures image { OnOk result (IsImage image.now (held image.now)) }
        ensures laws { ImageLaws }
    {
        let layout = layout_in(image)?;
        Ok(ImageStore { image, layout })
    }

    /// The store in an image, or an empty one with the place of the image's first wrong field.
    #[tactic(auto, using(crate::proofs::Asked::refused_held))]
    pub fn open(image: &'a [u8]) -> Opened<'a>
        ensures contents { held result.store.image.now ≡ held image.now }
        ensures verdict { result.verdict ≡ verdict_of (parsed image.now) }
        ensures image { result.verdict ≡ Ok tt → IsImage image.now (held image.now) }
        ensures laws { ImageLaws }
    {
        match ImageStore::try_open(image) {
            Ok(store) => Opened {
                store,
                verdict: Ok(()),
            },
            Err(fault) => Opened {
                store: ImageStore::without_files(image),
                verdict: Err(fault),
            },
        }
    }

    // The store in the empty part at the front of these bytes.
    #[tactic(auto, using(crate::proofs::Asked::empty_held))]
    fn without_files(bytes: &'a [u8]) -> ImageStore<'a>
        ensures { result.image.now ≡ [] }
    {
        let (none, _) = bytes.split_at(0);
        ImageStore {
            image: none,
            layout: Layout { count: 0, total: 0 },
        }
    }
}
