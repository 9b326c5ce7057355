//! The reading questions, over an image.
ghost use Rattle.std.specs.Prelude.{◌≡◌, drop};
ghost use Rattle.image.specs.Held.{held};
ghost use Rattle.image.specs.HeldSound.{held_sound};

use crate::image_store::ImageStore;
use byte_parts::copy::copy_fitting;
use image_format::seek::{find, seek_above};
use object::name::Name;
use object::protection::Protection;
use store::info::FileInfo;
use store::read::ReadStore;

/// The part of `bytes` from `offset` on.
fn rest_from(bytes: &[u8], offset: u32) -> &[u8]
    ensures { result.now ≡ drop offset bytes.now }
{
    bytes.get(offset as usize..).unwrap_or(&[])
}

impl<'a> ReadStore for ImageStore<'a> {
    ghost contents = { λ s. held s.image.now };

    ghost sound = { λ s. held_sound s.image.now };

    // An image's store is full: its capacity is its total, and its limit its count.
    fn capacity(&self) -> u32 {
        self.layout.total
    }

    fn limit(&self) -> u32 {
        self.layout.count
    }

    fn total(&self) -> u32 {
        self.layout.total
    }

    fn count(&self) -> u32 {
        self.layout.count
    }

    #[tactic(auto, using(crate::proofs::Asked::asked))]
    fn next_above(&self, number: u32) -> Option<u32> {
        seek_above(self.image, self.layout.count, number).map(|record| record.head.number)
    }

    #[tactic(auto, using(crate::proofs::Asked::asked))]
    fn describe(&self, number: u32) -> Option<FileInfo> {
        let record = find(self.image, self.layout.count, number)?;
        let name = Name::from_bytes(record.name)?;
        Some(FileInfo {
            format: record.head.format,
            protection: Protection::ReadOnly,
            parent: record.head.parent,
            name,
            length: record.body.len() as u32,
        })
    }

    #[tactic(auto, using(crate::proofs::Asked::asked))]
    fn copy(&self, number: u32, offset: u32, into: &mut [u8]) -> usize {
        let body = find(self.image, self.layout.count, number)
            .map(|record| record.body)
            .unwrap_or(&[]);
        copy_fitting(rest_from(body, offset), into)
    }
}
