//! The questions that every store answers.
ghost use Rattle.std.specs.Prelude.{◌≡◌, length};
ghost use Rattle.byte_parts.specs.Parts.{Copied};
ghost use Rattle.store.specs.Contents.{Contents, total, next_above, rest_of};
ghost use Rattle.store.specs.Sound.{Sound};
ghost use Rattle.store.specs.Infos.{described};

use crate::info::FileInfo;

/// A store that can be read. `contents` is what it holds, and every store is sound. No question changes anything.
pub trait ReadStore {
    ghost contents: { Self → Contents };

    ghost sound: { (s : Self) → Sound (contents s) };

    /// How many bytes the files may have in all.
    fn capacity(&self) -> u32
        ensures { result ≡ (contents self.now).capacity };

    /// How many files there may be.
    fn limit(&self) -> u32
        ensures { result ≡ (contents self.now).limit };

    /// How many bytes the files have in all.
    fn total(&self) -> u32
        ensures { result ≡ total (contents self.now).files };

    /// How many files there are.
    fn count(&self) -> u32
        ensures { result ≡ length (contents self.now).files };

    /// The smallest file number above `number`, if there is one.
    fn next_above(&self, number: u32) -> Option<u32>
        ensures { result ≡ next_above number (contents self.now).files };

    /// The fields, name and length of a file, or `None` if it is absent.
    fn describe(&self, number: u32) -> Option<FileInfo>
        ensures { result ≡ described number (contents self.now).files };

    /// Copies a file's bytes from `offset` on to the front of `into`, as many as fit and as exist, and answers how many.
    /// None exist of an absent file or past the end. No further byte of `into` changes.
    fn copy(&self, number: u32, offset: u32, into: &mut [u8]) -> usize
        ensures { Copied (rest_of number offset (contents self.now).files) into.old into.new result };
}
