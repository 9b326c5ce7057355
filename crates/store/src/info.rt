//! What a store tells of a file.
ghost use Rattle.std.specs.Prelude.{◌≡◌};
ghost use Rattle.store.specs.Infos.{with_length};

use object::format::Format;
use object::name::Name;
use object::protection::Protection;

/// A file but for its number and its bytes. `parent` is a folder's number, or 0 at the root; `length` counts the bytes.
#[derive(Clone, Copy, PartialEq, Eq)]
pub struct FileInfo {
    pub format: Format,
    pub protection: Protection,
    pub parent: u32,
    pub name: Name,
    pub length: u32,
}

/// A file to be added, but for its number and its bytes. Its format, protection and name are legal by their types.
#[derive(Clone, Copy, PartialEq, Eq)]
pub struct NewFile {
    pub format: Format,
    pub protection: Protection,
    pub parent: u32,
    pub name: Name,
}

impl NewFile {
    /// What a store tells of this file once it has so many bytes.
    pub fn with_length(&self, length: u32) -> FileInfo
        ensures { result ≡ with_length self.now length }
    {
        FileInfo {
            format: self.format,
            protection: self.protection,
            parent: self.parent,
            name: self.name,
            length,
        }
    }
}
