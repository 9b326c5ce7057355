//! A row of a table: one file, and where its bytes lie.
ghost use Rattle.std.specs.Prelude.{◌≡◌};

use object::format::Format;
use object::name::Name;
use object::protection::Protection;
use store::info::FileInfo;

/// A row of a table of files. `start` is where its bytes begin in the memory of bytes.
#[derive(Clone, Copy)]
pub struct Place {
    pub number: u32,
    pub file: FileInfo,
    pub start: u32,
}

// A name of one unit, for rows that are not in use.
#[tactic(auto, unfolding(object::specs::Legal::legal_name))]
fn spare_name() -> Name {
    Name::from_units(&[0x5f]).unwrap()
}

impl Place {
    /// A row that is not in use, for a caller to make a table from.
    pub fn unused() -> Place
        ensures number { result.number ≡ 0 }
        ensures start { result.start ≡ 0 }
        ensures length { result.file.length ≡ 0 }
        ensures parent { result.file.parent ≡ 0 }
    {
        let file = FileInfo {
            format: Format::Undefined,
            protection: Protection::Unprotected,
            parent: 0,
            name: spare_name(),
            length: 0,
        };
        Place {
            number: 0,
            file,
            start: 0,
        }
    }
}
