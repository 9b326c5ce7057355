//! The two storages, and where objects are on them.
ghost use Rattle.std.specs.Prelude.{◌≡◌, ◌+◌, ◌<◌};
ghost use Rattle.protocol.specs.Storages.{is_storage};
ghost use Rattle.looking.specs.Places.{id_of, base_of, storage_with};

use datasets::info::StorageKind;
use protocol::fault::OperationFault;

/// The id of the storage that can be written.
pub const FIRST_STORAGE: u32 = 0x0001_0001;

pub const SECOND_STORAGE: u32 = 0x0002_0001;

/// A handle is the file number, plus this on the second storage.
pub const SECOND_BASE: u32 = 0x8000_0000;

/// As a folder or a parent: the root.
pub const ROOT: u32 = 0xffff_ffff;

// The two ways between an id and its storage are functions: an impl of From or TryFrom has to stand with the type.
/// A storage's id.
pub(crate) fn id_of(storage: StorageKind) -> u32
    ensures { result ≡ id_of storage }
{
    match storage {
        StorageKind::Programs => FIRST_STORAGE,
        StorageKind::Handbook => SECOND_STORAGE,
    }
}

/// The storage with this id.
pub fn storage_with(id: u32) -> Result<StorageKind, OperationFault>
    ensures { result ≡ storage_with id }
{
    match id {
        FIRST_STORAGE => Ok(StorageKind::Programs),
        SECOND_STORAGE => Ok(StorageKind::Handbook),
        _ => Err(OperationFault::InvalidStorage),
    }
}

/// Whether this is the id of a storage.
pub fn is_storage(id: u32) -> bool
    ensures { result ≡ is_storage id }
{
    storage_with(id).is_ok()
}

/// Where an object is: its storage, and its number there.
#[derive(Clone, Copy, Debug, PartialEq, Eq)]
pub struct Place {
    pub storage: StorageKind,
    pub number: u32,
}

impl Place {
    /// The handle of the object there.
    pub(crate) fn handle(self) -> u32
        requires { self.number < 0x80000000 }
        ensures { result ≡ base_of self.storage + self.number }
    {
        match self.storage {
            StorageKind::Programs => self.number,
            StorageKind::Handbook => SECOND_BASE + self.number,
        }
    }
}

impl From<u32> for Place {
    ghost use Rattle.looking.specs.Places.{place_of};

    ghost from_gives = { λ handle r. r ≡ place_of handle };

    /// The place of the object with this handle.
    fn from(handle: u32) -> Place {
        if handle < SECOND_BASE {
            Place {
                storage: StorageKind::Programs,
                number: handle,
            }
        } else {
            Place {
                storage: StorageKind::Handbook,
                number: handle - SECOND_BASE,
            }
        }
    }
}
