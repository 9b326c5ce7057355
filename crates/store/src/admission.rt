//! Whether a store may add a file.
ghost use Rattle.std.specs.Prelude.{◌≡◌, false, ◌&&◌};
ghost use Rattle.store.specs.Changes.{added, is_number, legal_length};
ghost use Rattle.store.specs.Changing.{file_of, result_of};

use crate::fault::StoreFault;
use crate::info::NewFile;
use crate::limits::{MAX_LENGTH, is_number};
use crate::questions::{has_room, is_parent, is_taken};
use crate::read::ReadStore;

/// Whether a file of this number may have these bytes. Its format, protection and name are legal by their types.
pub fn is_legal(number: u32, file: &NewFile, bytes: &[u8]) -> bool
    ensures { result ≡ is_number number && legal_length (file_of file.now bytes.now) }
{
    is_number(number) && bytes.len() <= MAX_LENGTH && (!file.format.is_folder() || bytes.is_empty())
}

/// The checks of an addition to a store that is not locked, in their order.
#[tactic(auto, unfolding(crate::specs::Changes::added))]
pub fn check_addition<S: ReadStore>(
    store: &S,
    number: u32,
    file: &NewFile,
    bytes: &[u8],
) -> Result<(), StoreFault>
    ensures { result ≡ result_of (added false number (file_of file.now bytes.now) (S.ReadStore.contents store.now)) }
{
    if !is_legal(number, file, bytes) {
        return Err(StoreFault::InvalidDataset);
    }
    if is_taken(store, number) {
        return Err(StoreFault::NumberTaken);
    }
    if !is_parent(store, file.parent) || number <= file.parent {
        return Err(StoreFault::InvalidParent);
    }
    if !has_room(store, bytes.len() as u32) {
        return Err(StoreFault::Full);
    }
    Ok(())
}
