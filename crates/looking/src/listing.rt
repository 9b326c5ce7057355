//! The listing of handles.
ghost use Rattle.std.specs.Prelude.{◌≡◌, ◌+◌, ◌≤◌, ◌++◌};
ghost use Rattle.protocol.specs.Commands.{parameter};
ghost use Rattle.protocol.specs.Looking.{handles_shown, handles_on, names};
ghost use Rattle.arrayvec.specs.ArrayVec.{array_vec_len};
ghost use Rattle.looking.specs.Listings.{lies_in, listed_in, folder_listed, listing_told, handles_of};
ghost use Rattle.looking.specs.Looks.{shown_in};
ghost use Rattle.looking.specs.Outcomes.{result_told};
ghost use Rattle.looking.specs.Places.{base_of, id_of, naming, named_by};

use crate::outcome::{Done, shown};
use crate::pair::StoragePair;
use crate::place::{Place, ROOT, storage_with};
use arrayvec::ArrayVec;
use datasets::info::StorageKind;
use protocol::fault::OperationFault;
use store::limits::MAX_FILES;
use store::read::ReadStore;
use store::walk::files_of;
use store::write::WriteStore;
use wire::command::Command;
use wire::data::write_array;
use wire::response::Parameters;

/// As a storage: both of them.
const EVERY_STORAGE: u32 = 0xffff_ffff;

/// As many handles as two stores can have files.
type Handles = ArrayVec<u32, MOST_HANDLES>;

const MOST_HANDLES: usize = 2 * MAX_FILES as usize;

/// The files of one storage or of both, all of them or those with this parent.
#[derive(Clone, Copy)]
pub(crate) struct Listing {
    pub only: Option<StorageKind>,
    pub wanted: Option<u32>,
}

/// The one storage that a parameter names, or none if it names both.
fn named_by(parameter: u32) -> Result<Option<StorageKind>, OperationFault>
    ensures { result ≡ named_by parameter }
{
    if parameter == EVERY_STORAGE {
        return Ok(None);
    }
    Ok(Some(storage_with(parameter)?))
}

/// Whether a storage is listed.
fn is_listed(only: Option<StorageKind>, storage: StorageKind) -> bool
    ensures { result ≡ names (naming only) (id_of storage) }
{
    only.is_none_or(|named| named == storage)
}

/// Whether a parent is the one that is asked for, if one is.
fn lies_in(wanted: Option<u32>, parent: u32) -> bool
    ensures { result ≡ lies_in wanted parent }
{
    wanted.is_none_or(|folder| parent == folder)
}

/// Gathers the handles of the files of a store that a listing has.
#[tactic(auto, using(crate::proofs::Listings::so_far_more))]
fn gather<S: ReadStore>(store: &S, storage: StorageKind, wanted: Option<u32>, handles: &mut Handles)
    requires { array_vec_len handles.old + 1024 ≤ 2048 }
    ensures gathered { handles.new.items ≡ handles.old.items ++ handles_on (base_of storage) (listed_in wanted) (S.ReadStore.contents store.now).files }
    ensures bound { array_vec_len handles.new ≤ array_vec_len handles.old + 1024 }
{
    for (number, file) in files_of(store) {
        if lies_in(wanted, file.parent) {
            handles.push(Place { storage, number }.handle());
        }
    }
}

impl<'s, W: WriteStore, R: ReadStore> StoragePair<'s, W, R> {
    fn folder_listed(
        &self,
        only: Option<StorageKind>,
        folder: u32,
    ) -> Result<Listing, OperationFault>
        ensures { result ≡ folder_listed self.now only folder }
    {
        let file = self.file(folder)?;
        let Place { storage, number } = Place::from(folder);
        if !(file.format.is_folder() && is_listed(only, storage)) {
            return Err(OperationFault::InvalidParent);
        }
        Ok(Listing {
            only: Some(storage),
            wanted: Some(number),
        })
    }

    fn listing_of(&self, storage: u32, format: u32, folder: u32) -> Result<Listing, OperationFault>
        ensures { result ≡ listing_told self.now storage format folder }
    {
        let only = named_by(storage)?;
        if format != 0 {
            return Err(OperationFault::FormatNotSupported);
        }
        match folder {
            0 => Ok(Listing { only, wanted: None }),
            ROOT => Ok(Listing {
                only,
                wanted: Some(0),
            }),
            _ => self.folder_listed(only, folder),
        }
    }

    /// The handles of a listing.
    fn handles_of(&self, listing: Listing) -> Handles
        ensures { result.items ≡ handles_of self.now listing }
    {
        let mut handles = ArrayVec::new();
        if is_listed(listing.only, StorageKind::Programs) {
            gather(
                self.first(),
                StorageKind::Programs,
                listing.wanted,
                &mut handles,
            );
        }
        if is_listed(listing.only, StorageKind::Handbook) {
            gather(
                self.second(),
                StorageKind::Handbook,
                listing.wanted,
                &mut handles,
            );
        }
        handles
    }

    /// GetObjectHandles. It asks each store at most once for each of its files which one comes next, and once more.
    #[tactic(auto, using(crate::proofs::Looks::shown_placed, crate::proofs::Listings::handles_is))]
    pub fn get_object_handles(
        &self,
        command: &Command,
        buffer: &mut [u8],
    ) -> Result<Done, OperationFault>
        ensures { (result_told result, buffer.new) ≡ shown_in command.now (handles_shown self.now (parameter 1 command.now) (parameter 2 command.now) (parameter 3 command.now)) buffer.old }
    {
        let listing = self.listing_of(
            command.parameters[0],
            command.parameters[1],
            command.parameters[2],
        )?;
        // The handles are gathered first, since a listing that is refused for want of room may touch no byte of the buffer.
        let handles = self.handles_of(listing);
        let written = write_array(buffer, command.heading(), handles.as_slice());
        shown(Parameters::none(), written)
    }
}
