//! The device and its two storages.
ghost use Rattle.std.specs.Prelude.{◌≡◌};
ghost use Rattle.protocol.specs.Commands.{parameter};
ghost use Rattle.protocol.specs.Looking.{device_shown, storages_shown, storage_shown, storage_info_of};
ghost use Rattle.looking.specs.Looks.{shown_in, storage_told};
ghost use Rattle.looking.specs.Outcomes.{result_told};

use crate::outcome::{Done, shown};
use crate::pair::StoragePair;
use crate::place::{FIRST_STORAGE, SECOND_STORAGE, storage_with};
use datasets::device::write_device_info;
use datasets::info::{StorageInfo, StorageKind};
use datasets::write::write_storage_info;
use protocol::fault::OperationFault;
use store::read::ReadStore;
use store::write::WriteStore;
use wire::command::Command;
use wire::data::write_array;
use wire::response::Parameters;

/// GetDeviceInfo.
pub fn get_device_info(command: &Command, buffer: &mut [u8]) -> Result<Done, OperationFault>
    ensures { (result_told result, buffer.new) ≡ shown_in command.now device_shown buffer.old }
{
    let written = write_device_info(buffer, command.heading());
    shown(Parameters::none(), written)
}

/// GetStorageIDs.
pub fn get_storage_ids(command: &Command, buffer: &mut [u8]) -> Result<Done, OperationFault>
    ensures { (result_told result, buffer.new) ≡ shown_in command.now storages_shown buffer.old }
{
    let written = write_array(buffer, command.heading(), &[FIRST_STORAGE, SECOND_STORAGE]);
    shown(Parameters::none(), written)
}

/// What is told of a store as a storage.
fn storage_info_of<S: ReadStore>(store: &S, kind: StorageKind, writable: bool) -> StorageInfo
    ensures { result ≡ storage_info_of kind writable (S.ReadStore.contents store.now) }
{
    StorageInfo {
        kind,
        writable,
        capacity: store.capacity() as u64,
        free_bytes: (store.capacity() - store.total()) as u64,
        free_objects: store.limit() - store.count(),
    }
}

impl<'s, W: WriteStore, R: ReadStore> StoragePair<'s, W, R> {
    fn storage_info(&self, id: u32) -> Result<StorageInfo, OperationFault>
        ensures { result ≡ storage_told self.now id }
    {
        let storage = storage_with(id)?;
        Ok(match storage {
            StorageKind::Programs => {
                storage_info_of(self.first(), storage, !self.first().is_locked())
            }
            StorageKind::Handbook => storage_info_of(self.second(), storage, false),
        })
    }

    /// GetStorageInfo.
    #[tactic(auto, unfolding(protocol::specs::Looking::storage_shown), using(crate::proofs::Looks::shown_placed))]
    pub fn get_storage_info(
        &self,
        command: &Command,
        buffer: &mut [u8],
    ) -> Result<Done, OperationFault>
        ensures { (result_told result, buffer.new) ≡ shown_in command.now (storage_shown self.now (parameter 1 command.now)) buffer.old }
    {
        let info = self.storage_info(command.parameters[0])?;
        let written = write_storage_info(buffer, command.heading(), &info);
        shown(Parameters::none(), written)
    }
}
