//! What is checked before an operation changes anything.
ghost use Rattle.std.specs.Prelude.{◌≡◌, ◌≤◌, OnOk};
ghost use Rattle.protocol.specs.Acting.{dataset_in, parent_number, parent_told, payload_of_size};
ghost use Rattle.responder.specs.Acts.{deletable, announced_as, announcement_told, storage_meant, each_ok};

use datasets::info::{ObjectInfo, StorageKind};
use looking::pair::StoragePair;
use looking::place::{Place, ROOT, storage_with};
use object::format::Format;
use object::protection::Protection;
use protocol::fault::OperationFault;
use protocol::session::{Announcement, OpenSession};
use store::limits::{LAST_NUMBER, MAX_LENGTH};
use store::questions::{has_room, is_parent};
use store::read::ReadStore;
use store::write::WriteStore;
use wire::command::Command;
use wire::container::read_data;
use wire::fault::DatasetFault;

/// The payload of a command's data, if it has this size.
pub(crate) fn payload_of_size<'a>(
    size: u32,
    command: &Command,
    host: &'a [u8],
) -> Result<&'a [u8], DatasetFault>
    ensures { each_ok (λ x. x.now) result ≡ payload_of_size size command.now host.now }
{
    let payload = read_data(host, command.heading())?;
    if payload.bytes.len() != size as usize {
        return Err(DatasetFault::IncompleteTransfer);
    }
    Ok(payload.bytes)
}

/// The ObjectInfo that comes with a command.
fn dataset(command: &Command, host: &[u8]) -> Result<ObjectInfo, DatasetFault>
    ensures { result ≡ dataset_in command.now host.now }
{
    let payload = read_data(host, command.heading())?;
    ObjectInfo::read(payload.bytes)
}

/// The file number of a parent parameter, in which both 0 and 0xFFFFFFFF mean the root.
fn parent_number(parent: u32) -> u32
    ensures { result ≡ parent_number parent }
{
    match parent {
        ROOT => 0,
        number => number,
    }
}

/// The parent as a reply tells it.
pub(crate) fn parent_told(parent: u32) -> u32
    ensures { result ≡ parent_told parent }
{
    match parent {
        0 => ROOT,
        number => number,
    }
}

/// The storage that a parameter of SendObjectInfo means, in which 0 means the first.
fn storage_meant(parameter: u32) -> Result<StorageKind, OperationFault>
    ensures { result ≡ storage_meant parameter }
{
    if parameter == 0 {
        return Ok(StorageKind::Programs);
    }
    storage_with(parameter)
}

/// The announcement of a file of this format, if the first store can take it.
fn announced_as<W: WriteStore, R: ReadStore>(
    storages: &StoragePair<'_, W, R>,
    session: OpenSession,
    parent: u32,
    info: &ObjectInfo,
    format: Format,
) -> Result<Announcement, OperationFault>
    ensures room { OnOk result (session.next ≤ 0x7FFFFFFE) }
    ensures value { result ≡ announced_as storages.now session parent info.now format }
{
    if format.is_folder() && info.size != 0 {
        return Err(OperationFault::InvalidDataset);
    }
    let parent = parent_number(parent);
    if !is_parent(storages.first(), parent) {
        return Err(OperationFault::InvalidParent);
    }
    if info.size as usize > MAX_LENGTH {
        return Err(OperationFault::ObjectTooLarge);
    }
    if !has_room(storages.first(), info.size) || session.next > LAST_NUMBER {
        return Err(OperationFault::StoreFull);
    }
    Ok(Announcement {
        number: session.next,
        format,
        protection: info.protection,
        parent,
        name: info.name,
        size: info.size,
    })
}

/// The announcement that SendObjectInfo makes.
pub(crate) fn announcement<W: WriteStore, R: ReadStore>(
    storages: &StoragePair<'_, W, R>,
    session: OpenSession,
    command: &Command,
    host: &[u8],
) -> Result<Announcement, OperationFault>
    ensures room { OnOk result (session.next ≤ 0x7FFFFFFE) }
    ensures value { result ≡ announcement_told storages.now session command.now host.now }
{
    let storage = storage_meant(command.parameters[0])?;
    if storage == StorageKind::Handbook || storages.first().is_locked() {
        return Err(OperationFault::StoreReadOnly);
    }
    let info = dataset(command, host)?;
    let format = Format::try_from(info.format).map_err(|_| OperationFault::InvalidFormat)?;
    announced_as(storages, session, command.parameters[1], &info, format)
}

/// Whether an object may be deleted, as far as the store is not asked.
pub(crate) fn deletable<W: WriteStore, R: ReadStore>(
    storages: &StoragePair<'_, W, R>,
    handle: u32,
    format: u32,
) -> Result<(), OperationFault>
    ensures { result ≡ deletable storages.now handle format }
{
    if format != 0 {
        return Err(OperationFault::FormatNotSupported);
    }
    let file = storages.file(handle)?;
    if Place::from(handle).storage == StorageKind::Handbook {
        return Err(OperationFault::StoreReadOnly);
    }
    if file.protection == Protection::ReadOnly {
        return Err(OperationFault::ObjectProtected);
    }
    Ok(())
}
