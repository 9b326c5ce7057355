//! Objects: their datasets and their bytes.
ghost use Rattle.std.specs.Prelude.{◌≡◌, ◌<◌, ◌≤◌, length, drop, IfSome, IfOk, ⊤};
ghost use Rattle.std.specs.Option.{option_map};
ghost use Rattle.byte_parts.specs.Parts.{Copied};
ghost use Rattle.store.specs.Contents.{bytes_of};
ghost use Rattle.store.specs.Infos.{info_of};
ghost use Rattle.protocol.specs.Commands.{parameter};
ghost use Rattle.protocol.specs.Looking.{info_shown, object_shown, part_shown, part};
ghost use Rattle.protocol.specs.Storages.{object_at};
ghost use Rattle.looking.specs.Looks.{shown_in, file_told, body_told, object_told, parent_on};
ghost use Rattle.looking.specs.Outcomes.{result_told};

use crate::outcome::{Done, shown};
use crate::pair::StoragePair;
use crate::place::{Place, id_of};
use datasets::info::{ObjectInfo, StorageKind};
use datasets::write::write_object_info;
use protocol::fault::OperationFault;
use store::info::FileInfo;
use store::read::ReadStore;
use store::write::WriteStore;
use wire::command::Command;
use wire::data::write_data;
use wire::put::Put;
use wire::response::Parameters;

/// A parent as a handle, or 0.
fn parent_handle(storage: StorageKind, parent: u32) -> u32
    requires { parent < 0x80000000 }
    ensures { result ≡ parent_on storage parent }
{
    if parent == 0 {
        return 0;
    }
    Place {
        storage,
        number: parent,
    }
    .handle()
}

/// What an ObjectInfo says of a file.
fn object_told(handle: u32, file: &FileInfo) -> ObjectInfo
    requires { file.now.parent < 0x80000000 }
    ensures { result ≡ object_told handle file.now }
{
    let Place { storage, .. } = Place::from(handle);
    ObjectInfo {
        storage: id_of(storage),
        format: file.format.number(),
        protection: file.protection,
        size: file.length,
        parent: parent_handle(storage, file.parent),
        name: file.name,
    }
}

/// A part of an object's bytes, which goes straight from the store into the buffer.
#[derive(Drop)]
struct Part<'p, 's, W: WriteStore, R: ReadStore> {
    storages: &'p StoragePair<'s, W, R>,
    handle: u32,
    offset: u32,
    len: u32,
    ghost whole: { length (part offset len (bytes_of (object_at storages.now handle))) ≡ len },
}

impl<'p, 's, W: WriteStore, R: ReadStore> Put for Part<'p, 's, W, R> {
    ghost bytes = { λ p. part p.offset p.len (bytes_of (object_at p.storages.now p.handle)) };

    ghost fits = { λ p. ⊤ };

    fn size(&self) -> usize {
        self.len as usize
    }

    fn put(&self, out: &mut [u8], place: usize) -> usize {
        let end = place + self.len as usize;
        self.storages
            .copy(self.handle, self.offset, &mut out[place..end]);
        end
    }
}

impl<'s, W: WriteStore, R: ReadStore> StoragePair<'s, W, R> {
    /// What is told of the file with a handle, if it is there.
    #[tactic(auto, unfolding(protocol::specs::Storages::object_at))]
    fn described(&self, handle: u32) -> Option<FileInfo>
        ensures value { result ≡ option_map info_of (object_at self.now handle) }
        ensures bounds { IfSome result (λ f. (f.parent < 0x80000000) × (f.length ≤ 32768)) }
    {
        let Place { storage, number } = Place::from(handle);
        match storage {
            StorageKind::Programs => self.first().describe(number),
            StorageKind::Handbook => self.second().describe(number),
        }
    }

    /// What is told of the file with a handle, or that there is none.
    pub fn file(&self, handle: u32) -> Result<FileInfo, OperationFault>
        ensures value { result ≡ file_told self.now handle }
        ensures bounds { IfOk result (λ f. (f.parent < 0x80000000) × (f.length ≤ 32768)) }
    {
        self.described(handle).ok_or(OperationFault::InvalidHandle)
    }

    /// GetObjectInfo.
    #[tactic(auto, unfolding(protocol::specs::Looking::info_shown), using(crate::proofs::Looks::shown_placed))]
    pub fn get_object_info(
        &self,
        command: &Command,
        buffer: &mut [u8],
    ) -> Result<Done, OperationFault>
        ensures { (result_told result, buffer.new) ≡ shown_in command.now (info_shown self.now (parameter 1 command.now)) buffer.old }
    {
        let handle = command.parameters[0];
        let file = self.file(handle)?;
        let info = object_told(handle, &file);
        let written = write_object_info(buffer, command.heading(), &info);
        shown(Parameters::none(), written)
    }

    /// Copies a file's bytes from `offset` on to the front of `into`.
    #[tactic(auto, unfolding(protocol::specs::Storages::object_at))]
    fn copy(&self, handle: u32, offset: u32, into: &mut [u8]) -> usize
        ensures { Copied (drop offset (bytes_of (object_at self.now handle))) into.old into.new result }
    {
        let Place { storage, number } = Place::from(handle);
        match storage {
            StorageKind::Programs => self.first().copy(number, offset, into),
            StorageKind::Handbook => self.second().copy(number, offset, into),
        }
    }

    /// A file with bytes.
    fn object(&self, handle: u32) -> Result<FileInfo, OperationFault>
        ensures { result ≡ body_told self.now handle }
    {
        let file = self.file(handle)?;
        if file.format.is_folder() {
            return Err(OperationFault::InvalidHandle);
        }
        Ok(file)
    }

    /// GetObject.
    #[tactic(auto, unfolding(protocol::specs::Looking::object_shown), using(crate::proofs::Looks::shown_placed))]
    pub fn get_object(&self, command: &Command, buffer: &mut [u8]) -> Result<Done, OperationFault>
        ensures { (result_told result, buffer.new) ≡ shown_in command.now (object_shown self.now (parameter 1 command.now)) buffer.old }
    {
        let handle = command.parameters[0];
        let file = self.object(handle)?;
        let part = Part {
            storages: self,
            handle,
            offset: 0,
            len: file.length,
        };
        let written = write_data(buffer, command.heading(), &part);
        shown(Parameters::none(), written)
    }

    /// GetPartialObject.
    #[tactic(auto, unfolding(protocol::specs::Looking::part_shown), using(crate::proofs::Looks::shown_placed))]
    pub fn get_partial_object(
        &self,
        command: &Command,
        buffer: &mut [u8],
    ) -> Result<Done, OperationFault>
        ensures { (result_told result, buffer.new) ≡ shown_in command.now (part_shown self.now (parameter 1 command.now) (parameter 2 command.now) (parameter 3 command.now)) buffer.old }
    {
        let handle = command.parameters[0];
        let offset = command.parameters[1];
        let file = self.object(handle)?;
        if offset > file.length {
            return Err(OperationFault::InvalidParameter);
        }
        let count = command.parameters[2].min(file.length - offset);
        let part = Part {
            storages: self,
            handle,
            offset,
            len: count,
        };
        let written = write_data(buffer, command.heading(), &part);
        shown(Parameters::one(count), written)
    }
}
