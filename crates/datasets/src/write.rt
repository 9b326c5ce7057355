//! The writers of datasets: head and payload to the front of the caller's buffer.
ghost use Rattle.std.specs.Prelude.{◌≡◌, ◌+◌, ◌<◌, ◌≤◌, length, Some, OnOk};
ghost use Rattle.object.specs.Names.{units_of};
ghost use Rattle.wire.specs.Containers.{data_container};
ghost use Rattle.wire.specs.Strings.{string};
ghost use Rattle.wire.specs.Writing.{Wrote, placed};
ghost use Rattle.datasets.specs.ObjectInfos.{association_type, object_fields, object_info, object_info_in};
ghost use Rattle.datasets.specs.Laws.{ObjectInfoFits, StorageInfoFits, StorageInfosReadBack};
ghost use Rattle.datasets.specs.Readers.{storage_info_in};
ghost use Rattle.datasets.specs.StorageInfos.{storage_type, storage_label, access_capability, storage_info};

use crate::info::{ObjectInfo, StorageInfo, StorageKind};
use crate::text::units;
use object::format::Format;
use object::name::Name;
use wire::container::Heading;
use wire::data::write_data;
use wire::fault::DatasetFault;
use wire::put::{Put, put_bytes, put_number, put_string};

// The number may be no format's, so it is compared and not converted.
fn association_type(format: u16) -> u16
    ensures { result ≡ association_type format }
{
    u16::from(format == Format::Association.number())
}

/// Puts the fields of fixed width.
fn put_object_fields(out: &mut [u8], place: usize, info: &ObjectInfo) -> usize
    requires { place + 52 ≤ length out.old }
    ensures bytes { Wrote place (object_fields info.now) out.old out.new result }
    ensures fits { ObjectInfoFits info.now }
{
    let next = put_number(out, place, info.storage);
    let next = put_number(out, next, info.format);
    let next = put_number(out, next, info.protection.number());
    let next = put_number(out, next, info.size);
    let next = put_bytes(out, next, &[0; 26]);
    let next = put_number(out, next, info.parent);
    let next = put_number(out, next, association_type(info.format));
    put_bytes(out, next, &[0; 8])
}

fn put_name(out: &mut [u8], place: usize, name: &Name) -> usize
    requires { place + length (string (units_of name.now)) ≤ length out.old }
    ensures { Wrote place (string (units_of name.now)) out.old out.new result }
{
    put_string(out, place, name.units())
}

impl Put for ObjectInfo {
    ghost bytes = { object_info };

    ghost fits = { ObjectInfoFits };

    #[tactic(auto, using(crate::proofs::Lengths::length_object_info))]
    fn size(&self) -> usize {
        58 + 2 * self.name.units().len()
    }

    #[tactic(auto, using(wire::proofs::Puts::length_put, crate::proofs::Lengths::length_parts))]
    fn put(&self, out: &mut [u8], place: usize) -> usize {
        let next = put_object_fields(out, place, self);
        let next = put_name(out, next, &self.name);
        put_bytes(out, next, &[0; 3])
    }
}

/// Writes the data container of an ObjectInfo.
#[tactic(auto, using(crate::proofs::InfosBack::object_info_back))]
pub fn write_object_info(
    out: &mut [u8],
    heading: Heading,
    info: &ObjectInfo,
) -> Result<usize, DatasetFault>
    ensures value { (result, out.new) ≡ placed (data_container heading.code heading.transaction (object_info info.now)) out.old }
    ensures back { OnOk result (object_info_in (object_info info.now) ≡ Some info.now) }
{
    write_data(out, heading, info)
}

impl StorageKind {
    fn number(self) -> u16
        ensures { result ≡ storage_type self }
    {
        self as u16
    }

    fn label(self) -> [u16; 8]
        ensures { result ≡ storage_label self }
    {
        match self {
            StorageKind::Programs => units(b"Programs"),
            StorageKind::Handbook => units(b"Handbook"),
        }
    }
}

fn access_capability(writable: bool) -> u16
    ensures { result ≡ access_capability writable }
{
    u16::from(!writable)
}

impl Put for StorageInfo {
    ghost bytes = { storage_info };

    ghost fits = { StorageInfoFits };

    #[tactic(auto, using(crate::proofs::Lengths::length_storage_info))]
    fn size(&self) -> usize {
        46
    }

    #[tactic(auto, using(crate::proofs::Lengths::length_storage_info))]
    fn put(&self, out: &mut [u8], place: usize) -> usize {
        let next = put_number(out, place, self.kind.number());
        let next = put_number(out, next, 2u16);
        let next = put_number(out, next, access_capability(self.writable));
        let next = put_number(out, next, self.capacity);
        let next = put_number(out, next, self.free_bytes);
        let next = put_number(out, next, self.free_objects);
        let next = put_string(out, next, &self.kind.label());
        put_string(out, next, &[])
    }
}

/// Writes the data container of a StorageInfo.
#[tactic(auto, using(crate::proofs::InfosBack::storage_info_back))]
pub fn write_storage_info(
    out: &mut [u8],
    heading: Heading,
    info: &StorageInfo,
) -> Result<usize, DatasetFault>
    ensures value { (result, out.new) ≡ placed (data_container heading.code heading.transaction (storage_info info.now)) out.old }
    ensures back { OnOk result (storage_info_in (storage_info info.now) ≡ Some info.now) }
    ensures law { StorageInfosReadBack }
{
    write_data(out, heading, info)
}
