//! The datasets that the responder only writes.
use crate::numbers::{Codes, Numbers};
use crate::text::Quoted;
use byte_parts::cut::{cut, cut_number};
use std::fmt;
use wire::string::read_string;

/// The text of a string, two bytes a unit.
type Text<'a> = Quoted<'a, [u8; 2]>;

/// What is told of a StorageInfo.
#[derive(Clone, Copy)]
pub struct StorageInfo<'a> {
    kind: u16,
    access: u16,
    capacity: u64,
    free_bytes: u64,
    free_objects: u32,
    description: Text<'a>,
}

/// What is told of a DeviceInfo.
#[derive(Clone, Copy)]
pub struct DeviceInfo<'a> {
    version: u16,
    extension: u32,
    operations: Codes<'a>,
    formats: Codes<'a>,
    manufacturer: Text<'a>,
    model: Text<'a>,
    device_version: Text<'a>,
    serial_number: Text<'a>,
}

fn cut_string(bytes: &[u8]) -> Option<(Text<'_>, &[u8])> {
    let text = read_string(bytes)?;
    let (units, _) = text.units.as_chunks();
    Some((Quoted(units), text.rest))
}

/// An array of codes.
fn cut_array(bytes: &[u8]) -> Option<(Codes<'_>, &[u8])> {
    let (count, rest) = cut_number::<u32>(bytes)?;
    let (codes, rest) = cut(rest, 2 * count as usize)?;
    let (codes, _) = codes.as_chunks();
    Some((Numbers(codes), rest))
}

impl<'a> StorageInfo<'a> {
    /// The StorageInfo that a payload is.
    pub fn read(payload: &'a [u8]) -> Option<StorageInfo<'a>> {
        let (kind, rest) = cut_number(payload)?;
        let (_filesystem, rest) = cut_number::<u16>(rest)?;
        let (access, rest) = cut_number(rest)?;
        let (capacity, rest) = cut_number(rest)?;
        let (free_bytes, rest) = cut_number(rest)?;
        let (free_objects, rest) = cut_number(rest)?;
        let (description, rest) = cut_string(rest)?;
        let (_volume, rest) = cut_string(rest)?;
        if !rest.is_empty() {
            return None;
        }
        Some(StorageInfo {
            kind,
            access,
            capacity,
            free_bytes,
            free_objects,
            description,
        })
    }
}

impl fmt::Display for StorageInfo<'_> {
    fn fmt<W: fmt::Write>(&self, f: &mut fmt::Formatter<W>) -> fmt::Result {
        write!(
            f,
            "StorageInfo: {}, type {}, access {}, capacity {}, free bytes {}, free objects {}",
            self.description,
            self.kind,
            self.access,
            self.capacity,
            self.free_bytes,
            self.free_objects
        )
    }
}

impl<'a> DeviceInfo<'a> {
    /// The DeviceInfo that a payload is.
    pub fn read(payload: &'a [u8]) -> Option<DeviceInfo<'a>> {
        let (version, rest) = cut_number(payload)?;
        let (extension, rest) = cut_number(rest)?;
        let (_extension_version, rest) = cut_number::<u16>(rest)?;
        let (_extension_name, rest) = cut_string(rest)?;
        let (_mode, rest) = cut_number::<u16>(rest)?;
        let (operations, rest) = cut_array(rest)?;
        let (_events, rest) = cut_array(rest)?;
        let (_properties, rest) = cut_array(rest)?;
        let (_captures, rest) = cut_array(rest)?;
        let (formats, rest) = cut_array(rest)?;
        let (manufacturer, rest) = cut_string(rest)?;
        let (model, rest) = cut_string(rest)?;
        let (device_version, rest) = cut_string(rest)?;
        let (serial_number, rest) = cut_string(rest)?;
        if !rest.is_empty() {
            return None;
        }
        Some(DeviceInfo {
            version,
            extension,
            operations,
            formats,
            manufacturer,
            model,
            device_version,
            serial_number,
        })
    }
}

impl fmt::Display for DeviceInfo<'_> {
    fn fmt<W: fmt::Write>(&self, f: &mut fmt::Formatter<W>) -> fmt::Result {
        write!(
            f,
            "DeviceInfo: version {}, extension {}, operations{}, formats{}, {} {} {} {}",
            self.version,
            self.extension,
            self.operations,
            self.formats,
            self.manufacturer,
            self.model,
            self.device_version,
            self.serial_number
        )
    }
}
