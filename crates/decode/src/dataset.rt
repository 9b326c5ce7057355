//! Datasets in words.
use crate::fields::{DeviceInfo, StorageInfo};
use crate::numbers::{Ids, Numbers};
use crate::text::Quoted;
use byte_parts::cut::cut_number;
use datasets::info::ObjectInfo;
use object::protection::Protection;
use std::error::Error;
use std::fmt;
use wire::operation::{OperationCode, operation_of};

/// What a data container carries, by its operation.
#[derive(Clone, Copy)]
pub enum Dataset<'a> {
    Device(DeviceInfo<'a>),
    Storage(StorageInfo<'a>),
    Object(ObjectInfo),
    Array(Array<'a>),
    Bytes(usize),
}

/// Handles or storage ids.
#[derive(Clone, Copy)]
pub struct Array<'a> {
    count: u32,
    what: &'static str,
    ids: Ids<'a>,
}

/// What a payload is not.
#[derive(Clone, Copy, Debug)]
pub enum NoDataset {
    Info(&'static str),
    Array(&'static str),
    ArrayOf { count: u32, what: &'static str },
}

impl fmt::Display for NoDataset {
    fn fmt<W: fmt::Write>(&self, f: &mut fmt::Formatter<W>) -> fmt::Result {
        match self {
            NoDataset::Info(name) => write!(f, "no {name}"),
            NoDataset::Array(what) => write!(f, "no array of {what}"),
            NoDataset::ArrayOf { count, what } => write!(f, "no array of {count} {what}"),
        }
    }
}

impl Error for NoDataset {}

impl<'a> Array<'a> {
    fn read(what: &'static str, payload: &'a [u8]) -> Result<Array<'a>, NoDataset> {
        let (count, rest) = cut_number::<u32>(payload).ok_or(NoDataset::Array(what))?;
        let (ids, over) = rest.as_chunks();
        if ids.len() == count as usize && over.is_empty() {
            Ok(Array {
                count,
                what,
                ids: Numbers(ids),
            })
        } else {
            Err(NoDataset::ArrayOf { count, what })
        }
    }
}

impl fmt::Display for Array<'_> {
    fn fmt<W: fmt::Write>(&self, f: &mut fmt::Formatter<W>) -> fmt::Result {
        write!(f, "{} {}:{}", self.count, self.what, self.ids)
    }
}

impl<'a> Dataset<'a> {
    /// The dataset that a payload is.
    pub fn read(code: u16, payload: &'a [u8]) -> Result<Dataset<'a>, NoDataset> {
        let dataset = match operation_of(code).map(|operation| operation.code) {
            Some(OperationCode::GetDeviceInfo) => {
                let info = DeviceInfo::read(payload).ok_or(NoDataset::Info("DeviceInfo"))?;
                Dataset::Device(info)
            }
            Some(OperationCode::GetStorageInfo) => {
                let info = StorageInfo::read(payload).ok_or(NoDataset::Info("StorageInfo"))?;
                Dataset::Storage(info)
            }
            Some(OperationCode::GetObjectInfo | OperationCode::SendObjectInfo) => {
                let info = ObjectInfo::read(payload).map_err(|_| NoDataset::Info("ObjectInfo"))?;
                Dataset::Object(info)
            }
            Some(OperationCode::GetStorageIds) => Dataset::Array(Array::read("storages", payload)?),
            Some(OperationCode::GetObjectHandles) => Dataset::Array(Array::read(
                "handles", payload,
            )?),
            _ => Dataset::Bytes(payload.len()),
        };
        Ok(dataset)
    }
}

// A `Display` of `Protection` would stand in `object`, and programs say it in different words.
fn protection_word(protection: Protection) -> &'static str {
    match protection {
        Protection::Unprotected => "unprotected",
        Protection::ReadOnly => "read-only",
    }
}

impl fmt::Display for Dataset<'_> {
    fn fmt<W: fmt::Write>(&self, f: &mut fmt::Formatter<W>) -> fmt::Result {
        match self {
            Dataset::Device(info) => write!(f, "{info}"),
            Dataset::Storage(info) => write!(f, "{info}"),
            Dataset::Array(array) => write!(f, "{array}"),
            Dataset::Bytes(count) => write!(f, "{count} bytes"),
            Dataset::Object(info) => write!(
                f,
                "ObjectInfo: storage {:#010x}, format {:#06x}, {}, {} bytes, parent {:#x}, name {}",
                info.storage,
                info.format,
                protection_word(info.protection),
                info.size,
                info.parent,
                Quoted(info.name.units())
            ),
        }
    }
}
