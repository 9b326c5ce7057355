//! The reader of an ObjectInfo.
ghost use Rattle.std.specs.Prelude.{◌≡◌, ◌<◌};
ghost use Rattle.std.specs.Option.{ok_or};
ghost use Rattle.wire.specs.declared.fault.DatasetFault.TheVariants.{InvalidDataset};
ghost use Rattle.datasets.specs.Laws.{ObjectInfosReadBack};
ghost use Rattle.datasets.specs.ObjectInfos.{are_strings, protection_at, object_info_in};

use crate::info::ObjectInfo;
use byte_parts::cut::cut;
use object::name::Name;
use object::protection::Protection;
use wire::fault::DatasetFault;
use wire::read::number_at;
use wire::string::read_string;

/// How long the fields of fixed width are.
const FIXED: usize = 52;

/// Whether the bytes are `count` strings and nothing else.
fn are_strings(count: usize, bytes: &[u8]) -> bool
    ensures { result ≡ are_strings count bytes.now }
{
    let mut rest = bytes;
    for _ in 0..count {
        match read_string(rest) {
            Some(text) => rest = text.rest,
            None => return false,
        }
    }
    rest.is_empty()
}

/// The protection that the dataset names, if there is such a one.
fn protection_in(bytes: &[u8]) -> Option<Protection>
    ensures { result ≡ protection_at bytes.now }
{
    Protection::try_from(number_at::<u16>(bytes, 6)).ok()
}

fn read_info(bytes: &[u8]) -> Option<ObjectInfo>
    ensures { result ≡ object_info_in bytes.now }
{
    let (_, strings) = cut(bytes, FIXED)?;
    let filename = read_string(strings)?;
    if !are_strings(3, filename.rest) {
        return None;
    }
    let protection = protection_in(bytes)?;
    let name = Name::from_bytes(filename.units)?;
    Some(ObjectInfo {
        storage: number_at(bytes, 0),
        format: number_at(bytes, 4),
        protection,
        size: number_at(bytes, 8),
        parent: number_at(bytes, 38),
        name,
    })
}

impl ObjectInfo {
    /// What the dataset says, if it is well formed and nothing lies behind it.
    #[tactic(auto, using(crate::proofs::InfosBack::object_info_back))]
    pub fn read(bytes: &[u8]) -> Result<ObjectInfo, DatasetFault>
        ensures value { result ≡ ok_or (object_info_in bytes.now) InvalidDataset }
        ensures law { ObjectInfosReadBack }
    {
        read_info(bytes).ok_or(DatasetFault::InvalidDataset)
    }
}
