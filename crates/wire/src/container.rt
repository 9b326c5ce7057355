//! Containers: a head of 12 bytes, then the payload.
ghost use Rattle.std.specs.Prelude.{◌≡◌};
ghost use Rattle.std.specs.Option.{ok_or};
ghost use Rattle.wire.specs.declared.fault.DatasetFault.TheVariants.{IncompleteTransfer};
ghost use Rattle.wire.specs.Containers.{is_container, is_data, payload_in};
ghost use Rattle.wire.specs.Kinds.{kind_number, kind_told};
ghost use Rattle.wire.specs.Laws.{DataReadsBack};
ghost use Rattle.wire.specs.Payloads.{seen_payload, behind_head};

use crate::fault::DatasetFault;
use crate::read::number_at;
use byte_parts::number::UnknownNumber;

/// The length of a head.
pub const HEAD: usize = 12;

/// What a container is, with the type in its head.
#[derive(Clone, Copy, Debug, PartialEq, Eq)]
pub enum ContainerKind {
    Command = 1,
    Data = 2,
    Response = 3,
}

impl ContainerKind {
    /// The type in the head.
    pub fn number(self) -> u16
        ensures { result ≡ kind_number self }
    {
        self as u16
    }
}

impl TryFrom<u16> for ContainerKind {
    type Error = UnknownNumber;

    ghost try_from_gives = { λ number r. r ≡ kind_told number };

    fn try_from(number: u16) -> Result<ContainerKind, UnknownNumber> {
        match number {
            1 => Ok(ContainerKind::Command),
            2 => Ok(ContainerKind::Data),
            3 => Ok(ContainerKind::Response),
            _ => Err(UnknownNumber { number }),
        }
    }
}

/// What the head of a container says besides its length and type.
#[derive(Clone, Copy, Debug, PartialEq, Eq)]
pub struct Heading {
    pub code: u16,
    pub transaction: u32,
}

/// Whether the bytes are one container of this type, which may be any number.
pub fn is_container(kind: u16, bytes: &[u8]) -> bool
    ensures { result ≡ is_container kind bytes.now }
{
    bytes.len() >= HEAD
        && number_at::<u32>(bytes, 0) as usize == bytes.len()
        && number_at::<u16>(bytes, 4) == kind
}

/// What a data container carries: a part of the caller's bytes, and where it begins there.
#[derive(Clone, Copy)]
pub struct Payload<'a> {
    pub bytes: &'a [u8],
    pub place: usize,
}

/// Whether the bytes are one data container of this code and transaction.
fn is_data(bytes: &[u8], heading: Heading) -> bool
    ensures { result ≡ is_data heading.code heading.transaction bytes.now }
{
    is_container(ContainerKind::Data.number(), bytes)
        && number_at::<u16>(bytes, 6) == heading.code
        && number_at::<u32>(bytes, 8) == heading.transaction
}

/// The payload of the one data container that `bytes` are, if it has this code and transaction.
#[tactic(auto, using(crate::proofs::ReadBack::data_law), unfolding(crate::specs::Containers::payload_in))]
pub fn read_data(bytes: &[u8], heading: Heading) -> Result<Payload<'_>, DatasetFault>
    ensures value { seen_payload result ≡ ok_or (behind_head (payload_in heading.code heading.transaction bytes.now)) IncompleteTransfer }
    ensures law { DataReadsBack }
{
    if !is_data(bytes, heading) {
        return Err(DatasetFault::IncompleteTransfer);
    }
    let (_, payload) = bytes.split_at(HEAD);
    Ok(Payload {
        bytes: payload,
        place: HEAD,
    })
}
