//! Why an operation is refused, each with its number on the wire.
ghost use Rattle.std.specs.Prelude.{◌≡◌};
ghost use Rattle.wire.specs.Parameters.{listed};
ghost use Rattle.protocol.specs.Faults.{operation_fault_number, parameters_of, of_store, of_dataset};

use store::fault::StoreFault;
use wire::fault::DatasetFault;
use wire::response::Parameters;

/// Why an operation is refused.
#[derive(Clone, Copy, Debug, PartialEq, Eq)]
pub enum OperationFault {
    /// The data container is longer than the buffer.
    GeneralError,
    SessionNotOpen,
    InvalidTransaction,
    OperationNotSupported,
    ParameterNotSupported,
    IncompleteTransfer,
    InvalidStorage,
    InvalidHandle,
    InvalidFormat,
    StoreFull,
    ObjectProtected,
    StoreReadOnly,
    /// The object is some object's parent.
    AccessDenied,
    FormatNotSupported,
    NoObjectInfo,
    InvalidParent,
    InvalidParameter,
    /// A session is open already, with this id.
    SessionAlreadyOpen(u32),
    TransactionCancelled,
    InvalidDataset,
    ObjectTooLarge,
}

impl OperationFault {
    // Not discriminants: one refusal carries an id, so the enum cannot be cast.
    /// The fault's number on the wire.
    pub fn number(self) -> u16
        ensures { result ≡ operation_fault_number self }
    {
        match self {
            OperationFault::GeneralError => 0x2002,
            OperationFault::SessionNotOpen => 0x2003,
            OperationFault::InvalidTransaction => 0x2004,
            OperationFault::OperationNotSupported => 0x2005,
            OperationFault::ParameterNotSupported => 0x2006,
            OperationFault::IncompleteTransfer => 0x2007,
            OperationFault::InvalidStorage => 0x2008,
            OperationFault::InvalidHandle => 0x2009,
            OperationFault::InvalidFormat => 0x200b,
            OperationFault::StoreFull => 0x200c,
            OperationFault::ObjectProtected => 0x200d,
            OperationFault::StoreReadOnly => 0x200e,
            OperationFault::AccessDenied => 0x200f,
            OperationFault::FormatNotSupported => 0x2014,
            OperationFault::NoObjectInfo => 0x2015,
            OperationFault::InvalidParent => 0x201a,
            OperationFault::InvalidParameter => 0x201d,
            OperationFault::SessionAlreadyOpen(_) => 0x201e,
            OperationFault::TransactionCancelled => 0x201f,
            OperationFault::InvalidDataset => 0xa806,
            OperationFault::ObjectTooLarge => 0xa809,
        }
    }

    /// The parameters of a refusal.
    pub fn parameters(self) -> Parameters
        ensures { listed result ≡ parameters_of self }
    {
        match self {
            OperationFault::SessionAlreadyOpen(id) => Parameters::one(id),
            _ => Parameters::none(),
        }
    }
}

impl From<StoreFault> for OperationFault {
    ghost from_gives = { λ f r. r ≡ of_store f };

    fn from(fault: StoreFault) -> OperationFault {
        match fault {
            StoreFault::ReadOnly => OperationFault::StoreReadOnly,
            StoreFault::InvalidDataset => OperationFault::InvalidDataset,
            StoreFault::NumberTaken => OperationFault::InvalidParameter,
            StoreFault::InvalidParent => OperationFault::InvalidParent,
            StoreFault::Full => OperationFault::StoreFull,
            StoreFault::Absent => OperationFault::InvalidHandle,
            StoreFault::HasChildren => OperationFault::AccessDenied,
        }
    }
}

impl From<DatasetFault> for OperationFault {
    ghost from_gives = { λ f r. r ≡ of_dataset f };

    fn from(fault: DatasetFault) -> OperationFault {
        match fault {
            DatasetFault::IncompleteTransfer => OperationFault::IncompleteTransfer,
            DatasetFault::InvalidDataset => OperationFault::InvalidDataset,
            DatasetFault::BufferTooShort => OperationFault::GeneralError,
        }
    }
}
