//! The refusals of readers and writers.
ghost use Rattle.std.specs.Prelude.{◌≡◌};
ghost use Rattle.wire.specs.Faults.{stray_number, dataset_fault_number};

/// The number of the refusal of a stray container.
const STRAY_CONTAINER: u16 = 1;

/// Bytes that are not one command container: nothing is owed for them.
#[derive(Clone, Copy, Debug, PartialEq, Eq)]
pub struct StrayContainer;

/// Why data was not read or written, with the response code that tells of it.
#[derive(Clone, Copy, Debug, PartialEq, Eq)]
pub enum DatasetFault {
    /// The data is not exactly the one container that was expected.
    IncompleteTransfer = 0x2007,
    /// The dataset is not well formed.
    InvalidDataset = 0xa806,
    /// The container is longer than the buffer.
    BufferTooShort = 0x2002,
}

impl StrayContainer {
    /// The refusal's number.
    pub fn number(self) -> u16
        ensures { result ≡ stray_number self }
    {
        STRAY_CONTAINER
    }
}

impl DatasetFault {
    /// The response code that tells of the fault.
    pub fn number(self) -> u16
        ensures { result ≡ dataset_fault_number self }
    {
        self as u16
    }
}
