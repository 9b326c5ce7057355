//! Why a store refuses a change.
ghost use Rattle.std.specs.Prelude.{◌≡◌};
ghost use Rattle.store.specs.Faults.{store_fault_number};

/// A store's refusal. It alters nothing.
#[derive(Clone, Copy, PartialEq, Eq, Debug)]
pub enum StoreFault {
    /// The store is locked.
    ReadOnly = 0x200e,
    /// The number, or anything of the file but its parent, breaks the limits.
    InvalidDataset = 0xa806,
    /// A file has this number already.
    NumberTaken = 0x201d,
    /// The parent is neither the root nor a folder of a smaller number.
    InvalidParent = 0x201a,
    /// There is no place or there are too few bytes left.
    Full = 0x200c,
    /// No file has this number.
    Absent = 0x2009,
    /// The number is some file's parent.
    HasChildren = 0x200f,
}

impl StoreFault {
    /// The fault's number on the wire.
    pub fn number(self) -> u16
        ensures { result ≡ store_fault_number self }
    {
        self as u16
    }
}
