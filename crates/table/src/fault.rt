//! Why no store is made in some memory.
ghost use Rattle.std.specs.Prelude.{◌≡◌};
ghost use Rattle.table.specs.Faults.{wrong_memory_number};

/// The refusal to make a store in lent memory. It alters nothing.
#[derive(Clone, Copy, PartialEq, Eq, Debug)]
pub enum WrongMemory {
    /// The memory has too few or too many rows or bytes.
    OutOfRange = 2,
}

impl WrongMemory {
    /// The refusal's number.
    pub fn number(self) -> u16
        ensures { result ≡ wrong_memory_number self }
    {
        self as u16
    }
}
