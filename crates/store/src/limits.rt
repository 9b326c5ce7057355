//! The limits that every store keeps to.
ghost use Rattle.std.specs.Prelude.{◌≡◌};
ghost use Rattle.store.specs.Changes.{is_number, legal_sizes};

/// How many bytes a store's files may have in all.
pub const MAX_CAPACITY: u32 = 33_554_432;

/// How many files a store may have.
pub const MAX_FILES: u32 = 1_024;

/// How many bytes one file may have.
pub const MAX_LENGTH: usize = 32_768;

/// The last number that a file may have.
pub const LAST_NUMBER: u32 = 0x7fff_fffe;

/// Whether a store may have places for `limit` files of `capacity` bytes in all.
pub fn are_legal_sizes(limit: usize, capacity: usize) -> bool
    ensures { result ≡ legal_sizes limit capacity }
{
    limit <= MAX_FILES as usize && capacity <= MAX_CAPACITY as usize
}

/// Whether a file may have this number.
pub fn is_number(number: u32) -> bool
    ensures { result ≡ is_number number }
{
    1 <= number && number <= LAST_NUMBER
}
