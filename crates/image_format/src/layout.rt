//! How much an image holds.

/// The count of the files and the sum of their lengths.
#[derive(Clone, Copy)]
pub struct Layout {
    pub count: u32,
    pub total: u32,
}
