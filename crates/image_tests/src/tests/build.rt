//! Images that tests build, right or wrong.
use std::alloc::AllocError;

pub const FOLDER: u16 = 0x3001;

pub const TEXT: u16 = 0x3004;

/// Adds a field's tag and its content's length, of which only the lower 16 bits are written.
fn push_start(image: &mut Vec<u8>, tag: u8, length: usize) -> Result<(), AllocError> {
    let [low, high, ..] = length.to_le_bytes();
    image.extend_from_slice(&[tag, low, high])
}

/// Adds a first field.
fn push_head(image: &mut Vec<u8>, number: u32, parent: u32, format: u16) -> Result<(), AllocError> {
    push_start(image, 1, 10)?;
    image.extend_from_slice(&number.to_le_bytes())?;
    image.extend_from_slice(&parent.to_le_bytes())?;
    image.extend_from_slice(&format.to_le_bytes())
}

/// Adds a name's field.
fn push_name(image: &mut Vec<u8>, units: &[u16]) -> Result<(), AllocError> {
    push_start(image, 2, units.len().wrapping_mul(2))?;
    for unit in units {
        image.extend_from_slice(&unit.to_le_bytes())?;
    }
    Ok(())
}

/// Adds the field with a file's bytes.
fn push_body(image: &mut Vec<u8>, body: &[u8]) -> Result<(), AllocError> {
    push_start(image, 3, body.len())?;
    image.extend_from_slice(body)
}

/// Adds a file.
pub fn push_file(
    image: &mut Vec<u8>,
    number: u32,
    parent: u32,
    format: u16,
    units: &[u16],
    body: &[u8],
) -> Result<(), AllocError> {
    push_head(image, number, parent, format)?;
    push_name(image, units)?;
    push_body(image, body)
}
