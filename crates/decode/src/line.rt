//! One line of a capture.
use crate::container::Container;
use crate::hex::{HexError, bytes_in};
use std::io;

/// What a line holds before its comment.
fn without_comment(line: &str) -> &str {
    line.split_once('#').map_or(line, |(digits, _)| digits)
}

/// Prints what a line holds, behind its number, or nothing if it is empty but for a comment.
pub fn print_line(rt: &HostRuntime, number: usize, line: &str) -> io::Result<()> {
    match bytes_in(rt.alloc(), without_comment(line)) {
        Ok(bytes) if bytes.is_empty() => Ok(()),
        Ok(bytes) => match Container::read(bytes.as_slice()) {
            Ok(container) => println!(rt; "{number}: {container}"),
            Err(error) => println!(rt; "{number}: error: {error}"),
        },
        Err(HexError::OutOfMemory(error)) => Err(error.into()),
        Err(error) => println!(rt; "{number}: error: {error}"),
    }
}
