//! Containers in words.
use crate::dataset::Dataset;
use crate::names::Code;
use crate::numbers::{Ids, Numbers};
use byte_parts::cut::cut_number;
use std::error::Error;
use std::fmt;
use wire::command::Command;
use wire::container::ContainerKind;

/// The fields of a head.
#[derive(Clone, Copy)]
struct Head {
    len: u32,
    kind: u16,
    code: u16,
    transaction: u32,
}

/// One container.
#[derive(Clone, Copy)]
pub struct Container<'a> {
    head: Head,
    payload: &'a [u8],
    bytes: &'a [u8],
}

/// Why bytes are no container.
#[derive(Clone, Copy, Debug)]
pub enum NoContainer {
    NoHead { count: usize },
    OtherLength { len: u32, count: usize },
}

impl fmt::Display for NoContainer {
    fn fmt<W: fmt::Write>(&self, f: &mut fmt::Formatter<W>) -> fmt::Result {
        match self {
            NoContainer::NoHead { count } => write!(f, "{count} bytes are no head"),
            NoContainer::OtherLength { len, count } => {
                write!(f, "the length field says {len} and there are {count} bytes")
            }
        }
    }
}

impl Error for NoContainer {}

/// The head at the front, and what lies behind it.
fn cut_head(bytes: &[u8]) -> Option<(Head, &[u8])> {
    let (len, rest) = cut_number(bytes)?;
    let (kind, rest) = cut_number(rest)?;
    let (code, rest) = cut_number(rest)?;
    let (transaction, rest) = cut_number(rest)?;
    let head = Head {
        len,
        kind,
        code,
        transaction,
    };
    Some((head, rest))
}

impl<'a> Container<'a> {
    /// The container that bytes are.
    pub fn read(bytes: &'a [u8]) -> Result<Container<'a>, NoContainer> {
        let count = bytes.len();
        let (head, payload) = cut_head(bytes).ok_or(NoContainer::NoHead { count })?;
        if head.len as usize != count {
            return Err(NoContainer::OtherLength {
                len: head.len,
                count,
            });
        }
        Ok(Container {
            head,
            payload,
            bytes,
        })
    }
}

impl fmt::Display for Container<'_> {
    fn fmt<W: fmt::Write>(&self, f: &mut fmt::Formatter<W>) -> fmt::Result {
        let code = self.head.code;
        let transaction = self.head.transaction;
        let payload = self.payload;
        match ContainerKind::try_from(self.head.kind) {
            Ok(ContainerKind::Command) => {
                let operation = Code::of_operation(code);
                let parameters = Parameters(payload);
                write!(
                    f,
                    "command {operation}, transaction {transaction}{parameters}"
                )?;
                match Command::read(self.bytes) {
                    Ok(_) => Ok(()),
                    Err(_) => f.write_str(", error: a stray container"),
                }
            }
            Ok(ContainerKind::Data) => {
                let operation = Code::of_operation(code);
                write!(f, "data {operation}, transaction {transaction}, ")?;
                match Dataset::read(code, payload) {
                    Ok(dataset) => write!(f, "{dataset}"),
                    Err(error) => write!(f, "error: {error}"),
                }
            }
            Ok(ContainerKind::Response) => {
                let response = Code::of_response(code);
                let parameters = Parameters(payload);
                write!(
                    f,
                    "response {response}, transaction {transaction}{parameters}"
                )
            }
            Err(kind) => write!(
                f,
                "type {}, code {code:#06x}, transaction {transaction}, {} bytes",
                kind.number,
                payload.len()
            ),
        }
    }
}

/// Parameters in their order, and how many bytes behind them make no whole one.
#[derive(Clone, Copy)]
struct Parameters<'a>(&'a [u8]);

impl fmt::Display for Parameters<'_> {
    fn fmt<W: fmt::Write>(&self, f: &mut fmt::Formatter<W>) -> fmt::Result {
        if self.0.is_empty() {
            return Ok(());
        }
        let (whole, over) = self.0.as_chunks();
        let numbers: Ids = Numbers(whole);
        write!(f, ", parameters{numbers}")?;
        if !over.is_empty() {
            write!(f, ", {} bytes over", over.len())?;
        }
        Ok(())
    }
}
