//! What a responder keeps of a session.
ghost use Rattle.std.specs.Prelude.{◌≡◌};
ghost use Rattle.protocol.specs.Acting.{new_file};

use object::format::Format;
use object::name::Name;
use object::protection::Protection;
use store::info::NewFile;

/// A file that SendObjectInfo has announced. `parent` is a folder's number on the first store, or 0 at the root.
#[derive(Clone, Copy)]
pub struct Announcement {
    pub number: u32,
    pub format: Format,
    pub protection: Protection,
    pub parent: u32,
    pub name: Name,
    pub size: u32,
}

impl Announcement {
    /// The file that is announced, but for its number and its bytes.
    pub fn file(&self) -> NewFile
        ensures { result ≡ new_file self.now }
    {
        NewFile {
            format: self.format,
            protection: self.protection,
            parent: self.parent,
            name: self.name,
        }
    }
}

/// What a session waits for.
// Not an Option: a further state of a transfer can join these two.
#[derive(Clone, Copy)]
pub enum Transfer {
    Idle,
    Announced(Announcement),
}

/// An open session: its id, the transaction that it expects, and the number that the next file gets.
#[derive(Clone, Copy)]
pub struct OpenSession {
    pub id: u32,
    pub expected: u32,
    pub next: u32,
    pub transfer: Transfer,
}

/// Whether a session is open.
// Not an Option: the responder matches these names together with the operation and the transaction.
#[derive(Clone, Copy)]
pub enum Session {
    Closed,
    Open(OpenSession),
}
