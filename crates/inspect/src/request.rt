//! What the arguments ask for, and when the program fails.
ghost use Rattle.std.specs.Prelude.{◌≡◌, ◌↔◌, IsTrue};
ghost use Rattle.inspect.specs.Requests.{Has, Asks, fails};

/// What the program says of itself.
pub const USAGE: &str = "usage: inspect [--strict] FILE..

Prints what each image of a read-only storage holds: a table of its files in ascending number, and the
totals; or, of an image that is not right, the refusal with the place of its first wrong field.

  number      the file's number
  kind        folder, text, or undefined (any other file)
  size        in bytes
  protection  none or read-only; every file of an image is read-only
  path        the names of the folders from the root and the file's own, joined by /

Halves of surrogate pairs and control characters in names are shown as \\u{d800}.
A folder counts as a file in the totals.

  --strict    end with status 1 if an image is refused
  --help      print this text

The status is 0 if every file could be read, whether its image is accepted or refused. It is 1 if a file
could not be read, or if the arguments are wrong. A file whose name begins with - is given as ./-name.
";

/// What an argument can be.
#[derive(Clone, Copy, PartialEq, Eq)]
pub enum Kind {
    Help,
    Strict,
    Unknown,
    File,
}

/// An argument, and what it is.
#[derive(Clone, Copy)]
pub struct Argument<'a> {
    pub kind: Kind,
    pub word: &'a str,
}

/// A known option, an unknown one, or a file.
impl<'a> From<&'a str> for Argument<'a> {
    ghost from_gives = { λ word argument. argument.word ≡ word };

    fn from(word: &'a str) -> Argument<'a> {
        let kind = match word {
            "--help" | "-h" => Kind::Help,
            "--strict" => Kind::Strict,
            _ if word.starts_with('-') => Kind::Unknown,
            _ => Kind::File,
        };
        Argument { kind, word }
    }
}

/// Whether there is an argument of this kind.
fn has(arguments: &[Argument<'_>], kind: Kind) -> bool
    ensures { IsTrue result ↔ Has kind arguments.now }
{
    arguments.iter().any(|argument| argument.kind == kind)
}

/// What the arguments ask for.
#[derive(Clone, Copy)]
pub enum Request {
    /// What the program says of itself.
    Usage,
    /// What is wrong with the arguments.
    Correction,
    /// What the files among the arguments hold.
    Inspection { is_strict: bool },
}

impl Request {
    /// The request that all these arguments make.
    pub fn of(arguments: &[Argument<'_>]) -> Request
        ensures { Asks arguments.now result }
    {
        if has(arguments, Kind::Help) {
            Request::Usage
        } else if has(arguments, Kind::Unknown) || !has(arguments, Kind::File) {
            Request::Correction
        } else {
            Request::Inspection {
                is_strict: has(arguments, Kind::Strict),
            }
        }
    }
}

/// What came of one file.
#[derive(Clone, Copy, PartialEq, Eq)]
pub enum Outcome {
    Listed,
    Refused,
    Unread,
}

impl Outcome {
    /// Whether this makes the program end with an error.
    pub fn is_failure(self, is_strict: bool) -> bool
        ensures { result ≡ fails self is_strict }
    {
        match self {
            Outcome::Listed => false,
            Outcome::Refused => is_strict,
            Outcome::Unread => true,
        }
    }
}
