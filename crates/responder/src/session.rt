//! The session's own steps, which come before any operation.
ghost use Rattle.std.specs.Prelude.{◌≡◌, ◌≤◌, true, drop, IfOk};
ghost use Rattle.wire.specs.Operations.{operation_number};
ghost use Rattle.protocol.specs.Machine.{gate, moved, for_closed, all_zero, has_surplus};
ghost use Rattle.protocol.specs.declared.session.Session.TheVariants.{Closed, Open};
ghost use Rattle.protocol.specs.declared.session.Transfer.TheVariants.{Idle};
ghost use Rattle.protocol.specs.Acting.{given_next};
ghost use Rattle.responder.specs.Sessions.{expects_within, admission, session_at, rested};

use protocol::fault::OperationFault;
use protocol::session::{OpenSession, Session, Transfer};
use wire::command::Command;
use wire::operation::{Operation, OperationCode, operation_of};

/// The transaction after which 1 is expected.
const LAST_TRANSACTION: u32 = 0xffff_fffe;

/// The session as it is, and that the transaction which it expects can be followed.
#[derive(Clone, Copy)]
pub struct CurrentSession {
    session: Session,
    ghost within: { expects_within session ≡ true },
}

/// The session with the expected transaction moved on.
fn moved(session: OpenSession) -> OpenSession
    requires { session.expected ≤ 0xFFFFFFFE }
    ensures next { result ≡ moved session }
    ensures within { result.expected ≤ 0xFFFFFFFE }
{
    let expected = if session.expected == LAST_TRANSACTION {
        1
    } else {
        session.expected + 1
    };
    OpenSession {
        expected,
        ..session
    }
}

/// Whether a closed responder does this operation.
fn is_for_closed(code: OperationCode) -> bool
    ensures { result ≡ for_closed (operation_number code) }
{
    matches!(
        code,
        OperationCode::GetDeviceInfo | OperationCode::OpenSession
    )
}

impl CurrentSession {
    pub(crate) fn closed() -> CurrentSession
        ensures { result.session ≡ Closed }
    {
        CurrentSession {
            session: Session::Closed,
        }
    }

    /// The session's own steps: the session and the command together decide whether the operation may follow.
    pub(crate) fn admit(&mut self, command: &Command) -> Result<Operation, OperationFault>
        ensures result { result ≡ admission (gate self.old.session command.now) }
        ensures after { self.new.session ≡ session_at (gate self.old.session command.now) }
        ensures code { IfOk result (λ o. operation_number o.code ≡ command.now.code) }
    {
        match (
            self.session,
            operation_of(command.code),
            command.transaction,
        ) {
            (Session::Open(open), _, _) if command.code == OperationCode::OpenSession.number() => {
                Err(OperationFault::SessionAlreadyOpen(open.id))
            }
            (Session::Open(open), _, given) if given != open.expected => {
                Err(OperationFault::InvalidTransaction)
            }
            (Session::Open(open), known, _) => {
                self.session = Session::Open(moved(open));
                known.ok_or(OperationFault::OperationNotSupported)
            }
            (Session::Closed, None, _) => Err(OperationFault::OperationNotSupported),
            (Session::Closed, Some(operation), _) if !is_for_closed(operation.code) => {
                Err(OperationFault::SessionNotOpen)
            }
            (Session::Closed, Some(operation), 0) => Ok(operation),
            (Session::Closed, Some(_), _) => Err(OperationFault::InvalidTransaction),
        }
    }

    /// The session that is open, or that none is.
    pub(crate) fn current(&self) -> Session
        ensures { result ≡ self.now.session }
    {
        self.session
    }

    /// A session begins.
    pub(crate) fn open(&mut self, id: u32, next: u32)
        ensures { self.new.session ≡ Open (record { id = id; expected = 1; next = next; transfer = Idle }) }
    {
        self.session = Session::Open(OpenSession {
            id,
            expected: 1,
            next,
            transfer: Transfer::Idle,
        });
    }

    /// The announcement ends.
    pub(crate) fn rest(&mut self)
        ensures { self.new.session ≡ rested self.old.session }
    {
        match self.session {
            Session::Open(open) => {
                self.session = Session::Open(OpenSession {
                    transfer: Transfer::Idle,
                    ..open
                });
            }
            Session::Closed => {}
        }
    }

    /// The next number is given, for a file that is there already or for one that is announced.
    pub(crate) fn give_next(&mut self, session: OpenSession, transfer: Transfer)
        requires same { self.old.session ≡ Open session }
        requires room { session.next ≤ 0x7FFFFFFE }
        ensures { self.new.session ≡ Open (given_next session transfer) }
    {
        self.session = Session::Open(OpenSession {
            next: session.next + 1,
            transfer,
            ..session
        });
    }

    /// The session ends.
    pub(crate) fn close(&mut self)
        ensures { self.new.session ≡ Closed }
    {
        self.session = Session::Closed;
    }
}

/// Whether all parameters from a place on are 0.
fn is_zero_from(parameters: &[u32; 5], from: usize) -> bool
    ensures { result ≡ all_zero (drop from parameters.now) }
{
    parameters
        .iter()
        .skip(from)
        .all(|parameter| *parameter == 0)
}

/// Whether a parameter beyond the operation's count is not 0.
pub(crate) fn has_surplus(operation: Operation, command: &Command) -> bool
    ensures { result ≡ has_surplus operation command.now }
{
    !is_zero_from(&command.parameters, operation.parameters as usize)
}
