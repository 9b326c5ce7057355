//! The operation itself, past the session's own steps.
ghost use Rattle.std.specs.Prelude.{◌≡◌, length};
ghost use Rattle.wire.specs.Operations.{operation_number};
ghost use Rattle.protocol.specs.Machine.{answered, performed, performed_closed, task_of};
ghost use Rattle.protocol.specs.declared.session.Session.TheVariants.{Closed, Open};
ghost use Rattle.responder.specs.Serving.{Performs};

use crate::responder::Responder;
use crate::session::has_surplus;
use looking::outcome::Done;
use looking::storages::{get_device_info, get_storage_ids};
use protocol::fault::OperationFault;
use protocol::session::{OpenSession, Session};
use store::read::ReadStore;
use store::write::WriteStore;
use wire::command::Command;
use wire::operation::OperationCode;

impl<'w, 'r, W: WriteStore, R: ReadStore> Responder<'w, 'r, W, R> {
    // Command and data stay two parameters: the operations that look take the command alone, and the machine's definitions take both.
    /// What an operation does in an open session.
    #[tactic(auto, unfolding(protocol::specs::Machine::task_of))]
    fn perform_open(
        &mut self,
        session: OpenSession,
        code: OperationCode,
        command: &Command,
        host: &[u8],
        buffer: &mut [u8],
    ) -> Result<Done, OperationFault>
        requires { self.old.session.session ≡ Open session }
        ensures { Performs W.ReadStore W.WriteStore.own R.ReadStore self.old self.new (λ b. performed (task_of (operation_number code)) b.storages session command.now host.now (length buffer.old)) command.now result buffer.old buffer.new }
    {
        match code {
            OperationCode::GetDeviceInfo => get_device_info(command, buffer),
            // The session's own steps let no second OpenSession follow.
            OperationCode::OpenSession => Err(OperationFault::OperationNotSupported),
            OperationCode::CloseSession => self.close_session().map(Done::from),
            OperationCode::GetStorageIds => get_storage_ids(command, buffer),
            OperationCode::GetStorageInfo => self.storages().get_storage_info(command, buffer),
            OperationCode::GetObjectHandles => self.storages().get_object_handles(command, buffer),
            OperationCode::GetObjectInfo => self.storages().get_object_info(command, buffer),
            OperationCode::GetObject => self.storages().get_object(command, buffer),
            OperationCode::DeleteObject => self
                .delete_object(session, command.parameters[0], command.parameters[1])
                .map(Done::from),
            OperationCode::SendObjectInfo => self
                .send_object_info(session, command, host)
                .map(Done::from),
            OperationCode::SendObject => self.send_object(session, command, host).map(Done::from),
            OperationCode::GetPartialObject => self.storages().get_partial_object(command, buffer),
        }
    }

    /// What an operation does while no session is open.
    fn perform_closed(
        &mut self,
        code: OperationCode,
        command: &Command,
        buffer: &mut [u8],
    ) -> Result<Done, OperationFault>
        requires closed { self.old.session.session ≡ Closed }
        requires same { operation_number code ≡ command.now.code }
        ensures { Performs W.ReadStore W.WriteStore.own R.ReadStore self.old self.new (λ b. performed_closed b.storages command.now (length buffer.old)) command.now result buffer.old buffer.new }
    {
        match code {
            OperationCode::OpenSession => self.open_session(command.parameters[0]).map(Done::from),
            _ => get_device_info(command, buffer),
        }
    }

    /// The session's own steps, the check for surplus parameters, and the operation.
    #[tactic(auto, unfolding(protocol::specs::Machine::answered))]
    pub(crate) fn perform(
        &mut self,
        command: &Command,
        host: &[u8],
        buffer: &mut [u8],
    ) -> Result<Done, OperationFault>
        ensures { Performs W.ReadStore W.WriteStore.own R.ReadStore self.old self.new (λ b. answered b command.now host.now (length buffer.old)) command.now result buffer.old buffer.new }
    {
        let operation = self.session.admit(command)?;
        if has_surplus(operation, command) {
            return Err(OperationFault::ParameterNotSupported);
        }
        match self.session.current() {
            Session::Closed => self.perform_closed(operation.code, command, buffer),
            Session::Open(session) => {
                self.perform_open(session, operation.code, command, host, buffer)
            }
        }
    }
}
