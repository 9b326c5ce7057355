//! The operations that act.
ghost use Rattle.std.specs.Prelude.{◌≡◌, ◌≤◌, Some};
ghost use Rattle.wire.specs.Parameters.{listed};
ghost use Rattle.protocol.specs.declared.session.Session.TheVariants.{Closed, Open};
ghost use Rattle.protocol.specs.Acting.{session_opened, session_closed, settled, announced, info_sent, object_deleted, object_sent, sent_for};
ghost use Rattle.responder.specs.Acts.{info_told};
ghost use Rattle.responder.specs.Serving.{Serves};

use crate::checks::{announcement, deletable, parent_told, payload_of_size};
use crate::responder::Responder;
use looking::place::FIRST_STORAGE;
use protocol::fault::OperationFault;
use protocol::session::{Announcement, OpenSession, Transfer};
use store::read::ReadStore;
use store::walk::past_last;
use store::write::WriteStore;
use wire::command::Command;
use wire::response::Parameters;

/// What an accepted SendObjectInfo tells: the storage, the parent and the handle that it gives.
fn info_told(session: OpenSession, command: &Command) -> Parameters
    ensures { listed result ≡ info_told session command.now }
{
    Parameters::three(
        FIRST_STORAGE,
        parent_told(command.parameters[1]),
        session.next,
    )
}

impl<'w, 'r, W: WriteStore, R: ReadStore> Responder<'w, 'r, W, R> {
    /// Adds a folder at once, and announces any other file.
    fn announce(
        &mut self,
        session: OpenSession,
        announcement: &Announcement,
        told: Parameters,
    ) -> Result<Parameters, OperationFault>
        requires same { self.old.session.session ≡ Open session }
        requires room { session.next ≤ 0x7FFFFFFE }
        ensures { Serves W.ReadStore W.WriteStore.own R.ReadStore self.old self.new (λ p. settled p.first (Open session) (announced p session (listed told) announcement.now)) result }
    {
        if announcement.format.is_folder() {
            self.first.add(session.next, &announcement.file(), &[])?;
            self.session.give_next(session, Transfer::Idle);
        } else {
            self.session
                .give_next(session, Transfer::Announced(*announcement));
        }
        Ok(told)
    }

    /// SendObjectInfo.
    #[tactic(auto, using(crate::proofs::Acts::info_is))]
    pub(crate) fn send_object_info(
        &mut self,
        session: OpenSession,
        command: &Command,
        host: &[u8],
    ) -> Result<Parameters, OperationFault>
        requires { self.old.session.session ≡ Open session }
        ensures { Serves W.ReadStore W.WriteStore.own R.ReadStore self.old self.new (λ p. info_sent p session command.now host.now) result }
    {
        let announcement = announcement(&self.storages(), session, command, host)?;
        self.announce(session, &announcement, info_told(session, command))
    }

    /// OpenSession.
    #[tactic(auto, unfolding(protocol::specs::Acting::session_opened))]
    pub(crate) fn open_session(&mut self, id: u32) -> Result<Parameters, OperationFault>
        requires { self.old.session.session ≡ Closed }
        ensures { Serves W.ReadStore W.WriteStore.own R.ReadStore self.old self.new (λ p. session_opened p id) result }
    {
        if id == 0 {
            return Err(OperationFault::InvalidParameter);
        }
        let next = past_last(&*self.first);
        self.session.open(id, next);
        Ok(Parameters::none())
    }

    /// CloseSession.
    #[tactic(auto, unfolding(protocol::specs::Acting::session_closed))]
    pub(crate) fn close_session(&mut self) -> Result<Parameters, OperationFault>
        ensures { Serves W.ReadStore W.WriteStore.own R.ReadStore self.old self.new session_closed result }
    {
        self.session.close();
        Ok(Parameters::none())
    }

    /// DeleteObject.
    #[tactic(auto, using(crate::proofs::Acts::deleted_is))]
    pub(crate) fn delete_object(
        &mut self,
        session: OpenSession,
        handle: u32,
        format: u32,
    ) -> Result<Parameters, OperationFault>
        requires { self.old.session.session ≡ Open session }
        ensures { Serves W.ReadStore W.WriteStore.own R.ReadStore self.old self.new (λ p. object_deleted p session handle format) result }
    {
        deletable(&self.storages(), handle, format)?;
        self.first.remove(handle)?;
        Ok(Parameters::none())
    }

    /// Stores the object that was announced.
    fn store_object(
        &mut self,
        session: OpenSession,
        announcement: &Announcement,
        command: &Command,
        host: &[u8],
    ) -> Result<Parameters, OperationFault>
        requires { self.old.session.session ≡ Open session }
        ensures { Serves W.ReadStore W.WriteStore.own R.ReadStore self.old self.new (λ p. sent_for p session command.now host.now (Some announcement.now)) result }
    {
        self.session.rest();
        let bytes = payload_of_size(announcement.size, command, host)?;
        self.first
            .add(announcement.number, &announcement.file(), bytes)?;
        Ok(Parameters::none())
    }

    /// SendObject.
    #[tactic(auto, unfolding(protocol::specs::Acting::object_sent))]
    pub(crate) fn send_object(
        &mut self,
        session: OpenSession,
        command: &Command,
        host: &[u8],
    ) -> Result<Parameters, OperationFault>
        requires { self.old.session.session ≡ Open session }
        ensures { Serves W.ReadStore W.WriteStore.own R.ReadStore self.old self.new (λ p. object_sent p session command.now host.now) result }
    {
        match session.transfer {
            Transfer::Announced(announcement) => self.store_object(
                session,
                &announcement,
                command,
                host,
            ),
            Transfer::Idle => Err(OperationFault::NoObjectInfo),
        }
    }
}
