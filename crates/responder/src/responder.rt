//! The responder over its two stores.
mod acting;
mod performing;

ghost use Rattle.std.specs.Prelude.{◌≡◌, length};
ghost use Rattle.byte_parts.specs.Parts.{over};
ghost use Rattle.protocol.specs.Machine.{answered, cancelled, unplugged, fresh, response_of};
ghost use Rattle.responder.specs.Laws.{Lawful};
ghost use Rattle.protocol.specs.Pairs.{storages_of};
ghost use Rattle.responder.specs.States.{state_of};
ghost use Rattle.responder.specs.Replies.{told, told_by};

use crate::command::PendingCommand;
use crate::reply::{Reply, respond};
use crate::session::CurrentSession;
use looking::pair::StoragePair;
use protocol::fault::OperationFault;
use store::read::ReadStore;
use store::write::WriteStore;
use wire::response::MAX_RESPONSE;

/// A responder, which is lent its two stores. It starts closed.
// No model: with one, a caller would not learn what the first store holds once the responder is gone.
#[derive(Drop)]
pub struct Responder<'w, 'r, W, R> {
    first: &'w mut W,
    second: &'r R,
    session: CurrentSession,
}

impl<'w, 'r, W: WriteStore, R: ReadStore> Responder<'w, 'r, W, R> {
    /// The two stores as the storages.
    fn storages(&self) -> StoragePair<'_, W, R>
        ensures { result ≡ (state_of W.ReadStore W.WriteStore.own R.ReadStore self.now).storages }
    {
        StoragePair::new(&*self.first, self.second)
    }

    /// A responder over two stores. It starts closed.
    #[tactic(auto, using(crate::proofs::Laws::lawful_of))]
    pub fn new(first: &'w mut W, second: &'r R) -> Responder<'w, 'r, W, R>
        ensures state { state_of W.ReadStore W.WriteStore.own R.ReadStore result ≡ fresh (storages_of W.ReadStore W.WriteStore.own R.ReadStore first.old second.now) }
        ensures laws { Lawful (storages_of W.ReadStore W.WriteStore.own R.ReadStore first.old second.now) }
        ensures lender { result.first.ghost_name ≡ first.entry.ghost_name }
    {
        Responder {
            first,
            second,
            session: CurrentSession::closed(),
        }
    }

    /// Answers a command, whose data are `host`. The response goes to the front of `response`, a data container to the front of
    /// `buffer`; the rest of both stays.
    pub fn answer(
        &mut self,
        command: PendingCommand,
        host: &[u8],
        buffer: &mut [u8],
        response: &mut [u8; MAX_RESPONSE],
    ) -> Reply
        ensures reply { told result ≡ told_by (answered (state_of W.ReadStore W.WriteStore.own R.ReadStore self.old) command.command host.now (length buffer.old)).reply }
        ensures response { response.new ≡ over (response_of (answered (state_of W.ReadStore W.WriteStore.own R.ReadStore self.old) command.command host.now (length buffer.old)).reply) response.old }
        ensures buffer { buffer.new ≡ over (answered (state_of W.ReadStore W.WriteStore.own R.ReadStore self.old) command.command host.now (length buffer.old)).reply.sent buffer.old }
        ensures state { state_of W.ReadStore W.WriteStore.own R.ReadStore self.new ≡ (answered (state_of W.ReadStore W.WriteStore.own R.ReadStore self.old) command.command host.now (length buffer.old)).state }
        ensures lender { self.new.first.ghost_name ≡ self.old.first.ghost_name }
    {
        let command = command.spend();
        let result = self.perform(&command, host, buffer);
        respond(response, command.transaction, result)
    }

    /// Cancels a command: only the session's own steps are done.
    #[tactic(auto, unfolding(protocol::specs::Machine::cancelled), using(crate::proofs::Gates::spared_told, crate::proofs::Gates::spared_state))]
    pub fn cancel(&mut self, command: PendingCommand, response: &mut [u8; MAX_RESPONSE]) -> Reply
        ensures reply { told result ≡ told_by (cancelled (state_of W.ReadStore W.WriteStore.own R.ReadStore self.old) command.command).reply }
        ensures response { response.new ≡ over (response_of (cancelled (state_of W.ReadStore W.WriteStore.own R.ReadStore self.old) command.command).reply) response.old }
        ensures state { state_of W.ReadStore W.WriteStore.own R.ReadStore self.new ≡ (cancelled (state_of W.ReadStore W.WriteStore.own R.ReadStore self.old) command.command).state }
        ensures lender { self.new.first.ghost_name ≡ self.old.first.ghost_name }
    {
        let command = command.spend();
        let admitted = self.session.admit(&command);
        respond(
            response,
            command.transaction,
            admitted.and(Err(OperationFault::TransactionCancelled)),
        )
    }

    /// The cable was pulled: the session ends.
    #[tactic(auto, unfolding(protocol::specs::Machine::unplugged))]
    pub fn unplug(&mut self)
        ensures state { state_of W.ReadStore W.WriteStore.own R.ReadStore self.new ≡ unplugged (state_of W.ReadStore W.WriteStore.own R.ReadStore self.old) }
        ensures lender { self.new.first.ghost_name ≡ self.old.first.ghost_name }
    {
        self.session.close();
    }
}
