//! Commands that are owed a reply.
ghost use Rattle.std.specs.Prelude.{◌≡◌};
ghost use Rattle.responder.specs.Pending.{taken};

use wire::command::Command;
use wire::fault::StrayContainer;

/// A command that is owed one answer or one cancel. It cannot be copied or let go.
pub struct PendingCommand {
    command: Command,
}

/// Takes the command that `bytes` are. Nothing is owed for a stray container.
pub fn take(bytes: &[u8]) -> Result<PendingCommand, StrayContainer>
    ensures { result ≡ taken bytes.now }
{
    let command = Command::read(bytes)?;
    Ok(PendingCommand { command })
}

impl PendingCommand {
    /// Spends the command.
    pub(crate) fn spend(self) -> Command
        ensures { result ≡ self.command }
    {
        let PendingCommand { command } = self;
        command
    }
}
