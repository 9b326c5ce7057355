//! Command containers.
ghost use Rattle.std.specs.Prelude.{◌≡◌};
ghost use Rattle.std.specs.Option.{ok_or};
ghost use Rattle.wire.specs.Containers.{is_command, command_in, heading_of};
ghost use Rattle.wire.specs.Faults.{stray};
ghost use Rattle.wire.specs.Laws.{CommandsReadBack};

use crate::container::{ContainerKind, Heading, is_container};
use crate::fault::StrayContainer;
use crate::read::number_at;

/// The fields of a command. A missing parameter counts as 0.
#[derive(Clone, Copy, Debug, PartialEq, Eq)]
pub struct Command {
    pub code: u16,
    pub transaction: u32,
    pub parameters: [u32; 5],
}

/// Whether the bytes are one command container.
fn is_command(bytes: &[u8]) -> bool
    ensures { result ≡ is_command bytes.now }
{
    is_container(ContainerKind::Command.number(), bytes)
        && bytes.len() <= 32
        && bytes.len() % 4 == 0
}

impl Command {
    /// The command that `bytes` are, if they are one command container and nothing else.
    #[tactic(auto, using(crate::proofs::ReadBack::commands_law), unfolding(crate::specs::Containers::command_in))]
    pub fn read(bytes: &[u8]) -> Result<Command, StrayContainer>
        ensures value { result ≡ ok_or (command_in bytes.now) stray }
        ensures law { CommandsReadBack }
    {
        if !is_command(bytes) {
            return Err(StrayContainer);
        }
        Ok(Command {
            code: number_at(bytes, 6),
            transaction: number_at(bytes, 8),
            parameters: [12, 16, 20, 24, 28].map(|place| number_at(bytes, place)),
        })
    }

    /// What the head of its data container says.
    pub fn heading(&self) -> Heading
        ensures { result ≡ heading_of self.now }
    {
        Heading {
            code: self.code,
            transaction: self.transaction,
        }
    }
}
