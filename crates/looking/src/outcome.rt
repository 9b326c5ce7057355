//! What an operation comes to.
ghost use Rattle.std.specs.Prelude.{◌≡◌};
ghost use Rattle.wire.specs.Parameters.{listed};
ghost use Rattle.looking.specs.Looks.{shown_by};
ghost use Rattle.looking.specs.Outcomes.{result_told};

use protocol::fault::OperationFault;
use wire::fault::DatasetFault;
use wire::response::Parameters;

/// What an accepted operation came to: the reply's parameters, and the length of its data container.
#[derive(Clone, Copy)]
pub struct Done {
    pub parameters: Parameters,
    pub data_length: usize,
}

impl From<Parameters> for Done {
    ghost use Rattle.wire.specs.Parameters.{listed};
    ghost use Rattle.looking.specs.Outcomes.{done_told};

    ghost from_gives = { λ parameters r. done_told r ≡ record { parameters = listed parameters; data_length = 0 } };

    /// An operation without data.
    fn from(parameters: Parameters) -> Done {
        Done {
            parameters,
            data_length: 0,
        }
    }
}

/// What a writer's answer comes to.
pub(crate) fn shown(
    parameters: Parameters,
    written: Result<usize, DatasetFault>,
) -> Result<Done, OperationFault>
    ensures { result_told result ≡ shown_by (listed parameters) written }
{
    let data_length = written?;
    Ok(Done {
        parameters,
        data_length,
    })
}
