//! Replies, and the response that tells each.
ghost use Rattle.std.specs.Prelude.{◌≡◌};
ghost use Rattle.byte_parts.specs.Parts.{over};
ghost use Rattle.wire.specs.Containers.{response};
ghost use Rattle.looking.specs.Outcomes.{result_told};
ghost use Rattle.responder.specs.Replies.{told, told_of, tells};

use looking::outcome::Done;
use protocol::fault::OperationFault;
use wire::container::Heading;
use wire::response::write::write_response;
use wire::response::{MAX_RESPONSE, Parameters};

/// What a command was answered with. `data_length` counts the bytes of the data container at the front of the buffer, 0 if there
/// is none.
#[derive(Clone, Copy)]
pub struct Reply {
    pub code: u16,
    pub transaction: u32,
    pub parameters: Parameters,
    pub data_length: usize,
}

/// The code of success.
const OK: u16 = 0x2001;

fn reply_of(transaction: u32, res: Result<Done, OperationFault>) -> Reply
    ensures { told result ≡ told_of transaction (result_told res) }
{
    match res {
        Ok(done) => Reply {
            code: OK,
            transaction,
            parameters: done.parameters,
            data_length: done.data_length,
        },
        Err(fault) => Reply {
            code: fault.number(),
            transaction,
            parameters: fault.parameters(),
            data_length: 0,
        },
    }
}

/// The reply that a result is, with its response at the front of `response`.
pub(crate) fn respond(
    response: &mut [u8; MAX_RESPONSE],
    transaction: u32,
    res: Result<Done, OperationFault>,
) -> Reply
    ensures reply { told result ≡ told_of transaction (result_told res) }
    ensures response { response.new ≡ over (tells (told_of transaction (result_told res))) response.old }
{
    let reply = reply_of(transaction, res);
    let heading = Heading {
        code: reply.code,
        transaction,
    };
    write_response(response, heading, &reply.parameters);
    reply
}
