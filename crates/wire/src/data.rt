//! Data containers written into the caller's buffer.
ghost use Rattle.std.specs.Prelude.{◌≡◌, ◌+◌, length, OnOk, ⊤, nat_le};
ghost use Rattle.byte_parts.specs.Numbers.{le};
ghost use Rattle.wire.specs.Containers.{data_container, data_type, head};
ghost use Rattle.wire.specs.Laws.{HeadsJoin, ArraysReadBack};
ghost use Rattle.wire.specs.Strings.{array};
ghost use Rattle.wire.specs.Writing.{placed, placed_in, placed_at};

use crate::container::{ContainerKind, HEAD, Heading};
use crate::fault::DatasetFault;
use crate::put::{Put, put_array, put_head, put_number};

/// Whether a buffer of this length has room for `len` bytes from a place on.
fn holds(room: usize, place: usize, len: usize) -> bool
    ensures { result ≡ nat_le (place + len) room }
{
    room >= place && room - place >= len
}

/// Writes the head of a data container whose payload has `len` bytes, if the buffer holds the whole container. The payload
/// belongs at the place that this answers.
#[tactic(auto, using(crate::proofs::ReadBack::heads_join))]
pub fn write_data_head(out: &mut [u8], heading: Heading, len: usize) -> Result<usize, DatasetFault>
    ensures value { (result, out.new) ≡ placed_in (12 + len) (head data_type heading.code heading.transaction len) out.old }
    ensures whole { HeadsJoin }
{
    if !holds(out.len(), HEAD, len) {
        return Err(DatasetFault::BufferTooShort);
    }
    Ok(put_head(out, ContainerKind::Data.number(), heading, len))
}

/// Writes one number of four bytes at a place, and answers the place behind it.
pub fn write_number(out: &mut [u8], place: usize, number: u32) -> Result<usize, DatasetFault>
    ensures { (result, out.new) ≡ placed_at place (le 4 number) out.old }
{
    if !holds(out.len(), place, 4) {
        return Err(DatasetFault::BufferTooShort);
    }
    Ok(put_number(out, place, number))
}

fn put_data<P: Put>(out: &mut [u8], heading: Heading, payload: &P) -> Result<usize, DatasetFault>
    ensures value { (result, out.new) ≡ placed (data_container heading.code heading.transaction (P.bytes payload.now)) out.old }
    ensures fits { OnOk result (P.fits payload.now) }
{
    let next = write_data_head(out, heading, payload.size())?;
    Ok(payload.put(out, next))
}

/// Writes the data container that carries `payload`, if the buffer holds it.
pub fn write_data<P: Put>(
    out: &mut [u8],
    heading: Heading,
    payload: &P,
) -> Result<usize, DatasetFault>
    ensures value { (result, out.new) ≡ placed (data_container heading.code heading.transaction (P.bytes payload.now)) out.old }
    ensures fits { OnOk result (P.fits payload.now) }
{
    put_data(out, heading, payload)
}

impl Put for &[u32] {
    ghost bytes = { λ ns. array 4 ns.now };

    ghost fits = { λ ns. ⊤ };

    #[tactic(auto, using(crate::proofs::Placed::length_array))]
    fn size(&self) -> usize {
        4 + 4 * self.len()
    }

    #[tactic(auto, using(crate::proofs::Placed::length_array))]
    fn put(&self, out: &mut [u8], place: usize) -> usize {
        put_array(out, place, self)
    }
}

/// Writes an array of handles or of storage ids.
#[tactic(auto, using(crate::proofs::ReadBack::array_back))]
pub fn write_array(out: &mut [u8], heading: Heading, list: &[u32]) -> Result<usize, DatasetFault>
    ensures value { (result, out.new) ≡ placed (data_container heading.code heading.transaction (array 4 list.now)) out.old }
    ensures law { ArraysReadBack }
{
    write_data(out, heading, &list)
}
