//! The writer of a response.
ghost use Rattle.std.specs.Prelude.{◌≡◌, ◌+◌, ◌*◌, ◌≤◌, [], ◌∷◌, length, nat_le};
ghost use Rattle.std.specs.Option.{option_map};
ghost use Rattle.wire.specs.Containers.{response};
ghost use Rattle.wire.specs.Laws.{ResponsesReadBack};
ghost use Rattle.wire.specs.Parameters.{listed, at_most_five};
ghost use Rattle.wire.specs.Writing.{written};

use crate::container::{ContainerKind, Heading};
use crate::put::{put_head, put_numbers};
use crate::response::{MAX_RESPONSE, Parameters};

/// Whether a response has room for so many parameters.
fn is_few(count: usize) -> bool
    ensures { result ≡ nat_le count 5 }
{
    count <= 5
}

impl Parameters {
    // Private, and the makers below it three: a maker of any number would have to refuse six.
    fn of(list: &[u32]) -> Parameters
        requires { length list.now ≤ 5 }
        ensures { listed result ≡ list.now }
    {
        let mut values = [0; 5];
        values[..list.len()].copy_from_slice(list);
        Parameters {
            values,
            count: list.len() as u8,
        }
    }

    pub fn none() -> Parameters
        ensures { listed result ≡ [] }
    {
        Parameters::of(&[])
    }

    pub fn one(first: u32) -> Parameters
        ensures { listed result ≡ first ∷ [] }
    {
        Parameters::of(&[first])
    }

    pub fn three(first: u32, second: u32, third: u32) -> Parameters
        ensures { listed result ≡ first ∷ second ∷ third ∷ [] }
    {
        Parameters::of(&[first, second, third])
    }

    /// These parameters, if they are at most five.
    pub fn from_slice(list: &[u32]) -> Option<Parameters>
        ensures { option_map listed result ≡ at_most_five list.now }
    {
        if !is_few(list.len()) {
            return None;
        }
        Some(Parameters::of(list))
    }

    /// The parameters in their order.
    pub fn list(&self) -> &[u32]
        ensures value { result.now ≡ listed self.now }
        ensures few { length result.now ≤ 5 }
    {
        &self.values[..self.count as usize]
    }
}

/// Puts the response to the front of a buffer that holds it.
#[tactic(auto, using(crate::proofs::ReadBack::responses_back))]
fn put_response(out: &mut [u8], heading: Heading, list: &[u32]) -> usize
    requires { 12 + 4 * length list.now ≤ length out.old }
    ensures value { (result, out.new) ≡ written (response heading.code heading.transaction list.now) out.old }
    ensures law { ResponsesReadBack }
{
    let next = put_head(
        out,
        ContainerKind::Response.number(),
        heading,
        4 * list.len(),
    );
    put_numbers(out, next, list)
}

/// Writes the response to the front of `out`, whose rest stays, and answers its length.
#[tactic(auto, using(crate::proofs::ReadBack::responses_back))]
pub fn write_response(
    out: &mut [u8; MAX_RESPONSE],
    heading: Heading,
    parameters: &Parameters,
) -> usize
    ensures value { (result, out.new) ≡ written (response heading.code heading.transaction (listed parameters.now)) out.old }
    ensures law { ResponsesReadBack }
{
    put_response(out, heading, parameters.list())
}
