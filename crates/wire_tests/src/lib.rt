//! Tests of the wire formats on damaged bytes: each length cut short, each byte turned.
#![tactic(auto)]

#[cfg(test)]
mod readers;
#[cfg(test)]
mod writers;
