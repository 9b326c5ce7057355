//! Tests of the stores in lent memory.
#![tactic(auto)]

#[cfg(test)]
mod tests;
