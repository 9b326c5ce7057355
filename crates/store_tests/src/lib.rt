//! Tests over stores of all makes.
#![tactic(auto)]

#[cfg(test)]
mod tests;
