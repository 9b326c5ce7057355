//! Tests of images: what the sample holds, and every way in which an image can be wrong.
#![tactic(auto)]

#[cfg(test)]
mod tests;
