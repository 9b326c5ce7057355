//! Sample bytes, shown from the definitions by computing.
ghost use Rattle.wire.specs.Samples.{Samples};

/// Bears the samples: strings and a command are the bytes that are written out by hand.
#[tactic(auto, using(crate::proofs::Shown::samples))]
pub fn samples_hold()
    ensures { Samples }
{}
