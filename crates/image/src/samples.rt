//! Sample images, shown from the definitions by computing.
ghost use Rattle.image.specs.Samples.{SamplesHold};

/// Bears the samples: each image of the list holds what the list says, or is wrong where it says.
pub fn samples_hold()
    ensures { SamplesHold }
{}
