//! Sample exchanges, shown from the definitions.
ghost use Rattle.protocol.specs.Samples.{Exchanged, WrittenOut, EveryOperation, SamplesSound};

/// The sample calls get the sample replies, the sample bytes are what they are written out as, each operation has its task, and the
/// sample storages are sound.
pub fn samples_hold()
    ensures exchanged { Exchanged }
    ensures written { WrittenOut }
    ensures tasks { EveryOperation }
    ensures sound { SamplesSound }
{}
