//! Two stores of any makes as the two storages.
ghost use Rattle.std.specs.Prelude.{◌≡◌};
ghost use Rattle.protocol.specs.Pairs.{storages_of};
ghost use Rattle.protocol.specs.Storages.{SoundStorages};

use std::marker::Model;
use store::read::ReadStore;
use store::write::WriteStore;

/// The stores that a host sees as the first and the second storage. A contract sees what they hold and whether the first is locked.
#[derive(Drop)]
pub struct StoragePair<'s, W: WriteStore, R: ReadStore> {
    first: &'s W,
    second: &'s R,
}

impl<'s, W: WriteStore, R: ReadStore> Model for StoragePair<'s, W, R> {
    ghost use Rattle.protocol.specs.Pairs.{storages_of};
    ghost use Rattle.protocol.specs.Storages.{Storages};

    ghost Value = { Storages };

    ghost view = { λ pair. storages_of W.ReadStore W.WriteStore R.ReadStore pair.first.now pair.second.now };
}

impl<'s, W: WriteStore, R: ReadStore> StoragePair<'s, W, R> {
    pub fn new(first: &'s W, second: &'s R) -> StoragePair<'s, W, R>
        ensures { result ≡ storages_of W.ReadStore W.WriteStore.own R.ReadStore first.now second.now }
    {
        StoragePair { first, second }
    }

    /// The store of the first storage. Both stores are sound.
    #[tactic(auto, using(crate::proofs::Pairs::pair_sound))]
    pub fn first(&self) -> &'s W
        ensures contents { W.ReadStore.contents result.now ≡ self.now.first }
        ensures lock { W.WriteStore.own.locked result.now ≡ self.now.locked }
        ensures sound { SoundStorages self.now }
    {
        self.first
    }

    /// The store of the second storage.
    pub fn second(&self) -> &'s R
        ensures { R.ReadStore.contents result.now ≡ self.now.second }
    {
        self.second
    }
}
