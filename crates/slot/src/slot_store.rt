//! The slotted store.
ghost use Rattle.std.specs.Prelude.{◌≡◌, false, length, MatchResult};
ghost use Rattle.store.specs.Sound.{Sound};
ghost use Rattle.store.specs.SoundProp.{sound_is_prop};
ghost use Rattle.table.specs.Faults.{Refused};
ghost use Rattle.lent.specs.Kept.{held_in, Counted, LiesWithin};
ghost use Rattle.slot.specs.Slots.{suits, StartsIn, SlotsWhole, SlotsInside, SlotsDistinct, SlotsFill};

use crate::{changes, prepare};
use lent::memory::Memory;
use store::fault::StoreFault;
use store::info::{FileInfo, NewFile};
use store::read::ReadStore;
use store::write::WriteStore;
use table::fault::WrongMemory;
use table::place::Place;

/// A writing store in memory that the caller lends, with a slot of 32,768 bytes for each file.
/// Which slot a file has is not told: it has one of its own, which lies in the memory.
#[derive(Drop)]
pub struct SlotStore<'a> {
    memory: Memory<'a>,
    ghost counted: { Counted memory },
    ghost sound: { Sound (held_in memory) } by { sound_is_prop (held_in memory) },
    ghost within: { LiesWithin memory },
    ghost whole: { SlotsWhole memory },
    ghost inside: { SlotsInside memory },
    ghost distinct: { SlotsDistinct memory },
    ghost fill: { SlotsFill memory },
}

impl<'a> SlotStore<'a> {
    /// An empty store in 1 to 1,024 rows and 32,768 bytes for each, which are its capacity. Other memory is refused, and stays as it is.
    pub fn new(places: &'a mut [Place], bytes: &'a mut [u8]) -> Result<SlotStore<'a>, WrongMemory>
        ensures { MatchResult result (λ s. StartsIn places.entry bytes.entry s.memory) (λ f. Refused (suits (length places.old) (length bytes.old)) f) }
    {
        if !prepare::is_suitable(places.len(), bytes.len()) {
            return Err(WrongMemory::OutOfRange);
        }
        prepare::number_slots(places);
        let memory = Memory {
            places,
            bytes,
            count: 0,
            total: 0,
        };
        Ok(SlotStore { memory })
    }

    /// Gives the memory back. The store is gone.
    pub fn give_up(self) -> (&'a mut [Place], &'a mut [u8])
        ensures places { result.0.now ≡ self.entry.memory.places.now }
        ensures bytes { result.1.now ≡ self.entry.memory.bytes.now }
        ensures lenders { (result.0.ghost_name ≡ self.entry.memory.places.ghost_name) × (result.1.ghost_name ≡ self.entry.memory.bytes.ghost_name) }
    {
        let SlotStore {
            memory: Memory { places, bytes, .. },
        } = self;
        (places, bytes)
    }
}

// These calls stand with each layout, since the project tries a wrong answer of either store in its own crate: a store generic in its
// layout would hold them once, in `lent`.
impl<'a> ReadStore for SlotStore<'a> {
    ghost contents = { λ s. held_in s.memory };

    ghost sound = { λ s. s.sound };

    fn capacity(&self) -> u32 {
        self.memory.files().capacity()
    }

    fn limit(&self) -> u32 {
        self.memory.files().limit()
    }

    fn total(&self) -> u32 {
        self.memory.files().total()
    }

    fn count(&self) -> u32 {
        self.memory.files().count()
    }

    fn next_above(&self, number: u32) -> Option<u32> {
        self.memory.files().next_above(number)
    }

    fn describe(&self, number: u32) -> Option<FileInfo> {
        self.memory.files().describe(number)
    }

    fn copy(&self, number: u32, offset: u32, into: &mut [u8]) -> usize {
        self.memory.files().copy(number, offset, into)
    }
}

impl<'a> WriteStore for SlotStore<'a> {
    ghost locked = { λ _. false };

    fn is_locked(&self) -> bool {
        false
    }

    fn add(&mut self, number: u32, file: &NewFile, bytes: &[u8]) -> Result<(), StoreFault> {
        changes::add(&mut self.memory, number, file, bytes)
    }

    fn remove(&mut self, number: u32) -> Result<(), StoreFault> {
        changes::remove(&mut self.memory, number)
    }
}
