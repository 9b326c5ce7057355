//! Going through a store's files by its next-file question.
ghost use Rattle.std.specs.Prelude.{◌≡◌, ◌+◌, ◌≤◌, ℕ, List};
ghost use Rattle.std.specs.Iterator.{YieldsFirst, item_count};
ghost use Rattle.store.specs.Changes.{past_last};
ghost use Rattle.store.specs.Walks.{told, numbers, above};
ghost use Rattle.store.specs.declared.info.FileInfo.{FileInfo};

use crate::info::FileInfo;
use crate::read::ReadStore;
use std::marker::Model;

/// The numbers of a store's files in their order. A contract sees the list of those that are left.
#[derive(Drop)]
pub struct Numbers<'a, S: ReadStore> {
    store: &'a S,
    last: u32,
}

impl<'a, S: ReadStore> Model for Numbers<'a, S> {
    ghost Value = { List ℕ };

    ghost view = { λ n. numbers (above n.last (S.ReadStore.contents n.store.now).files) };
}

impl<'a, S: ReadStore> Iterator for Numbers<'a, S> {
    type Item = u32;

    ghost next_gives = { YieldsFirst (λ left. left) };

    ghost remaining = { item_count (λ left. left) };

    #[tactic(auto, using(crate::proofs::Steps::numbers_steps))]
    fn next(&mut self) -> Option<u32> {
        let number = self.store.next_above(self.last)?;
        self.last = number;
        Some(number)
    }
}

/// The files of a store in their order, each with its number. A contract sees the list of those that are left.
#[derive(Drop)]
pub struct Files<'a, S: ReadStore> {
    store: &'a S,
    last: u32,
}

impl<'a, S: ReadStore> Model for Files<'a, S> {
    ghost Value = { List (ℕ × FileInfo) };

    ghost view = { λ n. told (above n.last (S.ReadStore.contents n.store.now).files) };
}

impl<'a, S: ReadStore> Iterator for Files<'a, S> {
    type Item = (u32, FileInfo);

    ghost next_gives = { YieldsFirst (λ left. left) };

    ghost remaining = { item_count (λ left. left) };

    #[tactic(auto, using(crate::proofs::Steps::files_steps))]
    fn next(&mut self) -> Option<(u32, FileInfo)> {
        let number = self.store.next_above(self.last)?;
        let file = self.store.describe(number)?;
        self.last = number;
        Some((number, file))
    }
}

/// The numbers of all files of a store. It asks for the next number once for each, and once more.
#[tactic(auto, using(crate::proofs::Steps::numbers_all))]
pub fn numbers_of<S: ReadStore>(store: &S) -> Numbers<'_, S>
    ensures { result ≡ numbers (S.ReadStore.contents store.now).files }
{
    Numbers { store, last: 0 }
}

/// All files of a store. It asks for each what `numbers_of` asks, and describes it.
#[tactic(auto, using(crate::proofs::Steps::told_all))]
pub fn files_of<S: ReadStore>(store: &S) -> Files<'_, S>
    ensures { result ≡ told (S.ReadStore.contents store.now).files }
{
    Files { store, last: 0 }
}

/// The last file number, or 0 if there is no file.
fn last_number<S: ReadStore>(store: &S) -> u32
    ensures value { result + 1 ≡ past_last 1 (S.ReadStore.contents store.now).files }
    ensures bound { result ≤ 0x7FFFFFFE }
{
    numbers_of(store).last().unwrap_or(0)
}

/// One more than the last file number; 1 if there is no file.
pub fn past_last<S: ReadStore>(store: &S) -> u32
    ensures { result ≡ past_last 1 (S.ReadStore.contents store.now).files }
{
    last_number(store) + 1
}
