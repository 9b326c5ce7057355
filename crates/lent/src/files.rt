//! The files in lent memory, and the questions that they answer.
ghost use Rattle.std.specs.Prelude.{◌≡◌, false, length, MatchOption, MatchResult};
ghost use Rattle.store.specs.Contents.{total as bytes_in_use};
ghost use Rattle.store.specs.Sound.{Sound};
ghost use Rattle.store.specs.SoundProp.{sound_is_prop};
ghost use Rattle.table.specs.Tables.{numbers_in, files_in, holding, Rising, Within};

use store::admission::check_addition;
use store::fault::StoreFault;
use store::info::{FileInfo, NewFile};
use store::read::ReadStore;
use table::part::copy_part;
use table::place::Place;
use table::search;

/// The files in lent memory: a row for each, the memory of bytes, how many rows there are in all, and how many bytes the files have.
#[derive(Clone, Copy)]
pub struct HeldFiles<'m> {
    pub(crate) places: &'m [Place],
    pub(crate) bytes: &'m [u8],
    pub(crate) limit: u32,
    pub(crate) total: u32,
    ghost counted: { total ≡ bytes_in_use (files_in bytes.now places.now) },
    ghost sound: { Sound (holding places.now limit bytes.now) } by { sound_is_prop (holding places.now limit bytes.now) },
    ghost rising: { Rising (numbers_in places.now) },
    ghost within: { Within places.now (length bytes.now) },
}

impl HeldFiles<'_> {
    ghost use Rattle.store.specs.Changes.{added};
    ghost use Rattle.store.specs.Changing.{file_of, result_of};
    ghost use Rattle.table.specs.Found.{Ranked};
    ghost use Rattle.lent.specs.Asked.{contents_of, HasRow, NoRow, RowOf, Removable, NotRemovable};

    // Where the row with this number stands, if there is one.
    fn index_of(&self, number: u32) -> Option<usize>
        ensures { MatchOption result (NoRow self.now number) (λ i. HasRow self.now number i) }
    {
        search::find(self.places, number)
    }

    // The row with this number, if there is one.
    fn row(&self, number: u32) -> Option<&Place>
        ensures { MatchOption result (NoRow self.now number) (λ p. RowOf self.now number p.now) }
    {
        Some(&self.places[self.index_of(number)?])
    }

    /// How many numbers are at most `number`: where a row with that number is to be inserted.
    pub fn rank(&self, number: u32) -> usize
        ensures { Ranked self.now.places.now number result }
    {
        search::rank(self.places, number)
    }

    /// Whether a file may be added under this number, or why not.
    pub fn admit(&self, number: u32, file: &NewFile, bytes: &[u8]) -> Result<(), StoreFault>
        ensures { result ≡ result_of (added false number (file_of file.now bytes.now) (contents_of self.now)) }
    {
        check_addition(self, number, file, bytes)
    }

    /// Where the row of a file stands that may be removed, or why it may not.
    #[tactic(auto, unfolding(store::specs::Changes::removed))]
    pub fn removable(&self, number: u32) -> Result<usize, StoreFault>
        ensures { MatchResult result (λ i. Removable self.now.places.now (contents_of self.now) number i) (λ f. NotRemovable (contents_of self.now) number f) }
    {
        let i = self.index_of(number).ok_or(StoreFault::Absent)?;
        if search::is_parent_of_any(self.places, number) {
            return Err(StoreFault::HasChildren);
        }
        Ok(i)
    }
}

impl ReadStore for HeldFiles<'_> {
    ghost use Rattle.lent.specs.Asked.{contents_of};

    ghost contents = { contents_of };

    ghost sound = { λ s. s.sound };

    fn capacity(&self) -> u32 {
        self.bytes.len() as u32
    }

    fn limit(&self) -> u32 {
        self.limit
    }

    fn total(&self) -> u32 {
        self.total
    }

    #[tactic(auto, using(table::proofs::Columns::files_length))]
    fn count(&self) -> u32 {
        self.places.len() as u32
    }

    #[tactic(auto, using(crate::proofs::Answering::above_at, crate::proofs::Answering::above_none))]
    fn next_above(&self, number: u32) -> Option<u32> {
        Some(self.places.get(self.rank(number))?.number)
    }

    fn describe(&self, number: u32) -> Option<FileInfo> {
        Some(self.row(number)?.file)
    }

    fn copy(&self, number: u32, offset: u32, into: &mut [u8]) -> usize {
        match self.row(number) {
            Some(place) => copy_part(self.bytes, place.start, place.file.length, offset, into),
            None => 0,
        }
    }
}
