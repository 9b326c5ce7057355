//! Lent memory, what is in use of it, and how that changes.
ghost use Rattle.std.specs.Prelude.{◌≡◌, ◌+◌, ◌<◌, ◌≤◌, length};
ghost use Rattle.lent.specs.Asked.{contents_of};
ghost use Rattle.lent.specs.Changed.{Put, Cut};
ghost use Rattle.lent.specs.Kept.{held_in, rows, Readable};

use crate::files::HeldFiles;
use store::info::NewFile;
use table::place::Place;
use table::{area, rows};

/// The table of rows and the memory of bytes. The first `count` rows are in use, and their files have `total` bytes. Both are lent
/// as they are, so the rows in use are counted; what the spare ones hold is the store's business.
#[derive(Drop)]
pub struct Memory<'a> {
    pub places: &'a mut [Place],
    pub bytes: &'a mut [u8],
    pub count: usize,
    pub total: u32,
}

impl Memory<'_> {
    /// The files in this memory.
    pub fn files(&self) -> HeldFiles<'_>
        requires { Readable self.now }
        ensures places { result.places.now ≡ rows self.now }
        ensures contents { contents_of result ≡ held_in self.now }
    {
        HeldFiles {
            places: &self.places[..self.count],
            bytes: self.bytes,
            limit: self.places.len() as u32,
            total: self.total,
        }
    }

    /// Puts a file in under a number that is free, with its bytes from `start` on.
    pub fn put(&mut self, number: u32, file: &NewFile, start: u32, bytes: &[u8])
        requires readable { Readable self.old }
        requires spare { self.old.count < length self.old.places.now }
        requires inside { start + length bytes.now ≤ length self.old.bytes.now }
        ensures { Put self.old self.new number file.now start bytes.now }
    {
        let i = self.files().rank(number);
        let length = bytes.len() as u32;
        let place = Place {
            number,
            file: file.with_length(length),
            start,
        };
        area::write_at(self.bytes, start as usize, bytes);
        rows::insert(self.places, self.count, i, place);
        self.count += 1;
        self.total += length;
    }

    /// Takes a row out of those in use, and answers it. No byte is written.
    #[tactic(auto, using(crate::proofs::Changing::part_of_total))]
    pub fn cut(&mut self, i: usize) -> Place
        requires readable { Readable self.old }
        requires used { i < self.old.count }
        ensures { Cut self.old self.new i result }
    {
        let place = self.places[i];
        rows::cut(self.places, self.count, i);
        self.count -= 1;
        self.total -= place.file.length;
        place
    }
}
