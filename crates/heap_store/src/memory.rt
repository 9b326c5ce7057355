//! The memory of a store.
ghost use Rattle.std.specs.Prelude.{◌≡◌, ◌+◌, ◌^◌, ◌<◌, ◌≤◌, [], length, IfOk, vec_len, vec_capacity};
ghost use Rattle.store.specs.Contents.{total, lookup, next_above, bytes_of};
ghost use Rattle.store.specs.Infos.{described};
ghost use Rattle.store.specs.Changes.{inserted, without, has_children};
ghost use Rattle.store.specs.Changing.{file_of};
ghost use Rattle.heap_store.specs.InMemory.{InMemory};
ghost use Rattle.heap_store.specs.Rows.{taken, files_in};

use crate::row::{Row, have_parent, number_above, place_for, rank_of, span_of};
use crate::splice::{put_in, take_out};
use std::alloc::{AllocError, Global};
use std::marker::Model;
use store::info::{FileInfo, NewFile};

/// Files: a row of each, and their bytes, which lie in the order of the rows without gaps.
// Rows and bytes are two vectors, each as large as it will ever be, since an addition may not fail for want of memory.
#[derive(Drop)]
pub(crate) struct Memory {
    rows: Vec<Row>,
    bytes: Vec<u8>,
}

impl Model for Memory {
    ghost Value = { InMemory };

    ghost view = { λ m. record { files = files_in m.rows.items m.bytes.items; row_room = vec_capacity m.rows; byte_room = vec_capacity m.bytes } };

    ghost invariant = { λ m. taken m.rows.items ≡ vec_len m.bytes };
}

impl Memory {
    /// Memory without files for so many rows and bytes.
    pub(crate) fn new(heap: Global, rows: u32, bytes: u32) -> Result<Memory, AllocError>
        ensures { IfOk result (λ m. (m.files ≡ []) × (rows ≤ m.row_room) × (bytes ≤ m.byte_room)) }
    {
        let rows = Vec::with_capacity(heap, rows as usize)?;
        let bytes = Vec::with_capacity(heap, bytes as usize)?;
        Ok(Memory { rows, bytes })
    }

    /// How many files there are.
    #[tactic(auto, using(crate::proofs::Files::count_files))]
    pub(crate) fn count(&self) -> usize
        ensures { result ≡ length self.now.files }
    {
        self.rows.len()
    }

    /// How many bytes the files have in all.
    #[tactic(auto, using(crate::proofs::Files::total_files))]
    pub(crate) fn total(&self) -> usize
        ensures { result ≡ total self.now.files }
    {
        self.bytes.len()
    }

    /// The first number above `number`, if there is one.
    #[tactic(auto, using(crate::proofs::Files::above_files))]
    pub(crate) fn next_above(&self, number: u32) -> Option<u32>
        ensures { result ≡ next_above number self.now.files }
    {
        number_above(&self.rows, number)
    }

    /// Whether the number is some file's parent.
    #[tactic(auto, using(crate::proofs::Files::children_files))]
    pub(crate) fn has_children(&self, number: u32) -> bool
        ensures { result ≡ has_children number self.now.files }
    {
        have_parent(&self.rows, number)
    }

    /// What is told of a file, if it is there.
    #[tactic(auto, using(crate::proofs::Files::described_at, crate::proofs::Files::described_nowhere))]
    pub(crate) fn describe(&self, number: u32) -> Option<FileInfo>
        ensures { result ≡ described number self.now.files }
    {
        let rank = rank_of(&self.rows, number)?;
        Some(self.rows[rank].file)
    }

    /// A file's bytes; none of an absent one.
    #[tactic(auto, using(crate::proofs::Files::bytes_at, crate::proofs::Files::bytes_nowhere))]
    pub(crate) fn bytes_of(&self, number: u32) -> &[u8]
        ensures { result.now ≡ bytes_of (lookup number self.now.files) }
    {
        match span_of(&self.rows, number) {
            Some((_, place)) => &self.bytes[place],
            None => &[],
        }
    }

    /// Adds a file. There is room for it, so that it does not fail.
    #[tactic(auto, using(crate::proofs::Changed::goes_in, crate::proofs::Files::count_files, crate::proofs::Files::total_files))]
    pub(crate) fn add(&mut self, number: u32, file: &NewFile, run: &[u8])
        requires row { length self.old.files < self.old.row_room }
        requires bytes { total self.old.files + length run.now ≤ self.old.byte_room }
        requires small { length run.now < 2 ^ 32 }
        ensures files { self.new.files ≡ inserted number (file_of file.now run.now) self.old.files }
        ensures row_room { self.old.row_room ≤ self.new.row_room }
        ensures byte_room { self.old.byte_room ≤ self.new.byte_room }
    {
        let (rank, start) = place_for(&self.rows, number);
        let file = file.with_length(run.len() as u32);
        self.rows.insert(rank, Row { number, file }).unwrap();
        put_in(&mut self.bytes, start, run);
    }

    /// Removes a file, if it is there.
    #[tactic(auto, using(crate::proofs::Changed::goes_out, crate::proofs::Changed::stays_filled, crate::proofs::Files::nothing_goes))]
    pub(crate) fn remove(&mut self, number: u32)
        ensures files { self.new.files ≡ without number self.old.files }
        ensures row_room { self.old.row_room ≤ self.new.row_room }
        ensures byte_room { self.old.byte_room ≤ self.new.byte_room }
    {
        if let Some((rank, place)) = span_of(&self.rows, number) {
            self.rows.remove(rank);
            take_out(&mut self.bytes, place);
        }
    }
}
