//! Dividing lent memory into slots.
ghost use Rattle.std.specs.Prelude.{◌≡◌, ℕ, ◌*◌, ◌<◌, ◌≤◌, length, slice_index};
ghost use Rattle.store.specs.Sound.{max_files, max_length};
ghost use Rattle.table.specs.Tables.{starts_in};
ghost use Rattle.slot.specs.Slots.{suits, Whole, Inside, Distinct};

use store::limits::{MAX_FILES, MAX_LENGTH};
use table::place::Place;

/// Whether a store can be made in so many rows and bytes: a slot has as many bytes as a file may have.
pub fn is_suitable(rows: usize, bytes: usize) -> bool
    ensures { result ≡ suits rows bytes }
{
    rows >= 1 && rows <= MAX_FILES as usize && bytes == rows * MAX_LENGTH
}

/// Gives each row the slot of its index.
pub fn number_slots(places: &mut [Place])
    requires { length places.old ≤ max_files }
    ensures numbered { (k : ℕ) → k < length places.new → slice_index (starts_in places.new) k ≡ k * max_length }
    ensures whole { Whole (starts_in places.new) }
    ensures inside { Inside (starts_in places.new) (length places.old * max_length) }
    ensures distinct { Distinct (starts_in places.new) }
{
    for (i, place) in places.iter_mut().enumerate() {
        place.start = (i * MAX_LENGTH) as u32;
    }
}
