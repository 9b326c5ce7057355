//! Putting a row into a table and taking one out. Each row is moved at most once. The count stands beside the table, since the
//! contracts say what becomes of the spare rows too: they may keep something.
ghost use Rattle.std.specs.Prelude.{◌≡◌, ◌+◌, ◌<◌, ◌≤◌, length};
ghost use Rattle.table.specs.Rows.{rows_with, rows_without};

use crate::place::Place;

/// Puts `place` at `i`, with those of the first `count` rows from there on one further.
#[tactic(auto, using(crate::proofs::Moves::put_first))]
pub fn insert(places: &mut [Place], count: usize, i: usize, place: Place)
    requires within { i ≤ count }
    requires spare { count < length places.old }
    ensures { places.new ≡ rows_with places.old count i place }
{
    places.copy_within(i..count, i + 1);
    places[i] = place;
}

/// Takes the row at `i` out of the first `count`, and leaves it as the first of the spare rows.
#[tactic(auto, using(crate::proofs::Moves::first_put_last))]
pub fn cut(places: &mut [Place], count: usize, i: usize)
    requires within { i < count }
    requires there { count ≤ length places.old }
    ensures { places.new ≡ rows_without places.old count i }
{
    places[i..count].rotate_left(1);
}
