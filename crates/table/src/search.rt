//! Searches in a table whose numbers ascend.
ghost use Rattle.std.specs.Prelude.{◌≡◌, ℕ, List, IfSome, MatchOption};
ghost use Rattle.store.specs.Changes.{has_children};
ghost use Rattle.table.specs.Found.{Ranked, StandsAt, Missing};
ghost use Rattle.table.specs.Tables.{numbers_in, files_in, Rising};

use crate::place::Place;

// Files are mostly numbered one after another, so that a row mostly stands as far behind the first as its number is above the
// first one's.
fn guessed(places: &[Place], number: u32) -> Option<usize>
    ensures { IfSome result (λ i. StandsAt places.now number i) }
{
    let i = number.checked_sub(places.first()?.number)? as usize;
    if places.get(i)?.number == number {
        return Some(i);
    }
    None
}

/// How many rows have a number of at most `number`: by a guess, or else by halving.
pub fn rank(places: &[Place], number: u32) -> usize
    requires { Rising (numbers_in places.now) }
    ensures { Ranked places.now number result }
{
    match guessed(places, number) {
        Some(i) => i + 1,
        None => places.partition_point(|place| place.number <= number),
    }
}

/// Where the row with this number stands, if there is one.
pub fn find(places: &[Place], number: u32) -> Option<usize>
    requires { Rising (numbers_in places.now) }
    ensures { MatchOption result (Missing places.now number) (λ i. StandsAt places.now number i) }
{
    match guessed(places, number) {
        Some(i) => Some(i),
        None => places
            .binary_search_by_key(&number, |place| place.number)
            .ok(),
    }
}

/// Whether the number is the parent of some row's file.
pub fn is_parent_of_any(places: &[Place], number: u32) -> bool
    ensures { (bytes : List ℕ) → result ≡ has_children number (files_in bytes places.now) }
{
    // By a loop: over a thousand rows `any` took twice the time.
    for place in places {
        if place.file.parent == number {
            return true;
        }
    }
    false
}
