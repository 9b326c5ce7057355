//! Rows, and the questions to a list of them.
ghost use Rattle.std.specs.Prelude.{◌≡◌, ◌+◌, ◌^◌, ◌<◌, ◌≤◌, ◌==◌, length, take, map, nat_lt, find, Some, None, IfSome, MatchOption};
ghost use Rattle.std.specs.List.{list_any};
ghost use Rattle.heap_store.specs.Rows.{taken, rank_of, rank_for};

use std::ops::Range;
use store::info::FileInfo;

/// A file but for its bytes, which lie behind those of the rows before it.
#[derive(Clone, Copy)]
pub(crate) struct Row {
    pub number: u32,
    pub file: FileInfo,
}

/// Which row has this number, if one does.
#[tactic(auto, unfolding(crate::specs::Rows::rank_of))]
pub(crate) fn rank_of(rows: &[Row], number: u32) -> Option<usize>
    ensures rank { result ≡ rank_of number rows.now }
    ensures within { IfSome result (λ i. i < length rows.now) }
{
    rows.iter().position(|row| row.number == number)
}

/// Which row has this number, and where the bytes of its file begin and end among those of all rows, if one does.
// In one pass: to search, and then to sum the rows before, is to go through them twice.
#[tactic(auto, using(crate::proofs::Scans::sought))]
pub(crate) fn span_of(rows: &[Row], number: u32) -> Option<(usize, Range<usize>)>
    requires small { taken rows.now < 2 ^ 63 }
    ensures rank { MatchOption result (rank_of number rows.now ≡ None) (λ f. rank_of number rows.now ≡ Some f.0) }
    ensures start { IfSome result (λ f. f.1.start ≡ taken (take f.0 rows.now)) }
    ensures end { IfSome result (λ f. f.1.end ≡ taken (take (f.0 + 1) rows.now)) }
    ensures order { IfSome result (λ f. f.1.start ≤ f.1.end) }
    ensures within { IfSome result (λ f. (f.0 < length rows.now) × (f.1.end ≤ taken rows.now)) }
{
    let mut start = 0;
    for (rank, row) in rows.iter().enumerate() {
        let end = start + row.file.length as usize;
        if row.number == number {
            return Some((rank, start..end));
        }
        start = end;
    }
    None
}

/// How many rows a new one stands behind, those before the first of a larger number, and how many bytes their files have.
// In one pass, too.
#[tactic(auto, using(crate::proofs::Scans::placed))]
pub(crate) fn place_for(rows: &[Row], number: u32) -> (usize, usize)
    requires small { taken rows.now < 2 ^ 63 }
    ensures rank { result.0 ≡ rank_for number rows.now }
    ensures start { result.1 ≡ taken (take result.0 rows.now) }
    ensures within { (result.0 ≤ length rows.now) × (result.1 ≤ taken rows.now) }
{
    let mut start = 0;
    for (rank, row) in rows.iter().enumerate() {
        if number < row.number {
            return (rank, start);
        }
        start += row.file.length as usize;
    }
    (rows.len(), start)
}

/// The first number above `number`, if there is one.
pub(crate) fn number_above(rows: &[Row], number: u32) -> Option<u32>
    ensures { result ≡ find (λ m. nat_lt number m) (map (λ r. r.number) rows.now) }
{
    rows.iter()
        .map(|row| row.number)
        .find(|other| number < *other)
}

/// Whether some row has this parent.
pub(crate) fn have_parent(rows: &[Row], parent: u32) -> bool
    ensures { result ≡ list_any (λ r. r.file.parent == parent) rows.now }
{
    rows.iter().any(|row| row.file.parent == parent)
}
