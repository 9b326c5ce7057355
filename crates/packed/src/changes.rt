//! The changes of a packed store's memory. A removal has a part that changes the table and one that moves the bytes.
ghost use Rattle.std.specs.Prelude.{◌≡◌, ◌+◌, ◌-◌, ◌<◌, ◌≤◌, false, length, map};
ghost use Rattle.store.specs.Changes.{added, removed};
ghost use Rattle.store.specs.Changing.{file_of, result_of, contents_after};
ghost use Rattle.lent.specs.Changed.{Put};
ghost use Rattle.lent.specs.Kept.{held_in, Readable};
ghost use Rattle.table.specs.Rows.{rows_without};
ghost use Rattle.packed.specs.Gaps.{row_after, rows_after, Leaves, Corrected, Closed};
ghost use Rattle.packed.specs.Layouts.{Packed};

use crate::gap::Gap;
use lent::memory::Memory;
use store::fault::StoreFault;
use store::info::NewFile;
use table::area;
use table::place::Place;

// Puts a file in, with its bytes behind all others. No file's bytes move.
fn append(memory: &mut Memory<'_>, number: u32, file: &NewFile, bytes: &[u8])
    requires readable { Readable memory.old }
    requires spare { memory.old.count < length memory.old.places.now }
    requires room { memory.old.total + length bytes.now ≤ length memory.old.bytes.now }
    ensures { Put memory.old memory.new number file.now memory.old.total bytes.now }
{
    let start = memory.total;
    memory.put(number, file, start, bytes);
}

// Corrects rows for a gap that is about to be closed.
fn correct_starts(places: &mut [Place], gap: Gap)
    ensures { places.new ≡ map (row_after gap) places.old }
{
    for place in places.iter_mut() {
        place.start = gap.start_after(place.start);
    }
}

// The rows in use begin where their files lie once the gap is closed. No byte is written.
fn correct_rows(memory: &mut Memory<'_>, gap: Gap)
    requires { memory.old.count ≤ length memory.old.places.now }
    ensures { Corrected memory.old memory.new gap }
{
    correct_starts(&mut memory.places[..memory.count], gap);
}

// The table part of a removal: the row at `i` is taken out, and the others are corrected for the gap that its file's bytes are. It
// lies in front of the total.
fn cut_row(memory: &mut Memory<'_>, i: usize) -> Gap
    requires packed { Packed memory.old }
    requires used { i < memory.old.count }
    ensures gap { Leaves memory.old memory.new i result }
    ensures within { result.start + result.length ≤ memory.old.total }
    ensures table { memory.new.places.now ≡ rows_after result (memory.old.count - 1) (rows_without memory.old.places.now memory.old.count i) }
    ensures bytes { memory.new.bytes.now ≡ memory.old.bytes.now }
    ensures count { memory.new.count + 1 ≡ memory.old.count }
    ensures total { memory.new.total + result.length ≡ memory.old.total }
{
    let place = memory.cut(i);
    let gap = Gap {
        start: place.start,
        length: place.file.length,
    };
    correct_rows(memory, gap);
    gap
}

// The byte part of a removal: what lies behind the gap moves down. The table stays, and so do the bytes in front of the gap and
// those from the total on.
fn close_gap(memory: &mut Memory<'_>, gap: Gap)
    requires gap { gap.start ≤ memory.old.total }
    requires within { memory.old.total + gap.length ≤ length memory.old.bytes.now }
    ensures { Closed memory.old memory.new gap }
{
    let end = memory.total as usize + gap.length as usize;
    area::close_up(memory.bytes, gap.start as usize, gap.length as usize, end);
}

/// Adds a file under a number, or says why it may not be added.
pub fn add(
    memory: &mut Memory<'_>,
    number: u32,
    file: &NewFile,
    bytes: &[u8],
) -> Result<(), StoreFault>
    requires { Packed memory.old }
    ensures packed { Packed memory.new }
    ensures result { result ≡ result_of (added false number (file_of file.now bytes.now) (held_in memory.old)) }
    ensures contents { held_in memory.new ≡ contents_after (held_in memory.old) (added false number (file_of file.now bytes.now) (held_in memory.old)) }
{
    memory.files().admit(number, file, bytes)?;
    append(memory, number, file, bytes);
    Ok(())
}

/// Removes the file with this number, or says why it may not be removed.
pub fn remove(memory: &mut Memory<'_>, number: u32) -> Result<(), StoreFault>
    requires { Packed memory.old }
    ensures packed { Packed memory.new }
    ensures result { result ≡ result_of (removed false number (held_in memory.old)) }
    ensures contents { held_in memory.new ≡ contents_after (held_in memory.old) (removed false number (held_in memory.old)) }
{
    let i = memory.files().removable(number)?;
    let gap = cut_row(memory, i);
    close_gap(memory, gap);
    Ok(())
}
