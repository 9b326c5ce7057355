//! The changes of memory that is divided into slots.
ghost use Rattle.std.specs.Prelude.{◌≡◌, ◌+◌, ◌<◌, ◌≤◌, false, length};
ghost use Rattle.store.specs.Changes.{added, removed};
ghost use Rattle.store.specs.Changing.{file_of, result_of, contents_after};
ghost use Rattle.table.specs.declared.place.Place.{Place};
ghost use Rattle.lent.specs.Changed.{Put, Cut};
ghost use Rattle.lent.specs.Kept.{held_in, Readable};
ghost use Rattle.slot.specs.Slots.{spare_slot, Slotted};

use lent::memory::Memory;
use store::fault::StoreFault;
use store::info::NewFile;

// Puts a file into the first spare slot. No other byte is written.
#[tactic(auto, using(crate::proofs::Spare::slot_at))]
fn put(memory: &mut Memory<'_>, number: u32, file: &NewFile, bytes: &[u8])
    requires readable { Readable memory.old }
    requires spare { memory.old.count < length memory.old.places.now }
    requires slot { spare_slot memory.old + length bytes.now ≤ length memory.old.bytes.now }
    ensures { Put memory.old memory.new number file.now (spare_slot memory.old) bytes.now }
{
    let start = memory.places[memory.count].start;
    memory.put(number, file, start, bytes);
}

// Takes a row out of those in use, so that its slot is the first spare one. No byte is written.
fn take_out(memory: &mut Memory<'_>, i: usize)
    requires readable { Readable memory.old }
    requires used { i < memory.old.count }
    ensures { (row : Place) × Cut memory.old memory.new i row }
{
    memory.cut(i);
}

/// Adds a file, or refuses it.
pub fn add(
    memory: &mut Memory<'_>,
    number: u32,
    file: &NewFile,
    bytes: &[u8],
) -> Result<(), StoreFault>
    requires { Slotted memory.old }
    ensures kept { Slotted memory.new }
    ensures result { result ≡ result_of (added false number (file_of file.now bytes.now) (held_in memory.old)) }
    ensures contents { held_in memory.new ≡ contents_after (held_in memory.old) (added false number (file_of file.now bytes.now) (held_in memory.old)) }
{
    memory.files().admit(number, file, bytes)?;
    put(memory, number, file, bytes);
    Ok(())
}

/// Removes a file, or refuses to.
pub fn remove(memory: &mut Memory<'_>, number: u32) -> Result<(), StoreFault>
    requires { Slotted memory.old }
    ensures kept { Slotted memory.new }
    ensures result { result ≡ result_of (removed false number (held_in memory.old)) }
    ensures contents { held_in memory.new ≡ contents_after (held_in memory.old) (removed false number (held_in memory.old)) }
{
    let i = memory.files().removable(number)?;
    take_out(memory, i);
    Ok(())
}
