//! What stores in lent memory do with a few files.
use object::format::Format;
use object::protection::Protection;
use packed::packed_store::PackedStore;
use slot::slot_store::SlotStore;
use std::process::Abort;
use std::test::Fail;
use store::info::NewFile;
use store::read::ReadStore;
use store::write::WriteStore;
use table::place::Place;

/// A text at the root, under the name of an unused row.
fn text() -> NewFile {
    NewFile {
        format: Format::Text,
        protection: Protection::Unprotected,
        parent: 0,
        name: Place::unused().file.name,
    }
}

/// Whether a file has just these bytes.
fn has_bytes<S: ReadStore>(store: &S, number: u32, bytes: &[u8]) -> bool {
    let mut found = [0; 40];
    let count = store.copy(number, 0, &mut found);
    count == bytes.len() && found[0..count] == bytes[0..count]
}

/// Adds three files out of order, removes the one in the middle of memory, and adds another: files 2, 7
/// and 9 are left.
fn change<S: WriteStore>(rt: &impl Abort, store: &mut S) {
    let file = text();
    assert!(rt; store.add(7, &file, &[70; 5]).is_ok());
    assert!(rt; store.add(2, &file, &[20; 12]).is_ok());
    assert!(rt; store.add(4, &file, &[40; 3]).is_ok());
    assert!(rt; store.add(9, &file, &[90; 1]).is_err());
    assert!(rt; store.remove(3).is_err());
    assert!(rt; store.remove(2).is_ok());
    assert!(rt; has_bytes(store, 7, &[70; 5]));
    assert!(rt; has_bytes(store, 4, &[40; 3]));
    assert!(rt; store.total() == 8);
    assert!(rt; store.add(9, &file, &[90; 9]).is_ok());
    assert!(rt; store.remove(4).is_ok());
    assert!(rt; store.add(2, &file, &[20; 2]).is_ok());
}

/// Looks at what `change` left.
fn look<S: ReadStore>(rt: &impl Abort, store: &S) {
    assert!(rt; has_bytes(store, 2, &[20; 2]));
    assert!(rt; has_bytes(store, 7, &[70; 5]));
    assert!(rt; has_bytes(store, 9, &[90; 9]));
    assert!(rt; store.describe(4).is_none());
    assert!(rt; store.next_above(2) == Some(7));
    assert!(rt; store.next_above(9) == None);
    assert!(rt; store.count() == 3);
    assert!(rt; store.total() == 16);
}

#[test]
fn packed_store_keeps_its_files(rt: HostRuntime) -> Result<(), Fail> {
    let mut rows = [Place::unused(); 3];
    let mut bytes = [0; 20];
    let Ok(mut store) = PackedStore::new(&mut rows, &mut bytes) else {
        return Err(Fail::new("refused"));
    };
    change(&rt, &mut store);
    look(&rt, &store);
    assert!(rt; store.capacity() == 20);
    let (_, bytes) = store.give_up();
    assert!(rt; bytes[0] == 70);
    Ok(())
}

#[test]
fn slotted_store_keeps_its_files(rt: HostRuntime) -> Result<(), Fail> {
    let mut rows = [Place::unused(); 3];
    let mut bytes = [0; 98304];
    let Ok(mut store) = SlotStore::new(&mut rows, &mut bytes) else {
        return Err(Fail::new("refused"));
    };
    change(&rt, &mut store);
    look(&rt, &store);
    Ok(())
}

#[test]
fn wrong_memory_is_refused(rt: HostRuntime) -> Result<(), Fail> {
    let mut bytes = [0; 20];
    match PackedStore::new(&mut [], &mut bytes) {
        Ok(_) => Err(Fail::new("accepted")),
        Err(fault) => {
            assert!(rt; fault.number() == 2);
            Ok(())
        },
    }
}
