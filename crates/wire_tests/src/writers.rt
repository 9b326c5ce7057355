//! Writers into buffers of every length.
use datasets::device::write_device_info;
use datasets::info::{ObjectInfo, StorageInfo, StorageKind};
use datasets::write::{write_object_info, write_storage_info};
use object::name::Name;
use object::protection::Protection;
use std::process::Abort;
use std::test::Fail;
use wire::container::{Heading, read_data};
use wire::data::{write_array, write_data_head, write_number};
use wire::fault::DatasetFault;
use wire::response::Parameters;
use wire::response::write::write_response;

fn heading(code: u16, transaction: u32) -> Heading {
    Heading { code, transaction }
}

const UNTOUCHED: u8 = 0xa5;

/// Whether every byte from a place on is as it was.
fn is_untouched(bytes: &[u8], place: usize) -> bool {
    bytes.iter().skip(place).all(|byte| *byte == UNTOUCHED)
}

/// Tries every buffer below 128 bytes: one that is shorter than `room` is refused and stays as it was, and else just its front of
/// `len` bytes is written.
fn tried<F: Fn(&mut [u8]) -> Result<usize, DatasetFault>>(
    rt: &impl Abort,
    write: F,
    room: usize,
    len: usize,
)
    requires { F.IsAlwaysCallable write }
{
    for size in 0..128 {
        let mut buffer = [UNTOUCHED; 128];
        let out = &mut buffer[..size];
        match write(out) {
            Ok(end) => {
                assert!(rt; size >= room);
                assert_eq!(rt; end, len);
                assert!(rt; is_untouched(out, end));
            }
            Err(fault) => {
                assert!(rt; size < room);
                assert_eq!(rt; fault.number(), 0x2002);
                assert!(rt; is_untouched(out, 0));
            }
        }
    }
}

fn beds() -> Result<ObjectInfo, Fail> {
    let name = Name::from_units(&[0x42, 0x65, 0x64, 0x73]).ok_or("the name is legal")?;
    Ok(ObjectInfo {
        storage: 0x0001_0001,
        format: 0x3001,
        protection: Protection::Unprotected,
        size: 0,
        parent: 7,
        name,
    })
}

#[test]
fn buffers(rt: HostRuntime) -> Result<(), Fail> {
    let storage = StorageInfo {
        kind: StorageKind::Programs,
        writable: true,
        capacity: 1_048_576,
        free_bytes: 4_096,
        free_objects: 5,
    };
    let object = beds()?;
    tried(
        &rt,
        |out| write_device_info(out, heading(0x1001, 1)),
        109,
        109,
    );
    tried(
        &rt,
        |out| write_storage_info(out, heading(0x1005, 1), &storage),
        58,
        58,
    );
    tried(
        &rt,
        |out| write_object_info(out, heading(0x1008, 1), &object),
        78,
        78,
    );
    tried(
        &rt,
        |out| write_array(out, heading(0x1007, 1), &[1, 2, 0x8000_0001]),
        28,
        28,
    );
    tried(
        &rt,
        |out| write_data_head(out, heading(0x1009, 1), 30),
        42,
        12,
    );
    tried(&rt, |out| write_number(out, 5, 0x0102_0304), 9, 9);
    Ok(())
}

/// What is written is read back.
#[test]
fn round_trip(rt: HostRuntime) -> Result<(), Fail> {
    let info = beds()?;
    let mut buffer = [0; 78];
    write_object_info(&mut buffer, heading(0x1008, 9), &info)?;
    let payload = read_data(&buffer, heading(0x1008, 9))?;
    let back = ObjectInfo::read(payload.bytes)?;
    assert!(rt; back == info);
    Ok(())
}

#[test]
fn responses(rt: HostRuntime) {
    let mut buffer = [UNTOUCHED; 32];
    assert_eq!(rt;
        write_response(&mut buffer, heading(0x201e, 7), &Parameters::one(3)),
        16
    );
    assert!(rt; buffer[..16] == [16, 0, 0, 0, 3, 0, 0x1e, 0x20, 7, 0, 0, 0, 3, 0, 0, 0]);
    assert!(rt; is_untouched(&buffer, 16));
    assert_eq!(rt;
        write_response(&mut buffer, heading(0x2001, 8), &Parameters::three(1, 2, 3)),
        24
    );
    assert_eq!(rt;
        write_response(&mut buffer, heading(0x2001, 9), &Parameters::none()),
        12
    );
    assert!(rt; Parameters::from_slice(&[0; 6]).is_none());
}
