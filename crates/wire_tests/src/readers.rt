//! Readers on damaged bytes.
use datasets::info::ObjectInfo;
use wire::command::Command;
use wire::container::{Heading, read_data};
use wire::string::read_string;

/// OpenSession of session 1.
const OPENING: [u8; 16] = [0x10, 0, 0, 0, 1, 0, 2, 0x10, 0, 0, 0, 0, 1, 0, 0, 0];

/// What it says once the byte at a place from 6 on is turned.
const TURNED: [Command; 10] = [
    Command {
        code: 0x10fd,
        transaction: 0,
        parameters: [1, 0, 0, 0, 0],
    },
    Command {
        code: 0xef02,
        transaction: 0,
        parameters: [1, 0, 0, 0, 0],
    },
    Command {
        code: 0x1002,
        transaction: 0x0000_00ff,
        parameters: [1, 0, 0, 0, 0],
    },
    Command {
        code: 0x1002,
        transaction: 0x0000_ff00,
        parameters: [1, 0, 0, 0, 0],
    },
    Command {
        code: 0x1002,
        transaction: 0x00ff_0000,
        parameters: [1, 0, 0, 0, 0],
    },
    Command {
        code: 0x1002,
        transaction: 0xff00_0000,
        parameters: [1, 0, 0, 0, 0],
    },
    Command {
        code: 0x1002,
        transaction: 0,
        parameters: [0x0000_00fe, 0, 0, 0, 0],
    },
    Command {
        code: 0x1002,
        transaction: 0,
        parameters: [0x0000_ff01, 0, 0, 0, 0],
    },
    Command {
        code: 0x1002,
        transaction: 0,
        parameters: [0x00ff_0001, 0, 0, 0, 0],
    },
    Command {
        code: 0x1002,
        transaction: 0,
        parameters: [0xff00_0001, 0, 0, 0, 0],
    },
];

#[test]
fn commands(rt: HostRuntime) {
    for len in 0..16 {
        assert!(rt; Command::read(&OPENING[..len]).is_err());
    }
    for place in 0..6 {
        let mut bytes = OPENING;
        bytes[place] ^= 0xff;
        assert!(rt; Command::read(&bytes).is_err());
    }
    for (i, command) in TURNED.iter().enumerate() {
        let mut bytes = OPENING;
        bytes[6 + i] ^= 0xff;
        assert_eq!(rt; Command::read(&bytes), Ok(*command));
    }
}

/// Three bytes of data of SendObject in transaction 7.
const SENDING: [u8; 15] = [15, 0, 0, 0, 2, 0, 0x0d, 0x10, 7, 0, 0, 0, 1, 2, 3];

#[test]
fn data(rt: HostRuntime) {
    let heading = Heading {
        code: 0x100d,
        transaction: 7,
    };
    for len in 0..15 {
        assert!(rt; read_data(&SENDING[..len], heading).is_err());
    }
    let other_code = Heading {
        code: 0x100c,
        ..heading
    };
    assert!(rt; read_data(&SENDING, other_code).is_err());
    let other_transaction = Heading {
        transaction: 8,
        ..heading
    };
    assert!(rt; read_data(&SENDING, other_transaction).is_err());
    for place in 0..15 {
        let mut bytes = SENDING;
        bytes[place] ^= 0xff;
        match read_data(&bytes, heading) {
            Ok(payload) => {
                assert!(rt; place >= 12);
                assert_eq!(rt; payload.place, 12);
                assert!(rt; payload.bytes == &bytes[12..15]);
            }
            Err(fault) => {
                assert!(rt; place < 12);
                assert_eq!(rt; fault.number(), 0x2007);
            }
        }
    }
}

/// Bytes and how many units they hold as a string at their front.
struct Case {
    bytes: &'static [u8],
    units: Option<usize>,
}

const STRINGS: [Case; 12] = [
    Case {
        bytes: &[],
        units: None,
    },
    Case {
        bytes: &[0],
        units: Some(0),
    },
    Case {
        bytes: &[0, 9],
        units: Some(0),
    },
    Case {
        bytes: &[1],
        units: None,
    },
    Case {
        bytes: &[1, 0, 0],
        units: None,
    },
    Case {
        bytes: &[2, 0x41, 0],
        units: None,
    },
    Case {
        bytes: &[2, 0x41, 0, 0],
        units: None,
    },
    Case {
        bytes: &[2, 0x41, 0, 0, 0],
        units: Some(1),
    },
    Case {
        bytes: &[2, 0x41, 0, 0, 1],
        units: None,
    },
    Case {
        bytes: &[2, 0, 0, 0, 0],
        units: None,
    },
    Case {
        bytes: &[3, 0x41, 0, 0, 0, 0, 0],
        units: None,
    },
    Case {
        bytes: &[3, 0x41, 0, 0x42, 0, 0, 0, 7],
        units: Some(2),
    },
];

#[test]
fn strings(rt: HostRuntime) {
    for case in &STRINGS {
        let units = read_string(case.bytes).map(|text| text.units.len() / 2);
        assert_eq!(rt; units, case.units);
    }
}

/// A protected text "A" of 258 bytes in folder 1 of the second storage.
const TEXT: [u8; 60] = [
    0x01, 0x00, 0x02, 0x00, 0x04, 0x30, 0x01, 0x00, 0x02, 0x01, 0x00, 0x00, 0x00, 0x00, 0x00, 0x00,
    0x00, 0x00, 0x00, 0x00, 0x00, 0x00, 0x00, 0x00, 0x00, 0x00, 0x00, 0x00, 0x00, 0x00, 0x00, 0x00,
    0x00, 0x00, 0x00, 0x00, 0x00, 0x00, 0x01, 0x00, 0x00, 0x80, 0x00, 0x00, 0x00, 0x00, 0x00, 0x00,
    0x00, 0x00, 0x00, 0x00, 0x02, 0x41, 0x00, 0x00, 0x00, 0x00, 0x00, 0x00,
];

/// The places whose byte may not be turned: protection, the counts of the strings and the closing 0.
fn is_bound(place: usize) -> bool {
    matches!(place, 6 | 7 | 52 | 55..=59)
}

#[test]
fn object_infos(rt: HostRuntime) {
    assert!(rt; ObjectInfo::read(&TEXT).is_ok());
    for len in 0..60 {
        assert!(rt; ObjectInfo::read(&TEXT[..len]).is_err());
    }
    let mut longer = [0; 61];
    longer[..60].copy_from_slice(&TEXT);
    assert!(rt; ObjectInfo::read(&longer).is_err());
    for place in 0..60 {
        let mut bytes = TEXT;
        bytes[place] ^= 0xff;
        match ObjectInfo::read(&bytes) {
            Ok(info) => {
                assert!(rt; !is_bound(place));
                assert_eq!(rt; info.storage != 0x0002_0001, place < 4);
                assert_eq!(rt; info.format != 0x3004, place == 4 || place == 5);
                assert_eq!(rt; info.size != 258, (8..12).contains(&place));
                assert_eq!(rt; info.parent != 0x8000_0001, (38..42).contains(&place));
                assert_eq!(rt;
                    info.name.units() != [0x41].as_slice(),
                    place == 53 || place == 54
                );
            }
            Err(fault) => {
                assert!(rt; is_bound(place));
                assert_eq!(rt; fault.number(), 0xa806);
            }
        }
    }
}
