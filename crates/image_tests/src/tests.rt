//! What an image holds, and where it is wrong.
use image::image_store::ImageStore;
use object::format::Format;
use object::protection::Protection;
use std::alloc::{AllocError, Global};
use std::process::Abort;
use std::test::Fail;
use store::read::ReadStore;

mod build;

use build::{FOLDER, TEXT, push_file};

/// File 3, a text with the name A and the bytes "hi".
const SAMPLE: [u8; 23] = [
    0x01, 0x0a, 0x00, 0x03, 0x00, 0x00, 0x00, 0x00, 0x00, 0x00, 0x00, 0x04, 0x30, 0x02, 0x02, 0x00,
    0x41, 0x00, 0x03, 0x02, 0x00, 0x68, 0x69,
];

/// The place of the first wrong field, or `None` if the image is accepted.
fn place(image: &[u8]) -> Option<usize> {
    ImageStore::try_open(image).err().map(|fault| fault.place)
}

/// Copies file 3 of the sample into `room` bytes of 0xee, and checks the count and all four bytes.
fn check_copy(
    rt: &impl Abort,
    offset: u32,
    room: usize,
    count: usize,
    after: [u8; 4],
) -> Result<(), Fail> {
    let store = ImageStore::try_open(&SAMPLE)?;
    let mut into = [0xeeu8; 4];
    let Some(front) = into.get_mut(..room) else {
        return Err(Fail::new("no such room"));
    };
    let copied = store.copy(3, offset, front);
    assert_eq!(rt; copied, count);
    assert_eq!(rt; into, after);
    Ok(())
}

#[test]
fn sample_is_described(rt: HostRuntime) -> Result<(), Fail> {
    let store = ImageStore::try_open(&SAMPLE)?;
    assert_eq!(rt; store.capacity(), 2);
    assert_eq!(rt; store.limit(), 1);
    assert_eq!(rt; store.total(), 2);
    assert_eq!(rt; store.count(), 1);
    assert_eq!(rt; store.next_above(0), Some(3));
    assert_eq!(rt; store.next_above(2), Some(3));
    assert_eq!(rt; store.next_above(3), None);
    assert!(rt; store.describe(2).is_none());
    assert!(rt; store.describe(4).is_none());
    let Some(info) = store.describe(3) else {
        return Err(Fail::new("file 3 is absent"));
    };
    assert!(rt; matches!(info.format, Format::Text));
    assert!(rt; matches!(info.protection, Protection::ReadOnly));
    assert_eq!(rt; info.parent, 0);
    assert_eq!(rt; info.length, 2);
    assert_eq!(rt; info.name.units(), [0x41].as_slice());
    Ok(())
}

#[test]
fn sample_is_copied(rt: HostRuntime) -> Result<(), Fail> {
    check_copy(&rt, 0, 4, 2, [0x68, 0x69, 0xee, 0xee])?;
    check_copy(&rt, 0, 2, 2, [0x68, 0x69, 0xee, 0xee])?;
    check_copy(&rt, 0, 1, 1, [0x68, 0xee, 0xee, 0xee])?;
    check_copy(&rt, 0, 0, 0, [0xee, 0xee, 0xee, 0xee])?;
    check_copy(&rt, 1, 4, 1, [0x69, 0xee, 0xee, 0xee])?;
    check_copy(&rt, 2, 4, 0, [0xee, 0xee, 0xee, 0xee])?;
    check_copy(&rt, 3, 4, 0, [0xee, 0xee, 0xee, 0xee])?;
    check_copy(&rt, u32::MAX, 4, 0, [0xee, 0xee, 0xee, 0xee])
}

/// Bytes to write over an image, one at a time, and what is then wrong: each at, byte and place of the wrong field.
/// The image has folder 2 "F" at byte 0, its file 4 "A" with two bytes at byte 21, and file 5 "B" at byte 44.
const SPOILINGS: [(usize, u8, usize); 26] = [
    // tags, of the first file and of the last
    (0, 2, 0),
    (13, 1, 13),
    (18, 4, 18),
    (44, 0, 44),
    (57, 3, 57),
    (62, 2, 62),
    // the first field's length
    (22, 9, 21),
    (22, 11, 21),
    (23, 1, 21),
    // numbers: 0, equal to the one before, smaller, too large
    (3, 0, 0),
    (24, 2, 21),
    (24, 1, 21),
    (27, 0x80, 21),
    // formats: an unknown one, and a folder with bytes
    (32, 2, 21),
    (32, 1, 39),
    // parents: absent, no folder, the file itself, a later one
    (28, 1, 21),
    (51, 4, 44),
    (28, 4, 21),
    (28, 5, 21),
    // names: empty, of an odd length, with an illegal unit
    (35, 0, 34),
    (35, 1, 34),
    (37, 0x1f, 34),
    (37, 0x2f, 34),
    (37, 0x3a, 34),
    (37, 0x5c, 34),
    // a folder with a byte
    (19, 1, 18),
];

/// The image that the table above spoils.
fn right_image(heap: Global) -> Result<Vec<u8>, AllocError> {
    let mut image = Vec::new(heap);
    push_file(&mut image, 2, 0, FOLDER, &[0x46], &[])?;
    push_file(&mut image, 4, 2, TEXT, &[0x41], &[0x68, 0x69])?;
    push_file(&mut image, 5, 0, TEXT, &[0x42], &[])?;
    Ok(image)
}

#[test]
fn one_wrong_byte_is_found(rt: HostRuntime) -> Result<(), Fail> {
    let right = right_image(rt.alloc())?;
    assert_eq!(rt; place(&right), None, "the right image");
    for (at, byte, wrong) in SPOILINGS {
        let mut image = right.clone()?;
        let Some(cell) = image.get_mut(at) else {
            return Err(Fail::new("the table goes past the image"));
        };
        *cell = byte;
        assert_eq!(rt; place(&image), Some(wrong), "byte {at} set to {byte}");
    }
    Ok(())
}

/// The place that is wrong in an image of one file, a text at the root.
fn place_of_file(
    heap: Global,
    number: u32,
    units: &[u16],
    body: &[u8],
) -> Result<Option<usize>, AllocError> {
    let mut image = Vec::new(heap);
    push_file(&mut image, number, 0, TEXT, units, body)?;
    Ok(place(&image))
}

/// The place that is wrong in an image of `count` files of 21 bytes each.
fn place_of_many(heap: Global, count: u32) -> Result<Option<usize>, AllocError> {
    let mut image = Vec::new(heap);
    for number in 1..=count {
        push_file(&mut image, number, 0, TEXT, &[0x41], &[])?;
    }
    Ok(place(&image))
}

#[test]
fn largest_is_accepted(rt: HostRuntime) -> Result<(), Fail> {
    let heap = rt.alloc();
    let units = vec![in heap; 0xffffu16; 63]?;
    let body = vec![in heap; 0u8; 32768]?;
    let place = place_of_file(heap, 0x7fff_fffe, &units, &body)?;
    assert_eq!(rt; place, None);
    assert_eq!(rt; place_of_many(heap, 1024)?, None);
    Ok(())
}

#[test]
fn too_large_is_found(rt: HostRuntime) -> Result<(), Fail> {
    let heap = rt.alloc();
    let units = vec![in heap; 0x20u16; 64]?;
    let body = vec![in heap; 0u8; 32769]?;
    assert_eq!(rt; place_of_file(heap, 0x7fff_ffff, &[0x20], &[])?, Some(0));
    assert_eq!(rt; place_of_file(heap, 1, &units, &[])?, Some(13));
    assert_eq!(rt; place_of_file(heap, 1, &[0x20], &body)?, Some(18));
    assert_eq!(rt; place_of_many(heap, 1025)?, Some(21504));
    Ok(())
}

/// Where the fields of an image of two files of 23 bytes begin.
const STARTS: [usize; 6] = [0, 13, 18, 23, 36, 41];

/// The place that is wrong if that image is cut to `length` bytes: the field that is cut, or the end where one is missing.
fn place_of_cut(length: usize) -> Option<usize> {
    if [0, 23, 46].contains(&length) {
        return None;
    }
    STARTS.iter().copied().rfind(|start| *start <= length)
}

#[test]
fn cut_is_found(rt: HostRuntime) -> Result<(), Fail> {
    let mut image = Vec::new(rt.alloc());
    push_file(&mut image, 1, 0, TEXT, &[0x41], &[0x68, 0x69])?;
    push_file(&mut image, 2, 0, TEXT, &[0x42], &[0x68, 0x6f])?;
    assert_eq!(rt; image.len(), 46);
    for length in 0..=image.len() {
        let front = &image[..length];
        assert_eq!(rt; place(front), place_of_cut(length), "cut to {length} bytes");
    }
    Ok(())
}
