//! Whether stores are told apart by what they hold, and by nothing else.
use compare::contents::same_contents;
use image::image_store::ImageStore;
use std::process::Abort;

/// An image of one text: its number, the one unit of its name, and its two bytes.
fn short_image(number: u8, unit: u8, bytes: [u8; 2]) -> [u8; 23] {
    [
        1, 10, 0, number, 0, 0, 0, 0, 0, 0, 0, 4, 0x30, 2, 2, 0, unit, 0, 3, 2, 0, bytes[0],
        bytes[1],
    ]
}

/// An image of one text of 130 bytes, the last of which is given.
fn long_image(last: u8) -> [u8; 151] {
    let mut image = [0; 151];
    image[0..23].copy_from_slice(&short_image(3, 0x41, [0, 0]));
    image[19] = 130;
    image[150] = last;
    image
}

/// Whether two images, which must be accepted, hold the same.
fn same(rt: &impl Abort, a: &[u8], b: &[u8]) -> bool {
    let a = ImageStore::try_open(a).expect(rt, "the first is an image");
    let b = ImageStore::try_open(b).expect(rt, "the second is an image");
    same_contents(&a, &b)
}

#[test]
fn stores_that_hold_the_same_are_the_same(rt: HostRuntime) {
    assert!(rt; same(&rt, &[], &[]));
    assert!(rt;
        same(
            &rt,
            &short_image(3, 0x41, [1, 2]),
            &short_image(3, 0x41, [1, 2])
        )
    );
    assert!(rt; same(&rt, &long_image(7), &long_image(7)));
}

#[test]
fn stores_that_differ_are_told_apart(rt: HostRuntime) {
    let image = short_image(3, 0x41, [1, 2]);
    assert!(rt; !same(&rt, &image, &[]));
    assert!(rt; !same(&rt, &image, &short_image(4, 0x41, [1, 2])));
    assert!(rt; !same(&rt, &image, &short_image(3, 0x42, [1, 2])));
    assert!(rt; !same(&rt, &image, &short_image(3, 0x41, [1, 3])));
    assert!(rt; !same(&rt, &image, &long_image(7)));
    assert!(rt; !same(&rt, &long_image(6), &long_image(7)));
}
