// Points on a program that waits in eight words, at a pace of five: what their held chips do next, and their ranks.
use crate::{Class, class_at, rank_at};
use std::alloc::Global;
use std::test::Fail;
use wb_port::{Kinds, Point};
use wb_rom::Image;
use wb_word::Side;

/// A byte is given back, and the chip waits for it in a loop of eight words.
const EIGHT_WORDS: [u32; 14] = [
    0xC10007, 0x000080, 0, 0, 0, 0, 0, 0, 0, 0x97C008, 0x000091, 0x000016, 0x97C030, 0xA00004,
];

/// The image with these words, and zeros after them.
fn image_of(alloc: Global, words: &[u32]) -> Result<Image, Fail> {
    let mut bytes = Vec::new(alloc);
    for word in words {
        bytes.extend_from_slice(&word.to_le_bytes()[..3])?;
    }
    bytes.resize(8192, 0)?;
    Ok(Image::from_bytes(alloc, &bytes)?)
}

/// Count, PC, whether a request is asked, whether it stands; then the class and the rank. The wait begins at 2,
/// and its test stands at 9; the word at 10 reads DR.
const ROWS: &[(u16, u16, bool, bool, Class, u32)] = &[
    (0, 0, false, false, Class::GoesOn, 7),
    (5, 0, false, false, Class::Overruns, 47),
    (0, 2, true, true, Class::Rests, 55),
    (5, 9, true, true, Class::Rests, 95),
    (3, 2, true, false, Class::GoesOn, 24),
    (3, 9, true, false, Class::GoesOn, 31),
    (3, 10, true, false, Class::Breaches, 31),
    (3, 10, false, false, Class::GoesOn, 31),
    (5, 10, true, true, Class::Overruns, 95),
];

#[test]
fn points_have_their_class_and_rank(rt: HostRuntime) -> Result<(), Fail> {
    let alloc = rt.alloc();
    let image = image_of(alloc, &EIGHT_WORDS)?;
    for (count, pc, asked, rqm, class, rank) in ROWS {
        let point = Point {
            side: Side::A,
            kinds: Kinds::new(alloc),
            count: *count,
            pc: *pc,
            sp: 0,
            stack: [0; 4],
            asked: *asked,
            rqm: *rqm,
            drs: false,
        };
        assert!(rt; *pc < 2048);
        assert_eq!(rt; class_at(&image, 5, &point), *class);
        assert_eq!(rt; rank_at(&image, 5, &point), *rank);
    }
    Ok(())
}
