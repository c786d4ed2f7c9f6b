use std::alloc::Global;
use std::process::Abort;
use std::test::Fail;
use wb_gen::make_pair;
use wb_port::{Access, Dialogue, Side, points_passed};
use wb_rom::Image;
use wb_word::Addr;

/// A number, its first four body words and its last one.
type Row = (u64, [u32; 4], u32);

// Computed from the rule of the draws alone.
const ROWS: [Row; 2] = [
    (7, [0x18002A, 0x1A8010, 0x1A8030, 0x1780EE], 0x120070),
    (8, [0x1C8010, 0x1380E0, 0x130073, 0x128051], 0x1E00ED),
];

fn word_at(image: &Image, at: u16) -> u32 {
    match Addr::new(at) {
        Some(place) => image.word_at(place).value(),
        None => 0,
    }
}

/// Whether the image has these words from an address on.
fn has_words(image: &Image, at: u16, words: &[u32]) -> bool {
    let mut here = at;
    for word in words {
        if word_at(image, here) != *word {
            return false;
        }
        here = here.wrapping_add(1);
    }
    true
}

/// How many points the held run passes that writes, reads, writes and reads.
fn count_points(alloc: Global, image: &Image, side: Side) -> Result<usize, Fail> {
    let mut talk = Dialogue::new(alloc);
    for byte in [0x5A, 0xA5] {
        talk.push(Access::Write(byte))?;
        talk.push(Access::Read)?;
    }
    let points = points_passed(alloc, image, side, &talk, 101)?;
    Ok(points.len())
}

#[test]
fn pairs_have_the_words_of_their_numbers(rt: HostRuntime) -> Result<(), Fail> {
    let alloc = rt.alloc();
    for (number, body, last) in ROWS {
        let (first, second) = make_pair(alloc, number)?;
        let [a, b, c, d] = body;
        for image in [&first, &second] {
            assert!(rt; has_words(image, 0, &[0xC10007, 0x000026, 0x97C008, 0x000091]));
        }
        assert!(rt; has_words(&first, 4, &[a, b, c, d]));
        assert!(rt; has_words(&first, 67, &[last, 0x138010, 0xA00004, 0]));
        assert!(rt; has_words(&second, 4, &[a, 0, b, c, 0, d]));
        assert!(rt; has_words(&second, 98, &[0, last, 0x138010, 0xA00004, 0]));
    }
    Ok(())
}

#[test]
fn four_transfers_pass_all_points(rt: HostRuntime) -> Result<(), Fail> {
    let alloc = rt.alloc();
    let (first, second) = make_pair(alloc, 7)?;
    assert_eq!(rt; count_points(alloc, &first, Side::A)?, 283);
    assert_eq!(rt; count_points(alloc, &second, Side::B)?, 411);
    Ok(())
}
