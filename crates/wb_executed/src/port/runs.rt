// Runs at the ends of ranges: addresses, paces, lengths.
use super::{ECHO, S, Want, image_of, is_wanted};
use std::alloc::Global;
use std::test::Fail;
use wb_port::{Dialogue, Run, replay};
use wb_rom::Image;

/// A program that raises a request by its first and by its last word, and does nothing between.
fn ends_of_memory(alloc: Global) -> Result<Image, Fail> {
    let mut words = Vec::new(alloc);
    words.push(0x000080)?;
    words.resize(2047, 0)?;
    words.push(0x000080)?;
    image_of(alloc, &words)
}

#[test]
fn runs_come_to_the_ends_of_their_ranges(rt: HostRuntime) -> Result<(), Fail> {
    let alloc = rt.alloc();
    let ends = ends_of_memory(alloc)?;
    let nothing = image_of(alloc, &[])?;
    let none = Dialogue::new(alloc);
    // 2046 words come after the request before its word at 7FF.
    let breach = replay(alloc, &ends, &none, 2047, true)?;
    assert!(rt; is_wanted(&breach, &Want::Breach(0x7FF)));
    let overrun = replay(alloc, &ends, &none, 2046, true)?;
    assert!(rt; is_wanted(&overrun, &Want::Overrun));
    let longest = replay(alloc, &nothing, &none, 65535, true)?;
    assert!(rt; is_wanted(&longest, &Want::Overrun));
    Ok(())
}

#[test]
fn long_dialogues_are_answered(rt: HostRuntime) -> Result<(), Fail> {
    let alloc = rt.alloc();
    let image = image_of(alloc, ECHO)?;
    let mut pushed = Dialogue::new(alloc);
    let mut accesses = Vec::new(alloc);
    let mut bytes = Vec::new(alloc);
    for _ in 0..5000 {
        pushed.push(S)?;
        accesses.push(S)?;
        bytes.push(0x84)?;
    }
    let made = Dialogue::from_vec(accesses);
    for talk in [&pushed, &made] {
        let run = replay(alloc, &image, talk, 2, true)?;
        let replies = match &run {
            Run::Answered(replies) => replies.bytes(),
            _ => &[],
        };
        assert_eq!(rt; replies, bytes.as_slice());
    }
    Ok(())
}
