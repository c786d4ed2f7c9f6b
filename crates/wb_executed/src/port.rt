mod points;
mod runs;

use std::alloc::Global;
use std::process::Abort;
use std::test::Fail;
use wb_port::{
    Access, Chip, Dialogue, Event, Letter, Run, Shape, Side, follow, is_poll, points_passed,
    replay, requested, to_gate,
};
use wb_rom::Image;
use wb_word::Addr;

const ECHO: &[u32] = &[
    0xC10007, 0x000080, 0x97C008, 0x000091, 0x000016, 0x97C014, 0xA00004,
];

const SLOW: &[u32] = &[
    0xC10007, 0x000080, 0x97C008, 0x000091, 0x000000, 0x000016, 0x97C018, 0xA00004,
];

const C3: &[u32] = &[
    0xC10007, 0x000080, 0x97C008, 0x000091, 0xC030C2, 0x138010, 0x918020, 0x090000, 0x000016,
    0x97C024, 0xA00004,
];

const WORK: &[u32] = &[
    0xC10007, 0x000080, 0x098000, 0x098000, 0x098000, 0x97C014, 0x000091, 0x000016, 0x97C020,
    0xA00004,
];

const PEEK: &[u32] = &[
    0xC10007, 0x000080, 0x000091, 0x97C00C, 0x000016, 0x97C014, 0xA00004,
];

const FLAG: &[u32] = &[
    0xC90007, 0x000080, 0x97C008, 0x000091, 0x000016, 0x97C014, 0xA00004,
];

const WIDE: &[u32] = &[0x000080, 0x97C004, 0x000091, 0x000016, 0x97C010, 0xA00000];

const LOOP: &[u32] = &[
    0xC10007, 0x000080, 0x978010, 0xA00008, 0x000091, 0x000016, 0x97C018, 0xA00004,
];

const LOOPN: &[u32] = &[
    0xC10007, 0x000080, 0x000000, 0x97C008, 0x000091, 0x000016, 0x97C018, 0xA00004,
];

const EIGHT: &[u32] = &[0xC10007, 0x000080, 0, 0, 0, 0, 0, 0, 0, 0x97C008];

const NINE: &[u32] = &[0xC10007, 0x000080, 0, 0, 0, 0, 0, 0, 0, 0, 0x97C008];

const TWO_TESTS: &[u32] = &[0xC10007, 0x000080, 0x97800C, 0x97C008];

const MEMORY: &[u32] = &[0xC10007, 0x0000F6, 0x97C008, 0xA00004];

const W5A: Access = Access::Write(0x5A);

const R: Access = Access::Read;

const S: Access = Access::Status;

/// How a run of the table ends.
enum Want {
    Answered(&'static [u8]),
    Overrun,
    Breach(u16),
}

/// A run: the words of the image, the accesses, the pace, whether it is held, and its end.
type Case = (&'static [u32], &'static [Access], u16, bool, Want);

const CASES: [Case; 22] = [
    (ECHO, &[], 2, true, Want::Answered(&[])),
    (ECHO, &[], 1, true, Want::Overrun),
    (ECHO, &[], 1, false, Want::Answered(&[])),
    (ECHO, &[R], 2, true, Want::Overrun),
    (ECHO, &[R], 2, false, Want::Answered(&[0x00])),
    (ECHO, &[R], 3, true, Want::Answered(&[0x00])),
    (ECHO, &[W5A, R], 4, true, Want::Answered(&[0x5A])),
    (SLOW, &[W5A, R], 4, true, Want::Answered(&[0x5A])),
    (SLOW, &[W5A, R], 3, false, Want::Overrun),
    (
        ECHO,
        &[Access::Write(0xC3), R],
        7,
        false,
        Want::Answered(&[0xC3]),
    ),
    (
        C3,
        &[Access::Write(0xC3), R],
        7,
        false,
        Want::Answered(&[0xC4]),
    ),
    (C3, &[W5A, R], 7, false, Want::Answered(&[0x5A])),
    (WORK, &[W5A, R], 6, true, Want::Answered(&[0x5A])),
    (PEEK, &[], 3, true, Want::Breach(0x002)),
    (PEEK, &[], 3, false, Want::Answered(&[])),
    (ECHO, &[S], 2, false, Want::Answered(&[0x84])),
    (FLAG, &[S], 2, false, Want::Answered(&[0xA4])),
    (NINE, &[], 9, true, Want::Breach(0x00A)),
    (NINE, &[], 8, true, Want::Overrun),
    (EIGHT, &[], 2, true, Want::Answered(&[])),
    (TWO_TESTS, &[], 9, true, Want::Breach(0x002)),
    (
        WIDE,
        &[S, R, S, Access::Write(0x12), S, R, R],
        3,
        true,
        Want::Answered(&[0x80, 0x00, 0x90, 0x80, 0x00, 0x12]),
    ),
];

/// The image with these words, and zeros after them.
pub fn image_of(alloc: Global, words: &[u32]) -> Result<Image, Fail> {
    let mut bytes = Vec::new(alloc);
    for word in words {
        bytes.extend_from_slice(&word.to_le_bytes()[..3])?;
    }
    bytes.resize(8192, 0)?;
    Ok(Image::from_bytes(alloc, &bytes)?)
}

fn dialogue_of(alloc: Global, accesses: &[Access]) -> Result<Dialogue, Fail> {
    let mut talk = Dialogue::new(alloc);
    for access in accesses {
        talk.push(*access)?;
    }
    Ok(talk)
}

fn address(value: u16) -> Result<Addr, Fail> {
    Ok(Addr::new(value).ok_or("an address out of range")?)
}

fn is_wanted(run: &Run, want: &Want) -> bool {
    match (run, want) {
        (Run::Answered(replies), Want::Answered(bytes)) => replies.bytes() == *bytes,
        (Run::Overrun, Want::Overrun) => true,
        (Run::Breach(at), Want::Breach(value)) => at.value == *value,
        _ => false,
    }
}

/// Executes so many instructions.
fn step(chip: &mut Chip, image: &Image, count: u32) {
    for _ in 0..count {
        chip.apply(image, Event::Step);
    }
}

/// Each run of a table ends as the table says.
fn check_runs(rt: &impl Abort, alloc: Global, cases: &[Case]) -> Result<(), Fail> {
    for (words, accesses, pace, held, want) in cases {
        let image = image_of(alloc, words)?;
        let talk = dialogue_of(alloc, accesses)?;
        assert!(rt; *pace >= 1);
        let run = replay(alloc, &image, &talk, *pace, *held)?;
        assert!(rt; is_wanted(&run, want));
    }
    Ok(())
}

/// An image, an address, and whether it is a poll there.
type Place = (&'static [u32], u16, bool);

const PLACES: [Place; 9] = [
    (ECHO, 1, false),
    (ECHO, 2, true),
    (ECHO, 6, false),
    (LOOP, 3, true),
    (LOOPN, 2, true),
    (EIGHT, 2, true),
    (NINE, 2, false),
    (NINE, 10, false),
    (TWO_TESTS, 2, false),
];

/// Each address of a table is a poll where the table says so.
fn check_polls(rt: &impl Abort, alloc: Global, places: &[Place]) -> Result<(), Fail> {
    for (words, at, poll) in places {
        let image = image_of(alloc, words)?;
        assert_eq!(rt; is_poll(&image, address(*at)?), *poll);
    }
    Ok(())
}

/// The run of a read from a RAM whose first word is 12C3.
fn started_run(alloc: Global, image: &Image) -> Result<Run, Fail> {
    let mut talk = dialogue_of(alloc, &[R])?;
    let mut cells = [0; 256];
    cells[0] = 0x12C3;
    talk.set_start(&cells);
    Ok(replay(alloc, image, &talk, 3, true)?)
}

#[test]
fn runs_end_as_the_table_says(rt: HostRuntime) -> Result<(), Fail> {
    check_runs(&rt, rt.alloc(), &CASES)
}

#[test]
fn polls_are_those_of_the_table(rt: HostRuntime) -> Result<(), Fail> {
    check_polls(&rt, rt.alloc(), &PLACES)
}

#[test]
fn a_schedule_with_work_before_the_poll(rt: HostRuntime) -> Result<(), Fail> {
    let image = image_of(rt.alloc(), WORK)?;
    let mut chip = Chip::reset();
    // Three instructions come to the first of three words of work, and five more to the next request.
    step(&mut chip, &image, 3);
    assert_eq!(rt; chip.monitor.count, 1);
    assert_eq!(rt; chip.apply(&image, Event::Host(W5A)), None);
    step(&mut chip, &image, 5);
    assert_eq!(rt; chip.copy().monitor.count, 0);
    assert_eq!(rt; chip.apply(&image, Event::Host(R)), Some(0x5A));
    Ok(())
}

#[test]
fn the_first_breach_is_kept(rt: HostRuntime) -> Result<(), Fail> {
    let image = image_of(rt.alloc(), PEEK)?;
    let mut chip = Chip::reset();
    step(&mut chip, &image, 4);
    assert_eq!(rt; chip.monitor.breach, Some(address(2)?));
    Ok(())
}

#[test]
fn a_full_count_stays(rt: HostRuntime) -> Result<(), Fail> {
    let image = image_of(rt.alloc(), ECHO)?;
    let mut chip = Chip::reset();
    chip.monitor.count = u64::MAX;
    chip.apply(&image, Event::Step);
    assert_eq!(rt; chip.monitor.count, u64::MAX);
    Ok(())
}

#[test]
fn an_eight_word_loop_is_followed(rt: HostRuntime) -> Result<(), Fail> {
    let image = image_of(rt.alloc(), EIGHT)?;
    let at = address(2)?;
    assert!(rt; is_poll(&image, at));
    assert_eq!(rt; to_gate(&image, at), 7);
    assert_eq!(rt; follow(&image, address(1)?), None);
    Ok(())
}

#[test]
fn a_start_shows_in_the_replies(rt: HostRuntime) -> Result<(), Fail> {
    let alloc = rt.alloc();
    let image = image_of(alloc, MEMORY)?;
    let run = started_run(alloc, &image)?;
    assert!(rt; is_wanted(&run, &Want::Answered(&[0xC3])));
    Ok(())
}

#[test]
fn shapes_keep_their_letters(rt: HostRuntime) -> Result<(), Fail> {
    let letters = [Letter::W, Letter::R, Letter::X, Letter::X].repeat(rt.alloc(), 4)?;
    assert!(rt; letters.len() == 16);
    let shape = Shape::from_letters(&letters)?;
    assert_eq!(rt; shape.len(), 16);
    assert_eq!(rt; shape.letter_at(0), Letter::W);
    assert_eq!(rt; shape.letter_at(13), Letter::R);
    assert_eq!(rt; shape.at(15), Letter::X);
    Ok(())
}
