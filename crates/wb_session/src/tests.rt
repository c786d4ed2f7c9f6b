use crate::{Ended, Line, Lines, Transcript, play_script, run_script, transcript_text};
use std::alloc::Global;
use std::process::Abort;
use std::test::Fail;
use wb_rom::Image;
use wb_script::Item::{Read, Status, Step, Wait, Write};
use wb_script::{Item, Script};
use wb_word::Rom;

/// Sends back each byte that it is sent.
const ECHO: &[u32] = &[
    0xC10007, 0x000080, 0x97C008, 0x000091, 0x000016, 0x97C014, 0xA00004,
];

/// Sends back each word that it is sent, in two bytes.
const WIDE: &[u32] = &[0x000080, 0x97C004, 0x000091, 0x000016, 0x97C010, 0xA00000];

fn image_of(rt: &impl Abort, alloc: Global, words: &[u32]) -> Result<Image, Fail> {
    let mut prog = Rom::zero(alloc)?;
    for (place, word) in words.iter().enumerate() {
        assert!(rt; place < 2048 && *word < 0x100_0000);
        prog.set(place, *word);
    }
    let drom = Rom::zero(alloc)?;
    Ok(Image { prog, drom })
}

/// The words of an image, the items of a script, and the text of its transcript.
type Run = (&'static [u32], &'static [Item], &'static [u8]);

const RUNS: [Run; 10] = [
    (
        ECHO,
        &[Wait(10), Status, Write(0x5A), Wait(10), Read],
        b"WAIT 2\nS 84\nW 5A\nWAIT 3\nR 5A\nDONE\n",
    ),
    (ECHO, &[Read], b"EARLY 1\n"),
    (ECHO, &[Status, Write(0x41)], b"S 00\nEARLY 2\n"),
    (ECHO, &[Wait(1)], b"SILENT 1\n"),
    (ECHO, &[Wait(2)], b"WAIT 2\nDONE\n"),
    (ECHO, &[], b"DONE\n"),
    (
        ECHO,
        &[Wait(9), Write(0x41), Wait(9), Write(0x41)],
        b"WAIT 2\nW 41\nWAIT 3\nW 41\nDONE\n",
    ),
    (
        ECHO,
        &[Step(2), Wait(0), Write(0xAF), Step(3), Read, Wait(0)],
        b"STEP 2\nWAIT 0\nW AF\nSTEP 3\nR AF\nSILENT 6\n",
    ),
    (
        ECHO,
        &[
            Step(1),
            Wait(5),
            Status,
            Write(0x5A),
            Step(2),
            Status,
            Wait(9),
            Read,
            Read,
        ],
        b"STEP 1\nWAIT 1\nS 84\nW 5A\nSTEP 2\nS 04\nWAIT 1\nR 5A\nEARLY 9\n",
    ),
    (
        WIDE,
        &[
            Wait(10),
            Status,
            Read,
            Status,
            Write(0x12),
            Wait(10),
            Status,
            Read,
            Read,
        ],
        b"WAIT 1\nS 80\nR 00\nS 90\nW 12\nWAIT 3\nS 80\nR 00\nR 12\nDONE\n",
    ),
];

fn check_runs(rt: &impl Abort, alloc: Global, runs: &[Run]) -> Result<(), Fail> {
    for (words, items, want) in runs {
        let image = image_of(rt, alloc, words)?;
        let script = Script::from_items(items.to_vec(alloc)?);
        assert!(rt; script.len() <= 65536);
        let transcript = run_script(alloc, &image, &script)?;
        let text = transcript_text(alloc, &transcript)?;
        assert_eq!(rt; text.as_slice(), *want, "at {items:?}");
    }
    Ok(())
}

#[test]
fn runs(rt: HostRuntime) -> Result<(), Fail> {
    check_runs(&rt, rt.alloc(), &RUNS)
}

/// The words of an image, one item, and PC and SR after it.
type Left = (&'static [u32], Item, u16, u16);

/// A read without a request leaves DRS alone, and a wait that ends silent has executed its instructions.
const LEFT: [Left; 4] = [
    (WIDE, Read, 0, 0),
    (WIDE, Step(1), 1, 0x8000),
    (ECHO, Wait(1), 1, 0x0400),
    (ECHO, Wait(9), 2, 0x8400),
];

fn check_left(rt: &impl Abort, alloc: Global, left: &[Left]) -> Result<(), Fail> {
    for (words, item, counter, sr) in left {
        let image = image_of(rt, alloc, words)?;
        let script = Script::from_items([*item].to_vec(alloc)?);
        assert!(rt; script.len() <= 65536);
        let session = play_script(alloc, &image, &script)?;
        let regs = session.machine.regs();
        assert_eq!(rt; regs.pc, *counter, "at {item:?}");
        assert_eq!(rt; regs.sr, *sr, "at {item:?}");
    }
    Ok(())
}

#[test]
fn leaves_the_machine(rt: HostRuntime) -> Result<(), Fail> {
    check_left(&rt, rt.alloc(), &LEFT)
}

#[test]
fn keeps_within_a_mebibyte(rt: HostRuntime) -> Result<(), Fail> {
    let mut lines = Lines::new(rt.alloc());
    for _ in 0..65536 {
        lines.push(Line::Waited(65535))?;
    }
    let ended = Ended::Silent(65536);
    let text = transcript_text(rt.alloc(), &Transcript { lines, ended })?;
    assert_eq!(rt; text.len(), 65536 * 11 + 13);
    assert!(rt; text.capacity() < 0x10_0000);
    Ok(())
}
