//! Verdicts and their texts, worked by hand.
ghost use Rattle.std.specs.Prelude.{◌≡◌};

use crate::verdict_text;
use std::alloc::Global;
use std::process::Abort;
use std::test::Fail;
use wb_compare::{Pace, Question, Spent, Verdict};
use wb_explore::{Budget, Reached};
use wb_port::{Access, Dialogue, Letter, Power, Shape};
use wb_rom::Image;
use wb_word::{Addr, Rom, Side};

/// Sends back each byte that it is sent.
const ECHO: &[u32] = &[
    0xC10007, 0x000080, 0x97C008, 0x000091, 0x000016, 0x97C014, 0xA00004,
];

/// Sends back each byte that it is sent, but C4 for C3.
const CHANGED: &[u32] = &[
    0xC10007, 0x000080, 0x97C008, 0x000091, 0xC030C2, 0x138010, 0x918020, 0x090000, 0x000016,
    0x97C024, 0xA00004,
];

/// Has another bit of the status register set.
const FLAG: &[u32] = &[
    0xC90007, 0x000080, 0x97C008, 0x000091, 0x000016, 0x97C014, 0xA00004,
];

/// Takes the byte before its loop waits for it.
const PEEK: &[u32] = &[
    0xC10007, 0x000080, 0x000091, 0x97C00C, 0x000016, 0x97C014, 0xA00004,
];

fn image_of(rt: &impl Abort, alloc: Global, words: &[u32]) -> Result<Image, Fail> {
    let mut prog = Rom::zero(alloc)?;
    for (place, word) in words.iter().enumerate() {
        assert!(rt; place < 2048 && *word < 0x100_0000);
        prog.set(place, *word);
    }
    let drom = Rom::zero(alloc)?;
    Ok(Image { prog, drom })
}

/// A dialogue of these accesses, with these words in its start.
fn dialogue_of(alloc: Global, start: &[(u8, u16)], accesses: &[Access]) -> Result<Dialogue, Fail> {
    let mut cells = [0u16; 256];
    for (at, word) in start {
        cells[usize::from(*at)] = *word;
    }
    let mut talk = Dialogue::new(alloc);
    talk.set_start(&cells);
    for access in accesses {
        talk.push(*access)?;
    }
    Ok(talk)
}

fn question_of(n: u8, k: u16) -> Question
    ensures { result.k ≡ k }
{
    Question {
        n,
        k,
        shape: Shape::of(&[Letter::X; 16]),
        power: Power::Any,
        budget: Budget {
            points: 4096,
            conflicts: 18_446_744_073_709_551_615,
        },
    }
}

/// Which verdict a dialogue shows.
#[derive(Clone, Copy)]
enum Shows {
    Overrun(Side),
    Difference,
    Breach(Side, u16),
}

fn verdict_of(rt: &impl Abort, shows: Shows, talk: Dialogue) -> Verdict {
    match shows {
        Shows::Overrun(side) => Verdict::Equal(Pace::Overrun(side, talk)),
        Shows::Difference => Verdict::Different(talk),
        Shows::Breach(side, at) => {
            assert!(rt; at < 2048);
            Verdict::Breach(side, talk, Addr { value: at })
        }
    }
}

/// The program on side B; the most transfers and the pace; what is shown, by which start and accesses; the text.
type Shown = (
    &'static [u32],
    u8,
    u16,
    Shows,
    &'static [(u8, u16)],
    &'static [Access],
    &'static [u8],
);

const SHOWN: [Shown; 8] = [
    (
        ECHO,
        0,
        1,
        Shows::Overrun(Side::A),
        &[],
        &[],
        b"EQUAL 0 1\nOVERRUN A\nHOLD\n",
    ),
    (
        ECHO,
        1,
        2,
        Shows::Overrun(Side::A),
        &[],
        &[Access::Read],
        b"EQUAL 1 2\nOVERRUN A\nR 00\nHOLD\n",
    ),
    // The run ends before the read is given.
    (
        ECHO,
        2,
        2,
        Shows::Overrun(Side::B),
        &[(0, 1), (255, 0xABCD)],
        &[Access::Write(0x5A), Access::Read],
        b"EQUAL 2 2\nOVERRUN B\nM 00 0001\nM FF ABCD\nW 5A\nR\nHOLD\n",
    ),
    (
        CHANGED,
        2,
        7,
        Shows::Difference,
        &[],
        &[Access::Write(0xC3), Access::Read],
        b"DIFFERENT 2 7\nW C3\nR C3 C4\n",
    ),
    (
        CHANGED,
        16,
        8191,
        Shows::Difference,
        &[(0x1F, 0x0E0F)],
        &[Access::Write(0xC3), Access::Read],
        b"DIFFERENT 16 8191\nM 1F 0E0F\nW C3\nR C3 C4\n",
    ),
    (
        FLAG,
        0,
        2,
        Shows::Difference,
        &[],
        &[Access::Status],
        b"DIFFERENT 0 2\nS 84 A4\n",
    ),
    (
        PEEK,
        0,
        3,
        Shows::Breach(Side::B, 2),
        &[],
        &[],
        b"BREACH B 002\nHOLD\n",
    ),
    (
        ECHO,
        0,
        3,
        Shows::Breach(Side::A, 0x7AB),
        &[],
        &[],
        b"BREACH A 7AB\nHOLD\n",
    ),
];

fn check_shown(rt: &impl Abort, alloc: Global, cases: &[Shown]) -> Result<(), Fail> {
    for (program, n, k, shows, start, accesses, text) in cases {
        let a = image_of(rt, alloc, ECHO)?;
        let b = image_of(rt, alloc, program)?;
        let talk = dialogue_of(alloc, start, accesses)?;
        let verdict = verdict_of(rt, *shows, talk);
        assert!(rt; *k >= 1);
        let printed = verdict_text(alloc, &a, &b, &question_of(*n, *k), &verdict)?;
        assert_eq!(rt; printed.as_slice(), *text);
    }
    Ok(())
}

/// Each verdict that a dialogue shows.
#[test]
fn shown_verdicts(rt: HostRuntime) -> Result<(), Fail> {
    check_shown(&rt, rt.alloc(), &SHOWN)?;
    Ok(())
}

/// The verdicts without a dialogue.
#[test]
fn verdicts_alone(rt: HostRuntime) -> Result<(), Fail> {
    let alloc = rt.alloc();
    let a = image_of(&rt, alloc, ECHO)?;
    let question = question_of(0, 2);
    let kept = verdict_text(alloc, &a, &a, &question, &Verdict::Equal(Pace::Kept))?;
    assert_eq!(rt; kept.as_slice(), b"EQUAL 0 2\nPACE KEPT\n".as_slice());
    let spent = Verdict::Unknown(Spent::Points(Reached::new(alloc)));
    let points = verdict_text(alloc, &a, &a, &question, &spent)?;
    assert_eq!(rt; points.as_slice(), b"UNKNOWN POINTS 4096\n".as_slice());
    Ok(())
}
