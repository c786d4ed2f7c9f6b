//! Traces and moves files that were worked by hand.
use crate::{Line, Move, Moved, Moves, MovesFault, Trace, read_moves, trace_text};
use std::alloc::Global;
use std::process::Abort;
use std::test::Fail;
use wb_rom::Image;
use wb_word::{Addr, Rom, Side};

/// Sends back each byte that it is sent.
const ECHO: &[u32] = &[
    0xC10007, 0x000080, 0x97C008, 0x000091, 0x000016, 0x97C014, 0xA00004,
];

/// The same, one instruction later.
const SLOW: &[u32] = &[
    0xC10007, 0x000080, 0x97C008, 0x000091, 0x000000, 0x000016, 0x97C018, 0xA00004,
];

/// Sends back each word that it is sent, in two bytes.
const WIDE: &[u32] = &[0x000080, 0x97C004, 0x000091, 0x000016, 0x97C010, 0xA00000];

/// Sends back each byte that it is sent, but C4 for C3.
const CHANGED: &[u32] = &[
    0xC10007, 0x000080, 0x97C008, 0x000091, 0xC030C2, 0x138010, 0x918020, 0x090000, 0x000016,
    0x97C024, 0xA00004,
];

/// Does nothing, at each address.
const IDLE: &[u32] = &[];

fn image_of(rt: &impl Abort, alloc: Global, words: &[u32]) -> Result<Image, Fail> {
    let mut prog = Rom::zero(alloc)?;
    for (place, word) in words.iter().enumerate() {
        assert!(rt; place < 2048 && *word < 0x100_0000);
        prog.set(place, *word);
    }
    let drom = Rom::zero(alloc)?;
    Ok(Image { prog, drom })
}

/// The text of a moves file on two images.
fn traced(
    rt: &impl Abort,
    alloc: Global,
    sides: (&[u32], &[u32]),
    depth: usize,
    moves: &[u8],
) -> Result<Vec<u8>, Fail> {
    let a = image_of(rt, alloc, sides.0)?;
    let b = image_of(rt, alloc, sides.1)?;
    let moves = read_moves(alloc, moves)?;
    assert!(rt; moves.len() <= 65536 && depth >= 1 && depth <= 256);
    Ok(trace_text(alloc, &a, &b, &moves, depth)?)
}

/// Two programs, the depth of the undo, a moves file and its trace.
type Traced = (
    &'static [u32],
    &'static [u32],
    usize,
    &'static [u8],
    &'static [u8],
);

const TRACES: [Traced; 10] = [
    (
        ECHO,
        SLOW,
        2,
        b"A\nA\nU\nP\nU\nU",
        b"A 000\nA 001\nU\nP A 001 0000 0400 0000 0000\nP B 000 0000 0000 0000 0000\nU\nNOTHING\nDONE\n",
    ),
    (
        ECHO,
        SLOW,
        1,
        b"A\nA\nU\nU\n",
        b"A 000\nA 001\nU\nNOTHING\nDONE\n",
    ),
    (
        ECHO,
        SLOW,
        4,
        b"A\nA\nR\nB\nB\nS\nW 5A\nU\nS\n",
        b"A 000\nA 001\nBUSY B\nB 000\nB 001\nS 84 84\nW 5A\nU\nS 84 84\nDONE\n",
    ),
    (ECHO, ECHO, 1, b"", b"DONE\n"),
    // No side is ready, then B alone, then both; a refused transfer is nothing that can be taken back.
    (
        ECHO,
        ECHO,
        9,
        b"S\nR\nU\nB\nB\nW 01\nA\nA\nR\nR\nU\nR\n",
        b"S 00 00\nBUSY A\nNOTHING\nB 000\nB 001\nBUSY A\nA 000\nA 001\nR 00 00\nBUSY A\nU\nR 00 00\nDONE\n",
    ),
    // Both wait at their polls; the byte comes to A, and SLOW is one instruction behind.
    (
        ECHO,
        SLOW,
        256,
        b"A\nA\nA\nB\nB\nB\nW aF\nA\nA\nA\nB\nB\nB\nR\nB\nR\nP",
        b"A 000\nA 001\nA 002\nB 000\nB 001\nB 002\nW AF\nA 002\nA 003\nA 004\nB 002\nB 003\nB 004\nBUSY B\nB 005\nR AF AF\nP A 005 00AF 0400 00AF 0000\nP B 006 00AF 0400 00AF 0000\nDONE\n",
    ),
    // A word goes in two halves, the low one first. Taking the second back leaves the first.
    (
        WIDE,
        WIDE,
        3,
        b"A\nB\nS\nW 34\nS\nW 12\nS\nU\nP\nU\nP\nU\nU\n",
        b"A 000\nB 000\nS 80 80\nW 34\nS 90 90\nW 12\nS 00 00\nU\nP A 001 0034 9000 0000 0000\nP B 001 0034 9000 0000 0000\nU\nP A 001 0000 8000 0000 0000\nP B 001 0000 8000 0000 0000\nU\nNOTHING\nDONE\n",
    ),
    (
        WIDE,
        WIDE,
        9,
        b"A\nB\nW 34\nW 12\nU\nW 56\nA\nA\nA\nP\nR\nB\nB\nB\nR\nU\nR\nR\n",
        b"A 000\nB 000\nW 34\nW 12\nU\nW 56\nA 001\nA 002\nA 003\nP A 004 5634 8000 5634 0000\nP B 001 5634 0000 0000 0000\nBUSY B\nB 001\nB 002\nB 003\nR 34 34\nU\nR 34 34\nR 56 56\nDONE\n",
    ),
    // The changed program leaves the old one at its instruction 007.
    (
        ECHO,
        CHANGED,
        64,
        b"A\nA\nB\nB\nW C3\nA\nA\nA\nP\nB\nB\nB\nB\nB\nB\nB\nP\nR\nU\nU\nU\nP\nB\nP\n",
        b"A 000\nA 001\nB 000\nB 001\nW C3\nA 002\nA 003\nA 004\nP A 005 00C3 8400 00C3 0000\nP B 002 00C3 0400 0000 0000\nB 002\nB 003\nB 004\nB 005\nB 006\nB 007\nB 008\nP A 005 00C3 8400 00C3 0000\nP B 009 00C4 8400 00C4 0000\nR C3 C4\nU\nU\nU\nP A 005 00C3 8400 00C3 0000\nP B 007 00C3 0400 00C3 0000\nB 007\nP A 005 00C3 8400 00C3 0000\nP B 008 00C3 0400 00C4 0000\nDONE\n",
    ),
    (
        IDLE,
        &[0xA01FFC],
        1,
        b"B\nB\nB\nA",
        b"B 000\nB 7FF\nB 000\nA 000\nDONE\n",
    ),
];

fn expect_traces(rt: &impl Abort, alloc: Global, rows: &[Traced]) -> Result<(), Fail> {
    for (first, second, depth, moves, want) in rows {
        let text = traced(rt, alloc, (first, second), *depth, moves)?;
        assert_eq!(rt; text.as_slice(), *want, "at {moves:?}");
    }
    Ok(())
}

#[test]
fn moves_come_to_their_lines(rt: HostRuntime) -> Result<(), Fail> {
    expect_traces(&rt, rt.alloc(), &TRACES)
}

/// So many times the same line, and then other bytes.
fn repeated(alloc: Global, count: usize, line: &[u8], end: &[u8]) -> Result<Vec<u8>, Fail> {
    let mut text = Vec::new(alloc);
    for _ in 0..count {
        text.extend_from_slice(line)?;
    }
    text.extend_from_slice(end)?;
    Ok(text)
}

/// The trace of 300 steps of side A and as many steps back, of which 256 are kept.
fn taken_back(rt: &impl Abort, alloc: Global) -> Result<Vec<u8>, Fail> {
    let back = repeated(alloc, 300, b"U\n", b"P")?;
    let moves = repeated(alloc, 300, b"A\n", back.as_slice())?;
    traced(rt, alloc, (IDLE, IDLE), 256, moves.as_slice())
}

/// What stands at a place of a text.
fn expect_there(rt: &impl Abort, text: &[u8], from: usize, want: &[u8]) {
    assert!(rt; from <= text.len());
    assert!(rt; text[from..].starts_with(want));
}

#[test]
fn three_hundred_moves_are_taken_back(rt: HostRuntime) -> Result<(), Fail> {
    let text = taken_back(&rt, rt.alloc())?;
    // 256 of them were kept, so side A is where it was after 44 instructions.
    let undone = repeated(rt.alloc(), 256, b"U\n", b"")?;
    let nothing = repeated(rt.alloc(), 44, b"NOTHING\n", SIDES_AFTER)?;
    assert_eq!(rt; text.len(), 300 * 6 + 256 * 2 + 44 * 8 + 61);
    expect_there(&rt, text.as_slice(), 1794, b"A 12B\n");
    expect_there(&rt, text.as_slice(), 1800, undone.as_slice());
    expect_there(&rt, text.as_slice(), 2312, nothing.as_slice());
    Ok(())
}

/// The end of that trace: the sides, and that all is done.
const SIDES_AFTER: &[u8] = b"P A 02C 0000 0000 0000 0000\nP B 000 0000 0000 0000 0000\nDONE\n";

/// The first bad line of a text is this, or there is none and the text has so many moves.
fn expect_end(
    rt: &impl Abort,
    alloc: Global,
    text: &[u8],
    end: Result<usize, u32>,
) -> Result<(), Fail> {
    match read_moves(alloc, text) {
        Ok(moves) => assert_eq!(rt; Ok(moves.len()), end, "moves of {text:?}"),
        Err(MovesFault::BadLine(line)) => assert_eq!(rt; Err(line), end, "bad line of {text:?}"),
        Err(MovesFault::OutOfMemory) => return Err(Fail::from("out of memory")),
    }
    Ok(())
}

/// A text, and how many moves it has, or its first bad line.
type Ended = (&'static [u8], Result<usize, u32>);

const ENDS: [Ended; 31] = [
    (b"", Ok(0)),
    (b"\n", Err(1)),
    (b"A", Ok(1)),
    (b"A\n", Ok(1)),
    (b"A\n\n", Err(2)),
    (b"\nA", Err(1)),
    (b"A\nB\nS\nR\nW 09\nW aF\nU\nP\n", Ok(8)),
    (b"A\nX", Err(2)),
    (b"A\nX\nY\n", Err(2)),
    (b"a", Err(1)),
    (b"b\n", Err(1)),
    (b"A ", Err(1)),
    (b" A", Err(1)),
    (b"A\r\nB", Err(1)),
    (b"A\nB\r", Err(2)),
    (b"A;", Err(1)),
    (b"AA", Err(1)),
    (b"W", Err(1)),
    (b"W ", Err(1)),
    (b"W 4", Err(1)),
    (b"W 123", Err(1)),
    (b"W 4G", Err(1)),
    (b"W G4", Err(1)),
    (b"W  4", Err(1)),
    (b"W\t44", Err(1)),
    (b"w 44", Err(1)),
    (b"W44", Err(1)),
    (b"W 44 ", Err(1)),
    (b"R 44", Err(1)),
    (b"\0", Err(1)),
    (b"U\nP\xFF", Err(2)),
];

fn expect_ends(rt: &impl Abort, alloc: Global, rows: &[Ended]) -> Result<(), Fail> {
    for (text, end) in rows {
        expect_end(rt, alloc, text, *end)?;
    }
    Ok(())
}

#[test]
fn the_first_bad_line_is_named(rt: HostRuntime) -> Result<(), Fail> {
    expect_ends(&rt, rt.alloc(), &ENDS)
}

/// So many moves, other bytes after them, and how many moves that is, or its first bad line.
type Long = (usize, &'static [u8], Result<usize, u32>);

const LONG: [Long; 7] = [
    (65535, b"U", Ok(65536)),
    (65536, b"", Ok(65536)),
    (65536, b"U", Err(65537)),
    (65536, b"X", Err(65537)),
    (65536, b"\n", Err(65537)),
    (65535, b"X\nU", Err(65536)),
    (65537, b"X", Err(65537)),
];

fn expect_long_ends(rt: &impl Abort, alloc: Global, rows: &[Long]) -> Result<(), Fail> {
    for (count, end, want) in rows {
        let text = repeated(alloc, *count, b"A\n", end)?;
        expect_end(rt, alloc, text.as_slice(), *want)?;
    }
    Ok(())
}

#[test]
fn a_moves_file_has_its_most_lines(rt: HostRuntime) -> Result<(), Fail> {
    expect_long_ends(&rt, rt.alloc(), &LONG)
}

/// A line's text.
fn expect_line(rt: &impl Abort, alloc: Global) -> Result<(), Fail> {
    let at = Addr::new(0x7AF).ok_or("no address")?;
    let line = Line {
        mv: Move::StepB,
        moved: Moved::Stepped(Side::B, at),
    };
    assert_eq!(rt; line.to_string(alloc)?.as_str(), "B 7AF");
    Ok(())
}

/// A move that is kept is there.
fn expect_kept(rt: &impl Abort, alloc: Global, kept: Move) -> Result<(), Fail> {
    let mut moves = Moves::new(alloc);
    moves.push(kept)?;
    assert_eq!(rt; moves.len(), 1);
    assert_eq!(rt; moves.at(0), kept);
    Ok(())
}

/// At the beginning there is nothing to take back.
fn expect_nothing(rt: &impl Abort, alloc: Global) -> Result<(), Fail> {
    let image = image_of(rt, alloc, ECHO)?;
    let mut trace = Trace::with_depth(alloc, 1)?;
    assert_eq!(rt; trace.apply(&image, &image, Move::Undo), Moved::Nothing);
    Ok(())
}

#[test]
fn lines_print_their_text(rt: HostRuntime) -> Result<(), Fail> {
    expect_line(&rt, rt.alloc())?;
    expect_kept(&rt, rt.alloc(), Move::Write(0xC3))?;
    expect_nothing(&rt, rt.alloc())
}
