//! Whole calls: the words, the files and the bytes that are written.
use crate::command;
use std::alloc::Global;
use std::process::Abort;
use std::test::Fail;
use wb_base::{MemShelf, MemSink};

/// From address 0: waits for a byte, and gives it back.
const ECHO: &[[u8; 3]] = &[
    [0x07, 0x00, 0xC1],
    [0x80, 0x00, 0x00],
    [0x08, 0xC0, 0x97],
    [0x91, 0x00, 0x00],
    [0x16, 0x00, 0x00],
    [0x14, 0xC0, 0x97],
    [0x04, 0x00, 0xA0],
];

/// The same with transfers of two bytes each.
const WIDE: &[[u8; 3]] = &[
    [0x80, 0x00, 0x00],
    [0x04, 0xC0, 0x97],
    [0x91, 0x00, 0x00],
    [0x16, 0x00, 0x00],
    [0x10, 0xC0, 0x97],
    [0x00, 0x00, 0xA0],
];

/// As ECHO, with an instruction that does nothing before the byte is given back.
const SLOW: &[[u8; 3]] = &[
    [0x07, 0x00, 0xC1],
    [0x80, 0x00, 0x00],
    [0x08, 0xC0, 0x97],
    [0x91, 0x00, 0x00],
    [0x00, 0x00, 0x00],
    [0x16, 0x00, 0x00],
    [0x18, 0xC0, 0x97],
    [0x04, 0x00, 0xA0],
];

const GREETING: &[u8] = b"WAIT 10\nS\nW 5A\nWAIT 10\nR\n";

const GREETED: &[u8] = b"WAIT 2\nS 84\nW 5A\nWAIT 3\nR 5A\nDONE\n";

/// An image with these words from address 0 on, and 0 elsewhere.
fn image(alloc: Global, words: &[[u8; 3]]) -> Result<Vec<u8>, Fail> {
    let mut bytes = Vec::new(alloc);
    for word in words {
        bytes.extend_from_slice(word)?;
    }
    for _ in bytes.len()..8192 {
        bytes.push(0)?;
    }
    Ok(bytes)
}

/// So many bytes of one value.
fn repeated(alloc: Global, byte: u8, count: usize) -> Result<Vec<u8>, Fail> {
    Ok(vec![in alloc; byte; count]?)
}

/// A shelf with images, a text under `text`, and files of wrong lengths.
fn shelf(alloc: Global, text: &[u8]) -> Result<MemShelf, Fail> {
    let mut shelf = MemShelf::new(alloc);
    shelf.add("echo", &image(alloc, ECHO)?)?;
    shelf.add("slow", &image(alloc, SLOW)?)?;
    shelf.add("wide", &image(alloc, WIDE)?)?;
    shelf.add("text", text)?;
    shelf.add("longer", &repeated(alloc, 0, 8193)?)?;
    shelf.add("shorter", &repeated(alloc, 0, 8191)?)?;
    shelf.add("empty", b"")?;
    Ok(shelf)
}

fn words(alloc: Global, line: &[&str]) -> Result<Vec<String>, Fail> {
    let mut words = Vec::new(alloc);
    for word in line {
        words.push(String::from_str(alloc, word)?)?;
    }
    Ok(words)
}

/// Makes one call on the files and an ample sink, and asks for its exit status and its whole report.
fn check(
    rt: &impl Abort,
    alloc: Global,
    line: &[&str],
    text: &[u8],
    status: u8,
    report: &[u8],
) -> Result<(), Fail> {
    let words = words(alloc, line)?;
    let mut shelf = shelf(alloc, text)?;
    let mut sink = MemSink::with_room(alloc, 4096)?;
    let answer = command(alloc, &words, &mut shelf, &mut sink);
    assert_eq!(rt; answer.number(), status, "{line:?}");
    assert_eq!(rt; sink.taken(), report, "{line:?}");
    Ok(())
}

/// A word, the content of `text`, the status and the report.
type Run = (&'static str, &'static [u8], u8, &'static [u8]);

/// The words of a call, its status and its report.
type Line = (&'static [&'static str], u8, &'static [u8]);

fn check_runs(rt: &impl Abort, alloc: Global, runs: &[Run]) -> Result<(), Fail> {
    for (image, script, status, report) in runs {
        check(rt, alloc, &["run", image, "text"], script, *status, report)?;
    }
    Ok(())
}

fn check_traces(rt: &impl Abort, alloc: Global, traces: &[Run]) -> Result<(), Fail> {
    for (depth, moves, status, report) in traces {
        check(
            rt,
            alloc,
            &["trace", "echo", "slow", "text", depth],
            moves,
            *status,
            report,
        )?;
    }
    Ok(())
}

fn check_sources(rt: &impl Abort, alloc: Global, sources: &[(&[u8], &[u8])]) -> Result<(), Fail> {
    for (source, report) in sources {
        check(rt, alloc, &["asm", "text"], source, 3, report)?;
    }
    Ok(())
}

fn check_bad_words(rt: &impl Abort, alloc: Global, lines: &[&[&str]]) -> Result<(), Fail> {
    for line in lines {
        check(rt, alloc, line, GREETING, 2, b"BAD WORDS\n")?;
    }
    Ok(())
}

fn check_lines(rt: &impl Abort, alloc: Global, lines: &[Line]) -> Result<(), Fail> {
    for (line, status, report) in lines {
        check(rt, alloc, line, GREETING, *status, report)?;
    }
    Ok(())
}

fn check_lengths(
    rt: &impl Abort,
    alloc: Global,
    lines: &[(&[&str], usize, u8, &[u8])],
) -> Result<(), Fail> {
    for (line, length, status, report) in lines {
        let long = repeated(alloc, b'\n', *length)?;
        check(rt, alloc, line, &long, *status, report)?;
    }
    Ok(())
}

/// Comparisons and a demo: equal images, a slower copy, an overrun, a spent budget.
const COMPARISONS: [Line; 6] = [
    (
        &["compare", "echo", "echo", "0", "2"],
        0,
        b"EQUAL 0 2\nPACE KEPT\n",
    ),
    (
        &["compare", "echo", "slow", "2", "4"],
        0,
        b"EQUAL 2 4\nPACE KEPT\n",
    ),
    (
        &["compare", "echo", "echo", "1", "2", "shape=R"],
        0,
        b"EQUAL 1 2\nOVERRUN A\nR 00\nHOLD\n",
    ),
    (
        &["compare", "echo", "wide", "0", "2"],
        1,
        b"DIFFERENT 0 2\nS 84 80\n",
    ),
    (
        &["compare", "echo", "echo", "0", "2", "points=5"],
        5,
        b"UNKNOWN POINTS 5\n",
    ),
    (
        &["demo", "7"],
        0,
        b"DEMO 7\nWORDS 70 102\nEQUAL 4 101\nPACE KEPT\n",
    ),
];

#[test]
fn comparisons(rt: HostRuntime) -> Result<(), Fail> {
    let alloc = rt.alloc();
    check_lines(&rt, alloc, &COMPARISONS)
}

/// Calls of `run`: the image, the script, the status and the report.
const RUNS: [Run; 9] = [
    ("echo", GREETING, 0, GREETED),
    ("echo", b"R\n", 1, b"EARLY 1\n"),
    ("echo", b"", 0, b"DONE\n"),
    ("echo", b"WAIT 1\n", 1, b"SILENT 1\n"),
    (
        "echo",
        b"STEP 2\r\n S ; the status\xFF\r\nREPEAT 1\n\tW 41\nWAIT 9\nEND\nR",
        0,
        b"STEP 2\nS 84\nW 41\nWAIT 3\nR 41\nDONE\n",
    ),
    (
        "wide",
        b"WAIT 10\nS\nR\nS\nW 12\nWAIT 10\nS\nR\nR\n",
        0,
        b"WAIT 1\nS 80\nR 00\nS 90\nW 12\nWAIT 3\nS 80\nR 00\nR 12\nDONE\n",
    ),
    (
        "echo",
        b"STEP 2\r\n S ; the status\xFF\r\n\tw 00",
        3,
        b"LINE 3 SCRIPT\n",
    ),
    ("echo", b"W 4\n", 3, b"LINE 1 SCRIPT\n"),
    ("echo", b"S\nREPEAT 2\nS\n", 3, b"LINE 2 SCRIPT\n"),
];

#[test]
fn runs(rt: HostRuntime) -> Result<(), Fail> {
    check_runs(&rt, rt.alloc(), &RUNS)?;
    Ok(())
}

/// Calls of `trace`: the depth, the moves, the status and the report.
const TRACES: [Run; 6] = [
    (
        "2",
        b"A\nA\nU\nP\nU\nU\n",
        0,
        b"A 000\nA 001\nU\nP A 001 0000 0400 0000 0000\nP B 000 0000 0000 0000 0000\nU\nNOTHING\nDONE\n",
    ),
    ("1", b"A\nA\nU\nU\n", 0, b"A 000\nA 001\nU\nNOTHING\nDONE\n"),
    (
        "0004",
        b"A\nA\nR\nB\nB\nS\nW 5A\nU\nS",
        0,
        b"A 000\nA 001\nBUSY B\nB 000\nB 001\nS 84 84\nW 5A\nU\nS 84 84\nDONE\n",
    ),
    ("256", b"A\nX\n", 3, b"LINE 2 MOVES\n"),
    ("257", b"A\n", 2, b"BAD WORDS\n"),
    ("00000000000000000001", b"", 0, b"DONE\n"),
];

#[test]
fn traces(rt: HostRuntime) -> Result<(), Fail> {
    check_traces(&rt, rt.alloc(), &TRACES)?;
    Ok(())
}

/// Sources that are refused, and the reports.
const SOURCES: [(&[u8], &[u8]); 8] = [
    (b"nop\nld a,%", b"LINE 2 BYTE 6\n"),
    (b"ld a,4294967296", b"LINE 1 WIDE\n"),
    (b"nop nop", b"LINE 1 SYNTAX\n"),
    (b"x: .equ x,5", b"LINE 1 TWICE\n"),
    (b"jmp nowhere", b"LINE 1 UNKNOWN\n"),
    (b"jmp 2048", b"LINE 1 RANGE\n"),
    (b".org 5\nnop\n.org 5\nnop\n", b"LINE 4 OVERLAP\n"),
    (b".org 2047\nnop\nnop\n", b"LINE 3 PAST\n"),
];

#[test]
fn sources(rt: HostRuntime) -> Result<(), Fail> {
    let alloc = rt.alloc();
    check_sources(&rt, alloc, &SOURCES)?;
    let source = b"jmp there\nnop\nthere: ld a,0x1234\n";
    let mut sink = MemSink::with_room(alloc, 10_000)?;
    let answer = command(
        alloc,
        &words(alloc, &["asm", "text"])?,
        &mut shelf(alloc, source)?,
        &mut sink,
    );
    assert_eq!(rt; answer.number(), 0);
    let words = [[0x08, 0x00, 0xA0], [0, 0, 0], [0x01, 0x8D, 0xC4]];
    assert!(rt; sink.taken() == image(alloc, &words)?.as_slice());
    Ok(())
}

/// A listing has a line for each of 2048 program words and 1024 data words.
#[test]
fn listing(rt: HostRuntime) -> Result<(), Fail> {
    let alloc = rt.alloc();
    let mut sink = MemSink::with_room(alloc, 200_000)?;
    let answer = command(
        alloc,
        &words(alloc, &["dis", "echo"])?,
        &mut shelf(alloc, b"")?,
        &mut sink,
    );
    assert_eq!(rt; answer.number(), 0);
    let text = sink.taken();
    let lines = text.iter().filter(|byte| **byte == b'\n').count();
    assert_eq!(rt; lines, 3072);
    let front =
        b"ld sr,0x0400  ; 000 C10007\nop mov non,dr  ; 001 000080\njrqm 0x002  ; 002 97C008\n";
    assert!(rt; text.starts_with(front));
    assert!(rt; text.ends_with(b".dw 0x0000  ; 3FF\n"));
    Ok(())
}

/// Words without a plan.
const BAD_WORDS: [&[&str]; 27] = [
    &[],
    &["run", "a"],
    &["compare", "a", "b", "17", "4"],
    &["compare", "a", "b", "2", "0"],
    &["compare", "a", "b", "2", "4", "shape=R"],
    &["compare", "a", "b", "2", "4", "points=9", "points=9"],
    &["compare", "a", "b", "2", "4", "speed=1"],
    &["compare", "echo", "", "2", "4"],
    &["compare", "echo", "slow", "2"],
    &["demo"],
    &["demo", "18446744073709551616"],
    &["demo", "7", "power=any"],
    &["run", "echo", ""],
    &["run", "", "text"],
    &["run", "echo", "text", "text"],
    &["RUN", "echo", "text"],
    &["", "echo", "text"],
    &["--help"],
    &["asm"],
    &["asm", ""],
    &["dis"],
    &["dis", ""],
    &["dis", "echo", "echo"],
    &["trace", "echo", "slow", "text"],
    &["trace", "echo", "slow", "text", "0"],
    &["trace", "echo", "slow", "text", "+1"],
    &["trace", "echo", "slow", "text", "000000000000000000001"],
];

/// Lines that have no plan.
#[test]
fn bad_words(rt: HostRuntime) -> Result<(), Fail> {
    check_bad_words(&rt, rt.alloc(), &BAD_WORDS)?;
    Ok(())
}

/// Words, the status and the report.
const BAD_FILES: [Line; 12] = [
    (&["run", "shorter", "text"], 3, b"IMAGE 1 LENGTH 8191\n"),
    (&["run", "longer", "text"], 3, b"IMAGE 1 LENGTH 8193\n"),
    (&["run", "empty", "text"], 3, b"IMAGE 1 LENGTH 0\n"),
    (&["run", "echo", "missing"], 6, b"READ FAULT 2\n"),
    (&["run", "missing", "missing"], 6, b"READ FAULT 1\n"),
    (&["run", "empty", "missing"], 6, b"READ FAULT 2\n"),
    (&["dis", "longer"], 3, b"IMAGE 1 LENGTH 8193\n"),
    (
        &["compare", "echo", "shorter", "2", "4"],
        3,
        b"IMAGE 2 LENGTH 8191\n",
    ),
    (
        &["compare", "missing", "longer", "2", "4", "power=any"],
        6,
        b"READ FAULT 1\n",
    ),
    (
        &["trace", "echo", "shorter", "text", "1"],
        3,
        b"IMAGE 2 LENGTH 8191\n",
    ),
    (
        &["trace", "echo", "echo", "text", "1"],
        3,
        b"LINE 1 MOVES\n",
    ),
    (
        &["trace", "shorter", "echo", "missing", "1"],
        6,
        b"READ FAULT 3\n",
    ),
];

#[test]
fn bad_files(rt: HostRuntime) -> Result<(), Fail> {
    check_lines(&rt, rt.alloc(), &BAD_FILES)?;
    Ok(())
}

/// Words, the length of `text`, the status and the report.
const LONG_FILES: [(&[&str], usize, u8, &[u8]); 4] = [
    (&["run", "echo", "text"], 1_048_575, 0, b"DONE\n"),
    (&["run", "echo", "text"], 1_048_576, 0, b"DONE\n"),
    (&["run", "echo", "text"], 1_048_577, 3, b"FILE 2 TOO LONG\n"),
    (
        &["run", "text", "missing"],
        1_048_577,
        3,
        b"FILE 1 TOO LONG\n",
    ),
];

/// A file of the limit is read, and one byte more is too long.
#[test]
fn long_files(rt: HostRuntime) -> Result<(), Fail> {
    let alloc = rt.alloc();
    check_lengths(&rt, alloc, &LONG_FILES)?;
    Ok(())
}

/// Each read fails in turn, until a call has none that fails.
#[test]
fn failing_reads(rt: HostRuntime) -> Result<(), Fail> {
    let alloc = rt.alloc();
    let words = words(alloc, &["run", "echo", "text"])?;
    for call in 1..20 {
        let mut shelf = shelf(alloc, GREETING)?;
        shelf.fail_call(call)?;
        let mut sink = MemSink::with_room(alloc, 64)?;
        // Two reads give the image and a third meets its end; one gives the script and one meets its end.
        let (status, report): (u8, &[u8]) = match call {
            1..=3 => (6, b"READ FAULT 1\n"),
            4..=5 => (6, b"READ FAULT 2\n"),
            _ => (0, GREETED),
        };
        let answer = command(alloc, &words, &mut shelf, &mut sink);
        assert_eq!(rt; answer.number(), status, "call {call}");
        assert_eq!(rt; sink.taken(), report, "call {call}");
    }
    Ok(())
}

/// Puts that fail: what was taken before is the front of the report.
#[test]
fn failing_puts(rt: HostRuntime) -> Result<(), Fail> {
    let alloc = rt.alloc();
    let run = words(alloc, &["run", "echo", "text"])?;
    for call in 1..36 {
        let mut shelf = shelf(alloc, GREETING)?;
        let mut sink = MemSink::with_room(alloc, 64)?;
        sink.at_most(1);
        sink.fail_call(call)?;
        let status = if call == 35 { 0 } else { 7 };
        let answer = command(alloc, &run, &mut shelf, &mut sink);
        assert_eq!(rt; answer.number(), status, "put {call}");
        assert_eq!(rt; sink.taken().len() as u64, call - 1, "put {call}");
        assert!(rt; GREETED.starts_with(sink.taken()), "put {call}");
    }
    let mut sink = MemSink::with_room(alloc, 0)?;
    let answer = command(
        alloc,
        &words(alloc, &["run"])?,
        &mut shelf(alloc, b"")?,
        &mut sink,
    );
    assert_eq!(rt; answer.number(), 7, "no room for a refusal");
    Ok(())
}
