//! Scripts that were written by hand, and what they mean.
use crate::{Item, Script, ScriptFault, each_text_has_one_answer, read_script};
use std::alloc::Global;
use std::process::Abort;
use std::test::Fail;

// The items of a text are these.
fn expect_items(rt: &impl Abort, alloc: Global, text: &[u8], items: &[Item]) -> Result<(), Fail> {
    assert!(rt; text.len() <= 1_048_576);
    let script = read_script(alloc, text)?;
    assert_eq!(rt; script.len(), items.len(), "items of {text:?}");
    for (place, item) in items.iter().enumerate() {
        assert!(rt; place < script.len());
        assert_eq!(rt; script.at(place), *item, "item {place} of {text:?}");
    }
    let again = Script::from_items(script.into_items());
    assert_eq!(rt; again.len(), items.len(), "items of {text:?}, given back");
    Ok(())
}

// The first bad line of a text is this, or there is none and the text has so many items.
fn expect_end(
    rt: &impl Abort,
    alloc: Global,
    text: &[u8],
    end: Result<usize, u32>,
) -> Result<(), Fail> {
    assert!(rt; text.len() <= 1_048_576);
    match read_script(alloc, text) {
        Ok(script) => assert_eq!(rt; Ok(script.len()), end, "items of {text:?}"),
        Err(ScriptFault::BadLine(line)) => assert_eq!(rt; Err(line), end, "bad line of {text:?}"),
        Err(ScriptFault::OutOfMemory) => return Err(Fail::from("out of memory")),
    }
    Ok(())
}

/// Texts and their items.
const SCRIPTS: [(&[u8], &[Item]); 8] = [
    (b"", &[]),
    (b"\n \t\n;\n", &[]),
    (
        b"WAIT 10\nS\nW 5A\nWAIT 10\nR\n",
        &[
            Item::Wait(10),
            Item::Status,
            Item::Write(0x5A),
            Item::Wait(10),
            Item::Read,
        ],
    ),
    (
        b"\tSTEP  00007 ; seven\r\nW aF;\xFF\r\xC3\r\n  WAIT\t65535  \r\nR",
        &[
            Item::Step(7),
            Item::Write(0xAF),
            Item::Wait(65535),
            Item::Read,
        ],
    ),
    (
        b"REPEAT 2\nWAIT 9\n\nW 41\nEND\nS",
        &[
            Item::Wait(9),
            Item::Write(0x41),
            Item::Wait(9),
            Item::Write(0x41),
            Item::Status,
        ],
    ),
    (
        b"R\nREPEAT 1\nS\nEND\nREPEAT 03\nSTEP 0\nEND\n",
        &[
            Item::Read,
            Item::Status,
            Item::Step(0),
            Item::Step(0),
            Item::Step(0),
        ],
    ),
    (b"REPEAT 65535\nEND\nREPEAT 65535\n;\nEND\n", &[]),
    (b"S;\r", &[Item::Status]),
];

/// Texts, and how many items they have or their first bad line.
const ENDS: [(&[u8], Result<usize, u32>); 40] = [
    (b"W 4", Err(1)),
    (b"W 123", Err(1)),
    (b"W 4G", Err(1)),
    (b"W", Err(1)),
    (b"W 12 34", Err(1)),
    (b"W12", Err(1)),
    (b"w 12", Err(1)),
    (b"R 1", Err(1)),
    (b"R\nS S", Err(2)),
    (b"r", Err(1)),
    (b"WAIT", Err(1)),
    (b"WAIT 65536", Err(1)),
    (b"WAIT 000001", Err(1)),
    (b"STEP 99999", Err(1)),
    (b"STEP -1", Err(1)),
    (b"STEP +1", Err(1)),
    (b"STEP 1a", Err(1)),
    (b"REPEAT 0\nEND", Err(1)),
    (b"REPEAT 65536\nEND", Err(1)),
    (b"REPEAT\nEND", Err(1)),
    (b"REPEAT 65535\nEND", Ok(0)),
    (b"REPEAT 1\nR\nEND", Ok(1)),
    (b"END", Err(1)),
    (b"REPEAT 2\nEND\nEND", Err(3)),
    (b"REPEAT 2\nREPEAT 2\nEND\nEND", Err(2)),
    (b"R\nREPEAT 2\nS", Err(2)),
    (b"REPEAT 2\nS\nX", Err(3)),
    (b"END 1", Err(1)),
    (b"S\r", Err(1)),
    (b"S\r\n\rS", Err(2)),
    (b"S\r;\n", Err(1)),
    (b"S\r\r\n", Err(1)),
    (b"S\x0B\n", Err(1)),
    (b"REPEAT 65535\nR\nEND\nR", Ok(65536)),
    (b"REPEAT 65535\nR\nEND\nR\nR", Err(5)),
    (b"REPEAT 65535\nR\nEND\nR\n\nREPEAT 1\nR\nEND", Err(7)),
    (b"REPEAT 65535\nR\nEND\nREPEAT 2\nR\nEND", Err(6)),
    (b"REPEAT 65535\nR\nEND\nREPEAT 1\nR\nEND", Ok(65536)),
    (b"REPEAT 32768\nR\nS\nEND", Ok(65536)),
    (b"REPEAT 32769\nR\nS\nEND", Err(4)),
];

fn expect_all_items(
    rt: &impl Abort,
    alloc: Global,
    cases: &[(&[u8], &[Item])],
) -> Result<(), Fail> {
    for (text, items) in cases {
        expect_items(rt, alloc, text, items)?;
    }
    Ok(())
}

fn expect_all_ends(
    rt: &impl Abort,
    alloc: Global,
    cases: &[(&[u8], Result<usize, u32>)],
) -> Result<(), Fail> {
    for (text, end) in cases {
        expect_end(rt, alloc, text, *end)?;
    }
    Ok(())
}

#[test]
fn scripts_have_their_items(rt: HostRuntime) -> Result<(), Fail> {
    expect_all_items(&rt, rt.alloc(), &SCRIPTS)
}

#[test]
fn the_first_bad_line_is_named(rt: HostRuntime) -> Result<(), Fail> {
    each_text_has_one_answer();
    expect_all_ends(&rt, rt.alloc(), &ENDS)
}
