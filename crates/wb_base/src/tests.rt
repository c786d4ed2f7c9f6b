//! What no clause says: that memory suffices for each call, and what the real files and devices answer.
use crate::{
    Failed, FileShelf, MemShelf, MemSink, ReadFault, Shelf, Sink, StdSink, put_all, read_whole,
};
use std::alloc::Global;
use std::fs::OpenOptions;
use std::io::Write;
use std::os::fd::AsRawFd;
use std::process::Abort;
use std::test::Fail;

/// So many bytes, no two of which are alike within 251 places.
fn some_bytes(alloc: Global, length: usize) -> Result<Vec<u8>, Fail> {
    let mut bytes = Vec::new(alloc);
    for at in 0..length {
        bytes.push((at % 251) as u8)?;
    }
    Ok(bytes)
}

/// A read of at most six bytes: the name, the place, and the bytes that it gives, or None where it fails.
type Reading = (&'static str, u64, Option<&'static [u8]>);

fn check_reads<S: Shelf>(rt: &impl Abort, shelf: &mut S, reads: &[Reading]) {
    for (name, at, given) in reads {
        let mut buf = [0u8; 6];
        match shelf.read_at(name, *at, &mut buf) {
            Ok(count) => assert_eq!(rt; Some(&buf[..count]), *given, "{name} {at}"),
            Err(Failed) => assert!(rt; given.is_none(), "{name} {at}"),
        }
    }
}

/// A shelf with these contents.
fn shelf_of(alloc: Global, contents: &[(&str, &[u8])]) -> Result<MemShelf, Fail> {
    let mut shelf = MemShelf::new(alloc);
    for (name, content) in contents {
        shelf.add(name, content)?;
    }
    Ok(shelf)
}

const CONTENTS: [(&str, &[u8]); 3] = [("a", b"old"), ("b", b"second"), ("a", b"first")];

/// The third read fails, and there is no content c.
const READS: [Reading; 5] = [
    ("a", 1, Some(b"irst")),
    ("b", 4, Some(b"nd")),
    ("b", 0, None),
    ("b", 6, Some(b"")),
    ("c", 0, None),
];

#[test]
fn shelf_in_memory(rt: HostRuntime) -> Result<(), Fail> {
    let mut shelf = shelf_of(rt.alloc(), &CONTENTS)?;
    shelf.fail_call(3)?;
    shelf.at_most(4);
    check_reads(&rt, &mut shelf, &READS);
    Ok(())
}

/// A put: the bytes, and how many of them are taken, or None where it fails.
type Putting = (&'static [u8], Option<usize>);

fn check_puts<W: Sink>(rt: &impl Abort, sink: &mut W, puts: &[Putting]) {
    for (piece, taken) in puts {
        assert_eq!(rt; sink.put(piece).ok(), *taken, "{piece:?}");
    }
}

/// The second put fails, the third takes the room's rest, and then there is none.
const PUTS: [Putting; 5] = [
    (b"abcde", Some(4)),
    (b"e", None),
    (b"efgh", Some(3)),
    (b"h", None),
    (b"", Some(0)),
];

#[test]
fn sink_in_memory(rt: HostRuntime) -> Result<(), Fail> {
    let mut sink = MemSink::with_room(rt.alloc(), 7)?;
    sink.at_most(4);
    sink.fail_call(2)?;
    check_puts(&rt, &mut sink, &PUTS);
    assert_eq!(rt; sink.taken(), b"abcdefg".as_slice());
    Ok(())
}

/// A content's length, how much a read gives, the limit, and whether the content is within it.
type Whole = (usize, usize, usize, bool);

const WHOLES: [Whole; 7] = [
    (0, 5000, 0, true),
    (4095, 5000, 5000, true),
    (4096, 4096, 4096, true),
    (4097, 1, 4097, true),
    (4097, 1, 4096, false),
    (8192, 5000, 8191, false),
    (9000, 5000, 67_108_864, true),
];

fn check_wholes(rt: &impl Abort, alloc: Global, wholes: &[Whole]) -> Result<(), Fail> {
    for (length, most, limit, fits) in wholes {
        assert!(rt; *most >= 1 && *limit <= 67_108_864);
        let content = some_bytes(alloc, *length)?;
        let mut shelf = shelf_of(alloc, &[("x", content.as_slice())])?;
        shelf.at_most(*most);
        match read_whole(alloc, &mut shelf, "x", *limit) {
            Ok(bytes) => assert!(rt; *fits && bytes.as_slice() == content.as_slice(), "{length}"),
            Err(fault) => assert!(rt; !*fits && fault == ReadFault::TooLong, "{length}"),
        }
    }
    Ok(())
}

#[test]
fn contents_read_whole(rt: HostRuntime) -> Result<(), Fail> {
    check_wholes(&rt, rt.alloc(), &WHOLES)?;
    let content = some_bytes(rt.alloc(), 5000)?;
    let mut shelf = shelf_of(rt.alloc(), &[("x", content.as_slice())])?;
    shelf.fail_call(2)?;
    let failed = read_whole(rt.alloc(), &mut shelf, "x", 5000).err();
    assert_eq!(rt; failed, Some(ReadFault::Failed), "its second read fails");
    Ok(())
}

fn check_put_all<W: Sink>(rt: &impl Abort, sink: &mut W, text: &[u8], fits: bool) {
    assert_eq!(rt; put_all(sink, text).is_ok(), fits, "{text:?}");
}

#[test]
fn text_put_whole(rt: HostRuntime) -> Result<(), Fail> {
    let mut sink = MemSink::with_room(rt.alloc(), 20)?;
    sink.at_most(3);
    check_put_all(&rt, &mut sink, b"ten bytes.", true);
    sink.fail_call(6)?;
    check_put_all(&rt, &mut sink, b"and more", false);
    assert_eq!(rt; sink.taken(), b"ten bytes.and".as_slice());
    Ok(())
}

/// Names of the system, and why they can't be read whole within 10,000 bytes.
const NAMES: [(&str, Option<ReadFault>); 4] = [
    ("/dev/null", None),
    ("/dev/zero", Some(ReadFault::TooLong)),
    ("/", Some(ReadFault::Failed)),
    ("/no/such/file", Some(ReadFault::Failed)),
];

fn check_names<S: Shelf>(
    rt: &impl Abort,
    alloc: Global,
    shelf: &mut S,
    names: &[(&str, Option<ReadFault>)],
) {
    for (name, fault) in names {
        let found = read_whole(alloc, shelf, name, 10_000).err();
        assert_eq!(rt; found, *fault, "{name}");
    }
}

#[test]
fn real_files(rt: HostRuntime) -> Result<(), Fail> {
    let mut shelf = FileShelf::new(&rt);
    check_names(&rt, rt.alloc(), &mut shelf, &NAMES);
    let (reader, mut writer) = std::io::pipe(&rt)?;
    let content = some_bytes(rt.alloc(), 5000)?;
    writer.write_all(content.as_slice())?;
    drop(writer);
    let name = format!(in rt.alloc(); "/proc/self/fd/{}", reader.as_raw_fd())?;
    let bytes = read_whole(rt.alloc(), &mut shelf, name.as_str(), 10_000)?;
    assert!(rt; bytes.as_slice() == content.as_slice(), "a pipe");
    Ok(())
}

/// An executable file of this system begins with the byte 7F and the letters ELF.
const OUT_OF_ORDER: [(u64, [u8; 2]); 5] = [
    (1, *b"EL"),
    (0, *b"\x7FE"),
    (2, *b"LF"),
    (2, *b"LF"),
    (1, *b"EL"),
];

fn check_pairs<S: Shelf>(rt: &impl Abort, shelf: &mut S, name: &str, pairs: &[(u64, [u8; 2])]) {
    for (at, bytes) in pairs {
        let mut buf = [0u8; 2];
        assert_eq!(rt; shelf.read_at(name, *at, &mut buf), Ok(2), "{at}");
        assert_eq!(rt; buf.as_slice(), bytes.as_slice(), "{at}");
    }
}

#[test]
fn file_out_of_order(rt: HostRuntime) -> Result<(), Fail> {
    let mut shelf = FileShelf::new(&rt);
    check_pairs(&rt, &mut shelf, "/proc/self/exe", &OUT_OF_ORDER);
    Ok(())
}

#[test]
fn real_devices(rt: HostRuntime) -> Result<(), Fail> {
    let mut room = [0u8; 4];
    let mut sink = StdSink::new(room.as_mut_slice());
    check_put_all(&rt, &mut sink, b"four", true);
    check_puts(&rt, &mut sink, &[(b"", Some(0)), (b"more", None)]);
    let full = OpenOptions::new().write(true).open(&rt, "/dev/full")?;
    check_put_all(&rt, &mut StdSink::new(full), b"text", false);
    Ok(())
}
