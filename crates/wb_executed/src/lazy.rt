// Schedules of lazy hosts, event by event, beside the run of the eager host that holds the same talk.
use crate::port::image_of;
use std::alloc::Global;
use std::process::Abort;
use std::test::Fail;
use wb_port::{Access, Chip, Dialogue, Event, Replies, Run, replay, requested};
use wb_rom::Image;

// Each byte is given back after some work, and the chip waits at its own jumps on RQM.
const WORK: &[u32] = &[
    0xC10007, 0x000080, 0x098000, 0x098000, 0x098000, 0x97C014, 0x000091, 0x000016, 0x97C020,
    0xA00004,
];

// Each word is given back, in two halves.
const WIDE: &[u32] = &[0x000080, 0x97C004, 0x000091, 0x000016, 0x97C010, 0xA00000];

// Each byte is given back, and the chip waits for it in a loop of two words.
const LOOP: &[u32] = &[
    0xC10007, 0x000080, 0x978010, 0xA00008, 0x000091, 0x000016, 0x97C018, 0xA00004,
];

// A byte is given back, and the chip waits for it in a loop of eight words.
const EIGHT_WORDS: &[u32] = &[
    0xC10007, 0x000080, 0, 0, 0, 0, 0, 0, 0, 0x97C008, 0x000091, 0x000016, 0x97C030, 0xA00004,
];

/// An access, the status byte that is read while its request stands, and the byte that the access gives.
type Turn = (Access, u8, Option<u8>);

const BYTES: [Turn; 4] = [
    (Access::Write(0x5A), 0x84, None),
    (Access::Read, 0x84, Some(0x5A)),
    (Access::Write(0xC3), 0x84, None),
    (Access::Read, 0x84, Some(0xC3)),
];

// Two halves of a word are written, and both are read: DRS shows between them.
const HALVES: [Turn; 4] = [
    (Access::Write(0x34), 0x80, None),
    (Access::Write(0x12), 0x90, None),
    (Access::Read, 0x80, Some(0x34)),
    (Access::Read, 0x90, Some(0x12)),
];

/// A schedule so far: the chip after it, its talk, and what it said.
#[derive(Drop)]
struct Course {
    chip: Chip,
    talk: Dialogue,
    said: Replies,
}

impl Course {
    fn new(alloc: Global) -> Self {
        Course {
            chip: Chip::reset(),
            talk: Dialogue::new(alloc),
            said: Replies::new(alloc),
        }
    }

    /// An access of the host, which stands in the talk where it finds a request.
    fn access(&mut self, image: &Image, access: Access) -> Result<(), Fail> {
        let asked = requested(&self.chip.machine);
        let reply = self.chip.apply(image, Event::Host(access));
        if asked {
            self.talk.push(access)?;
            if let Some(byte) = reply {
                self.said.push(byte)?;
            }
        }
        Ok(())
    }

    /// So many instructions, each after a status read where the host looks.
    fn instructions(&mut self, image: &Image, count: u32, looks: bool) -> Result<(), Fail> {
        for _ in 0..count {
            if looks {
                self.access(image, Access::Status)?;
            }
            self.chip.apply(image, Event::Step);
        }
        Ok(())
    }

    /// Instructions until a request stands, which it does within a few.
    fn request(&mut self, image: &Image, looks: bool) -> Result<(), Fail> {
        for _ in 0..20 {
            if requested(&self.chip.machine) {
                break;
            }
            self.instructions(image, 1, looks)?;
        }
        Ok(())
    }
}

/// A host that gives each access so many instructions after it finds a request. One that looks reads the status
/// before each instruction and before each access.
fn lazy_course(
    alloc: Global,
    image: &Image,
    turns: &[Turn],
    lazy: u32,
    looks: bool,
) -> Result<Course, Fail> {
    let mut course = Course::new(alloc);
    for (access, _, _) in turns {
        course.request(image, looks)?;
        course.instructions(image, lazy, looks)?;
        if looks {
            course.access(image, Access::Status)?;
        }
        course.access(image, *access)?;
    }
    Ok(course)
}

/// What such a host hears: a status byte for each look while the request stands, and what the accesses give.
fn bytes_heard(alloc: Global, turns: &[Turn], lazy: u32, looks: bool) -> Result<Vec<u8>, Fail> {
    let mut bytes = Vec::new(alloc);
    for (_, status, reply) in turns {
        if looks {
            for _ in 0..=lazy {
                bytes.push(*status)?;
            }
        }
        if let Some(byte) = reply {
            bytes.push(*byte)?;
        }
    }
    Ok(bytes)
}

/// The schedule saw no breach and said these bytes, and so does the run of the eager host that holds its talk.
fn check_course(
    rt: &impl Abort,
    alloc: Global,
    image: &Image,
    course: &Course,
    pace: u16,
    bytes: &[u8],
) -> Result<(), Fail> {
    assert_eq!(rt; course.chip.monitor.breach, None);
    assert_eq!(rt; course.said.bytes(), bytes);
    assert!(rt; pace >= 1);
    let run = replay(alloc, image, &course.talk, pace, false)?;
    let replies = match &run {
        Run::Answered(replies) => replies.bytes(),
        _ => &[],
    };
    assert_eq!(rt; replies, bytes);
    Ok(())
}

#[test]
fn lazy_hosts_hear_what_eager_hosts_hear(rt: HostRuntime) -> Result<(), Fail> {
    let alloc = rt.alloc();
    let images = [
        (WORK, &BYTES, 6),
        (WIDE, &HALVES, 4),
        (LOOP, &BYTES, 5),
        (EIGHT_WORDS, &BYTES, 5),
    ];
    for (words, turns, pace) in images {
        let image = image_of(alloc, words)?;
        for lazy in [0, 1, 2, 3, 7, 20] {
            for looks in [false, true] {
                let course = lazy_course(alloc, &image, turns, lazy, looks)?;
                let bytes = bytes_heard(alloc, turns, lazy, looks)?;
                check_course(&rt, alloc, &image, &course, pace, &bytes)?;
            }
        }
    }
    Ok(())
}
