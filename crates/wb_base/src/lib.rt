//! Where a program reads its files and writes its report, as two traits.
//!
//! A `Shelf` gives the bytes of named contents, and a `Sink` takes bytes. Each counts its faults, and a
//! call that fails says so by that count. `read_whole` (`src/reading.rt`) gives a content whole or says
//! why not, and `put_all` (`src/writing.rt`) puts a text whole or a part from its front. `MemShelf` and
//! `MemSink` are in memory and fail where they are told to; `FileShelf` and `StdSink` are the real ones.
//! `shelves` and `sinks` have the traits, `faults` what their calls answer, `mem_shelf`, `mem_sink`,
//! `file_shelf` and `std_sink` the four types; `calls` counts the calls that are to fail, and `opened` reads
//! one file front to back. `specs/Shelf.antt` and `specs/Sink.antt` say what the traits promise.
#![tactic(auto)]

mod calls;
mod faults;
mod file_shelf;
mod mem_shelf;
mod mem_sink;
mod opened;
mod reading;
mod shelves;
mod sinks;
mod std_sink;
mod writing;

pub use faults::{Failed, OutOfMemory, ReadFault};
pub use file_shelf::FileShelf;
pub use mem_shelf::MemShelf;
pub use mem_sink::MemSink;
pub use reading::read_whole;
pub use shelves::Shelf;
pub use sinks::Sink;
pub use std_sink::StdSink;
pub use writing::put_all;

#[cfg(test)]
mod tests;
