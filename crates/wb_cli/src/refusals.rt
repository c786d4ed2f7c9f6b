//! Why a call is refused, and the line that says so.
ghost use Rattle.std.specs.Prelude.{◌≡◌, ◌+◌, Some};
ghost use Rattle.wb_cli.specs.Report.{fault_text, refusal_ending, refusal_line};
ghost use Rattle.wb_cli.specs.declared.refusals.Stop.TheVariants as stop;

use crate::statuses::Ending;
use std::fmt;
use wb_asm::{AsmFault, AsmKind};
use wb_word::OutOfMemory;

/// Why a call is refused before its work is done. Places are those of file words among the file words of the plan,
/// counted from 0.
#[derive(Clone, Copy)]
pub enum Refusal {
    /// The words have no plan.
    BadWords,
    /// The file of this place couldn't be read.
    ReadFault(u8),
    /// The file of this place is longer than it may be.
    TooLong(u8),
    /// The file of this place has this many bytes, which no image has.
    ImageLength(u8, usize),
    /// The script has its first bad line here, counted from 1.
    ScriptLine(u32),
    /// The first fault of the source.
    SourceFault(AsmFault),
    /// The moves have their first bad line here, counted from 1.
    MovesLine(u32),
}

impl Refusal {
    /// How a call ends that is refused so.
    pub fn ending(&self) -> Ending
        ensures { result ≡ refusal_ending self.now }
    {
        match self {
            Refusal::BadWords => Ending::BadWords,
            Refusal::ReadFault(_) => Ending::ReadFault,
            Refusal::TooLong(_)
            | Refusal::ImageLength(..)
            | Refusal::ScriptLine(_)
            | Refusal::SourceFault(_)
            | Refusal::MovesLine(_) => Ending::Refused,
        }
    }
}

/// Places are printed from 1.
fn printed(place: u8) -> u16
    ensures { result ≡ place + 1 }
{
    u16::from(place) + 1
}

/// What is wrong on a line of a source, as it is printed.
#[derive(Clone, Copy)]
struct Wrong(AsmKind);

impl fmt::Display for Wrong {
    ghost output = { λ wrong. Some (fault_text wrong.0) };

    fn fmt<W: fmt::Write>(&self, f: &mut fmt::Formatter<W>) -> fmt::Result {
        match self.0 {
            AsmKind::Byte(column) => write!(f, "BYTE {column}"),
            AsmKind::Wide => write!(f, "WIDE"),
            AsmKind::Syntax => write!(f, "SYNTAX"),
            AsmKind::Twice => write!(f, "TWICE"),
            AsmKind::Unknown => write!(f, "UNKNOWN"),
            AsmKind::Range => write!(f, "RANGE"),
            AsmKind::Overlap => write!(f, "OVERLAP"),
            AsmKind::Past => write!(f, "PAST"),
        }
    }
}

impl fmt::Display for Refusal {
    ghost output = { λ refusal. Some (refusal_line refusal) };

    fn fmt<W: fmt::Write>(&self, f: &mut fmt::Formatter<W>) -> fmt::Result {
        match *self {
            Refusal::BadWords => write!(f, "BAD WORDS"),
            Refusal::ReadFault(place) => {
                let number = printed(place);
                write!(f, "READ FAULT {number}")
            }
            Refusal::TooLong(place) => {
                let number = printed(place);
                write!(f, "FILE {number} TOO LONG")
            }
            Refusal::ImageLength(place, found) => {
                let number = printed(place);
                write!(f, "IMAGE {number} LENGTH {found}")
            }
            Refusal::ScriptLine(line) => write!(f, "LINE {line} SCRIPT"),
            Refusal::SourceFault(fault) => {
                let line = fault.line;
                let wrong = Wrong(fault.kind);
                write!(f, "LINE {line} {wrong}")
            }
            Refusal::MovesLine(line) => write!(f, "LINE {line} MOVES"),
        }
    }
}

/// Why a step has no result: its call is refused, or memory was.
#[derive(Clone, Copy)]
pub enum Stop {
    Refused(Refusal),
    OutOfMemory,
}

impl From<Refusal> for Stop {
    ghost from_gives = { λ refusal e. e ≡ stop.Refused refusal };

    fn from(refusal: Refusal) -> Self {
        Stop::Refused(refusal)
    }
}

impl From<OutOfMemory> for Stop {
    ghost from_gives = { λ _ e. e ≡ stop.OutOfMemory };

    fn from(_: OutOfMemory) -> Self {
        Stop::OutOfMemory
    }
}
