//! What a script came to: the lines that answer its items, and how it ended.
ghost use Rattle.std.specs.Prelude.{◌≡◌, ◌<◌, [], ◌∷◌, ◌++◌, OnOk, OnErr, Some, length, slice_get};

use std::alloc::Global;
use std::marker::Model;
use wb_word::OutOfMemory;

/// What answers one item of a script.
#[derive(Clone, Copy, PartialEq, Eq, Debug)]
pub enum Line {
    /// A request stood after this many instructions.
    Waited(u16),
    /// This many instructions were executed.
    Stepped(u16),
    /// The upper byte of the status register.
    Status(u8),
    /// The byte that was read.
    Read(u8),
    /// The byte that was written.
    Wrote(u8),
}

/// How a run ended. Items are numbered from 1.
#[derive(Clone, Copy, PartialEq, Eq, Debug)]
pub enum Ended {
    /// Every item was answered.
    Done,
    /// This item, a read or a write, found no request. The port was left alone.
    Early(u32),
    /// This item, a wait, executed its instructions, and no request came.
    Silent(u32),
}

/// Lines in order.
#[derive(Drop)]
pub struct Lines {
    lines: Vec<Line>,
}

impl Model for Lines {
    ghost use Rattle.std.specs.Prelude.{List};
    ghost use Rattle.wb_session.specs.declared.transcripts.Line.{Line};

    ghost Value = { List Line };

    ghost view = { λ lines. lines.lines.items };
}

impl Lines {
    /// No lines.
    pub fn new(alloc: Global) -> Self
        ensures { result ≡ [] }
    {
        Lines {
            lines: Vec::new(alloc),
        }
    }

    /// These lines, which takes no memory.
    pub fn from_vec(lines: Vec<Line>) -> Self
        ensures { result ≡ lines.items }
    {
        Lines { lines }
    }

    /// One more line at the end.
    pub fn push(&mut self, line: Line) -> Result<(), OutOfMemory>
        ensures ok { OnOk result (self.new ≡ self.old ++ line ∷ []) }
        ensures err { OnErr result (self.new ≡ self.old) }
    {
        self.lines.push(line)?;
        Ok(())
    }

    /// How many lines there are.
    pub fn len(&self) -> usize
        ensures { result ≡ length self.now }
    {
        self.lines.len()
    }

    /// The line at a place, counted from 0.
    pub fn at(&self, place: usize) -> Line
        requires { place < length self.now }
        ensures { slice_get self.now place ≡ Some result }
    {
        self.lines[place]
    }
}

/// The transcript of a script: one line for each item that was answered, and how it ended.
#[derive(Drop)]
pub struct Transcript {
    pub lines: Lines,
    pub ended: Ended,
}
