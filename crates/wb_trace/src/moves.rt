//! The moves of a person at two machines.
ghost use Rattle.std.specs.Prelude.{◌≡◌, ◌<◌, [], ◌∷◌, ◌++◌, OnOk, OnErr, Some, length, slice_get};

use std::alloc::Global;
use std::marker::Model;
use wb_word::OutOfMemory;

/// One move at two machines that stand side by side.
#[derive(Clone, Copy, PartialEq, Eq, Debug)]
pub enum Move {
    /// One instruction on side A.
    StepA,
    /// One instruction on side B.
    StepB,
    /// The status bytes of both sides are read.
    Status,
    /// A byte of data is read on both sides, where both have a request.
    Read,
    /// A byte of data is written on both sides, where both have a request.
    Write(u8),
    /// The last step or transfer is taken back.
    Undo,
    /// The registers of both sides are shown.
    Show,
}

/// Moves in order.
#[derive(Drop)]
pub struct Moves {
    moves: Vec<Move>,
}

impl Model for Moves {
    ghost use Rattle.std.specs.Prelude.{List};
    ghost use Rattle.wb_trace.specs.declared.moves.Move.{Move};

    ghost Value = { List Move };

    ghost view = { λ moves. moves.moves.items };
}

impl Moves {
    /// No moves.
    pub fn new(alloc: Global) -> Self
        ensures { result ≡ [] }
    {
        Moves {
            moves: Vec::new(alloc),
        }
    }

    /// These moves, which takes no memory.
    pub fn from_vec(moves: Vec<Move>) -> Self
        ensures { result ≡ moves.items }
    {
        Moves { moves }
    }

    /// One more move at the end.
    pub fn push(&mut self, mv: Move) -> Result<(), OutOfMemory>
        ensures ok { OnOk result (self.new ≡ self.old ++ mv ∷ []) }
        ensures err { OnErr result (self.new ≡ self.old) }
    {
        self.moves.push(mv)?;
        Ok(())
    }

    /// How many moves there are.
    pub fn len(&self) -> usize
        ensures { result ≡ length self.now }
    {
        self.moves.len()
    }

    /// The move at a place, counted from 0.
    pub fn at(&self, place: usize) -> Move
        requires { place < length self.now }
        ensures { slice_get self.now place ≡ Some result }
    {
        self.moves[place]
    }
}
