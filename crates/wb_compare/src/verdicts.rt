use std::alloc::AllocFailed;
use wb_derive::Derivation;
use wb_explore::{Asked, Reached};
use wb_port::Dialogue;
use wb_solve::Answer;
use wb_word::{Addr, OutOfMemory, Side};

/// Whether both chips kept the pace.
#[derive(Drop)]
pub enum Pace {
    /// In every dialogue.
    Kept,
    /// Not in this one, on this side.
    Overrun(Side, Dialogue),
}

/// What of the budget was spent.
#[derive(Drop)]
pub enum Spent {
    /// One point more than it has.
    Points(Reached),
    /// As many conflicts as it has, on one question.
    Conflicts(Asked, Derivation),
}

/// What a comparison comes to.
#[derive(Drop)]
pub enum Verdict {
    /// The images answer alike.
    Equal(Pace),
    /// They differ in the last answer of this dialogue.
    Different(Dialogue),
    /// On this side the held run of this dialogue breaches, there.
    Breach(Side, Dialogue, Addr),
    /// The budget was too small.
    Unknown(Spent),
}

/// Why a comparison has no verdict.
#[derive(Drop)]
pub enum CompareFault {
    /// The oracle's answer is wrong, or it is none.
    BadAnswer(Asked, Answer),
    OutOfMemory,
}

impl From<OutOfMemory> for CompareFault {
    ghost use Rattle.std.specs.Prelude.{◌≡◌};
    ghost use Rattle.wb_compare.specs.declared.verdicts.CompareFault.TheVariants as fault;

    ghost from_gives = { λ _ e. e ≡ fault.OutOfMemory };

    fn from(_: OutOfMemory) -> Self {
        CompareFault::OutOfMemory
    }
}

impl<T: Drop> From<AllocFailed<T>> for CompareFault {
    ghost use Rattle.std.specs.Prelude.{◌≡◌};
    ghost use Rattle.wb_compare.specs.declared.verdicts.CompareFault.TheVariants as fault;

    ghost from_gives = { λ _ e. e ≡ fault.OutOfMemory };

    fn from(_: AllocFailed<T>) -> Self {
        CompareFault::OutOfMemory
    }
}
