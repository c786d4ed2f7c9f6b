use crate::reached::Reached;
use std::alloc::AllocFailed;
use wb_blast::Blasted;
use wb_derive::Derivation;
use wb_point::Query;
use wb_port::Dialogue;
use wb_solve::Answer;
use wb_word::{Addr, OutOfMemory};

/// A question, with the formula that says it.
#[derive(Drop)]
pub struct Asked {
    pub query: Query,
    pub blasted: Blasted,
}

/// Why an exploration stops before its end.
#[derive(Drop)]
pub enum ExploreFault {
    /// The held run of the dialogue breaches there.
    Breach(Dialogue, Addr),
    /// One point more than the budget has: those that the purse had before the call, then new ones.
    Points(Reached),
    /// The solver has made as many conflicts as it may.
    Conflicts(Asked, Derivation),
    /// The oracle's answer is wrong, or it is none.
    BadAnswer(Asked, Answer),
    OutOfMemory,
}

impl From<OutOfMemory> for ExploreFault {
    ghost use Rattle.std.specs.Prelude.{◌≡◌};
    ghost use Rattle.wb_explore.specs.declared.faults.ExploreFault.TheVariants as fault;

    ghost from_gives = { λ _ e. e ≡ fault.OutOfMemory };

    fn from(_: OutOfMemory) -> Self {
        ExploreFault::OutOfMemory
    }
}

impl<T: Drop> From<AllocFailed<T>> for ExploreFault {
    ghost use Rattle.std.specs.Prelude.{◌≡◌};
    ghost use Rattle.wb_explore.specs.declared.faults.ExploreFault.TheVariants as fault;

    ghost from_gives = { λ _ e. e ≡ fault.OutOfMemory };

    fn from(_: AllocFailed<T>) -> Self {
        ExploreFault::OutOfMemory
    }
}
