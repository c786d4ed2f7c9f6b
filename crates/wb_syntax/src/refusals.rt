//! Why a part of a line was not read.
ghost use Rattle.std.specs.Prelude.{◌≡◌};

use std::alloc::{AllocError, AllocFailed};

/// Why a part of a line was not read.
#[derive(Clone, Copy, PartialEq, Eq, Debug)]
pub enum Refusal {
    /// It isn't what was to be read.
    Syntax,
    /// Memory was refused.
    OutOfMemory,
}

impl From<AllocError> for Refusal {
    ghost use Rattle.wb_syntax.specs.declared.refusals.Refusal.{Refusal};

    ghost from_gives = { λ _ refusal. refusal ≡ Refusal.OutOfMemory };

    fn from(_: AllocError) -> Self {
        Refusal::OutOfMemory
    }
}

impl<T: Drop> From<AllocFailed<T>> for Refusal {
    ghost use Rattle.wb_syntax.specs.declared.refusals.Refusal.{Refusal};

    ghost from_gives = { λ _ refusal. refusal ≡ Refusal.OutOfMemory };

    fn from(_: AllocFailed<T>) -> Self {
        Refusal::OutOfMemory
    }
}
