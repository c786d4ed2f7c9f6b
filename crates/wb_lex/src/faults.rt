//! Why a text gave no tokens.
ghost use Rattle.std.specs.Prelude.{◌≡◌};

use std::alloc::{AllocError, AllocFailed};

/// Why a text gave no tokens. Lines and columns are counted from 1, columns in bytes.
#[derive(Clone, Copy, PartialEq, Eq, Debug)]
pub enum LexFault {
    /// A byte that may not stand outside comments.
    Byte { line: u32, column: u32 },
    /// A number of 2^32 or more, on this line.
    Wide(u32),
    /// Memory was refused.
    OutOfMemory,
}

impl From<AllocError> for LexFault {
    ghost use Rattle.wb_lex.specs.declared.faults.LexFault.{LexFault};

    ghost from_gives = { λ _ fault. fault ≡ LexFault.OutOfMemory };

    fn from(_: AllocError) -> Self {
        LexFault::OutOfMemory
    }
}

impl<T: Drop> From<AllocFailed<T>> for LexFault {
    ghost use Rattle.wb_lex.specs.declared.faults.LexFault.{LexFault};

    ghost from_gives = { λ _ fault. fault ≡ LexFault.OutOfMemory };

    fn from(_: AllocFailed<T>) -> Self {
        LexFault::OutOfMemory
    }
}
