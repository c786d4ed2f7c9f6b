//! Why tokens gave no source.
ghost use Rattle.std.specs.Prelude.{◌≡◌};

use std::alloc::{AllocError, AllocFailed};

/// Why tokens gave no source.
#[derive(Clone, Copy, PartialEq, Eq, Debug)]
pub enum SyntaxFault {
    /// The first line that is no statement, counted from 1.
    Syntax(u32),
    /// Memory was refused.
    OutOfMemory,
}

impl From<AllocError> for SyntaxFault {
    ghost use Rattle.wb_syntax.specs.declared.faults.SyntaxFault.{SyntaxFault};

    ghost from_gives = { λ _ fault. fault ≡ SyntaxFault.OutOfMemory };

    fn from(_: AllocError) -> Self {
        SyntaxFault::OutOfMemory
    }
}

impl<T: Drop> From<AllocFailed<T>> for SyntaxFault {
    ghost use Rattle.wb_syntax.specs.declared.faults.SyntaxFault.{SyntaxFault};

    ghost from_gives = { λ _ fault. fault ≡ SyntaxFault.OutOfMemory };

    fn from(_: AllocFailed<T>) -> Self {
        SyntaxFault::OutOfMemory
    }
}
