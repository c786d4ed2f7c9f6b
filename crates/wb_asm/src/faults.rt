//! Why a text gave no image.
ghost use Rattle.std.specs.Prelude.{◌≡◌};

use std::alloc::{AllocError, AllocFailed};
use wb_lex::LexFault;
use wb_syntax::SyntaxFault;
use wb_word::OutOfMemory;

/// What is wrong on a line.
#[derive(Clone, Copy, PartialEq, Eq, Debug)]
pub enum AsmKind {
    /// A byte that may not stand outside comments, in this column, counted in bytes from 1.
    Byte(u32),
    /// A number of 2^32 or more.
    Wide,
    /// A line that is no statement.
    Syntax,
    /// A name that was defined before.
    Twice,
    /// A name that isn't defined, or not yet where it has to be.
    Unknown,
    /// A number outside the range of its place, or on the way to it.
    Range,
    /// A word where one stands.
    Overlap,
    /// A word after the last place of its memory.
    Past,
}

/// The first fault of a text.
#[derive(Clone, Copy, PartialEq, Eq, Debug)]
pub struct AsmFault {
    /// Counted from 1.
    pub line: u32,
    pub kind: AsmKind,
}

/// Why a text gave no image.
#[derive(Clone, Copy, PartialEq, Eq, Debug)]
pub enum AsmError {
    Fault(AsmFault),
    /// Memory was refused.
    OutOfMemory,
}

impl From<AllocError> for AsmError {
    ghost use Rattle.wb_asm.specs.declared.faults.AsmError.{AsmError};

    ghost from_gives = { λ _ error. error ≡ AsmError.OutOfMemory };

    fn from(_: AllocError) -> Self {
        AsmError::OutOfMemory
    }
}

impl<T: Drop> From<AllocFailed<T>> for AsmError {
    ghost use Rattle.wb_asm.specs.declared.faults.AsmError.{AsmError};

    ghost from_gives = { λ _ error. error ≡ AsmError.OutOfMemory };

    fn from(_: AllocFailed<T>) -> Self {
        AsmError::OutOfMemory
    }
}

impl From<OutOfMemory> for AsmError {
    ghost use Rattle.wb_asm.specs.declared.faults.AsmError.{AsmError};

    ghost from_gives = { λ _ error. error ≡ AsmError.OutOfMemory };

    fn from(_: OutOfMemory) -> Self {
        AsmError::OutOfMemory
    }
}

impl From<AsmFault> for AsmError {
    ghost use Rattle.wb_asm.specs.declared.faults.AsmError.{AsmError};

    ghost from_gives = { λ fault error. error ≡ AsmError.Fault fault };

    fn from(fault: AsmFault) -> Self {
        AsmError::Fault(fault)
    }
}

impl From<LexFault> for AsmError {
    ghost use Rattle.wb_asm.specs.Causes.{of_lex};

    ghost from_gives = { λ fault error. error ≡ of_lex fault };

    fn from(fault: LexFault) -> Self {
        match fault {
            LexFault::Byte { line, column } => AsmError::Fault(AsmFault {
                line,
                kind: AsmKind::Byte(column),
            }),
            LexFault::Wide(line) => AsmError::Fault(AsmFault {
                line,
                kind: AsmKind::Wide,
            }),
            LexFault::OutOfMemory => AsmError::OutOfMemory,
        }
    }
}

impl From<SyntaxFault> for AsmError {
    ghost use Rattle.wb_asm.specs.Causes.{of_syntax};

    ghost from_gives = { λ fault error. error ≡ of_syntax fault };

    fn from(fault: SyntaxFault) -> Self {
        match fault {
            SyntaxFault::Syntax(line) => AsmError::Fault(AsmFault {
                line,
                kind: AsmKind::Syntax,
            }),
            SyntaxFault::OutOfMemory => AsmError::OutOfMemory,
        }
    }
}
