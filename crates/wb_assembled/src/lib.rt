//! Tests of sources and listings: tokens, statements, the assembler, the disassembler.
//!
//! They stand in a crate of their own, so that the crates that they call are proved once and not again for their
//! tests. Each test module has the name of the crate whose calls it tests; `texts` has texts of equal lines.
#![tactic(auto)]

#[cfg(test)]
mod asm;
#[cfg(test)]
mod dis;
#[cfg(test)]
mod lex;
#[cfg(test)]
mod syntax;
mod texts;

pub use texts::repeated;
