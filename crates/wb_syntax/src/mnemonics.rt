//! The words that statements begin with.

use wb_word::Cond;

/// The word that a statement begins with.
#[derive(Clone, Copy, PartialEq, Eq, Debug)]
pub enum Mnemonic {
    Nop,
    Op,
    Rt,
    Ld,
    /// A jump or a call, by the name of its condition.
    Jump(Cond),
    Org,
    Dorg,
    Equ,
    Word,
    Dw,
}
