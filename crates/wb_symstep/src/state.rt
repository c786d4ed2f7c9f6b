use wb_fold::{Pages, SymFlags};
use wb_term::WordId;

/// A chip whose registers, flags and RAM are terms of a graph, at one place of the program.
///
/// Bits 15 and 12 of the value of `sr` don't count: `rqm` and `drs` stand for them.
#[derive(Drop)]
pub struct SymState {
    /// The program counter, 11 bits.
    pub pc: u16,
    /// The stack pointer, 2 bits.
    pub sp: u8,
    pub stack: [u16; 4],
    /// A request of the chip stands.
    pub rqm: bool,
    /// The first half of a word was transferred.
    pub drs: bool,
    pub rp: WordId,
    pub dp: WordId,
    pub a: WordId,
    pub b: WordId,
    pub tr: WordId,
    pub trb: WordId,
    pub k: WordId,
    pub l: WordId,
    pub dr: WordId,
    pub sr: WordId,
    pub so: WordId,
    pub flags_a: SymFlags,
    pub flags_b: SymFlags,
    pub ram: Pages,
}
