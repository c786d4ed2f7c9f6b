//! The words of the µPD77C25: narrow numbers, instruction words and instructions.
//!
//! Every 24-bit word is exactly one instruction and back: `decode` and `encode` are inverse, and each meets
//! the sum of field values that `specs/Encoding.antt` gives. `numbers` has the narrow numbers, `codes` the
//! field codes, `conditions` the branch codes, `words` the instruction and `coding` its two directions;
//! `sides` names the two machines of a comparison, `memory` the want of memory, `table` the tables of words.
#![tactic(auto)]

mod codes;
mod coding;
mod conditions;
mod memory;
mod numbers;
mod sides;
mod table;
mod words;

pub use codes::{Acc, Alu, Dpl, Dst, P, Src};
pub use coding::{coding_laws, decode, encode};
pub use conditions::Cond;
pub use memory::OutOfMemory;
pub use numbers::{Addr, Nibble, OtherCode, Spare, Word};
pub use sides::Side;
pub use table::Rom;
pub use words::{Instr, OpWord};
