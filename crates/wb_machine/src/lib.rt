//! The µPD77C25 as a table machine: one call executes one instruction word of an image.
//!
//! `specs/Next.antt` gives each register after an instruction as a function of the state before it, and
//! `Machine::step` is exactly that, for every image and every state. `registers` has the registers,
//! `processor` the machine, `effects` what an instruction does to the registers, in its order, and `jumps`
//! the conditions, `laws` what is true of every instruction. A machine keeps the ranges of its parts. No call takes memory.
#![tactic(auto)]

mod effects;
mod jumps;
mod laws;
mod processor;
mod registers;

pub use laws::{moves_to_sr_go_by_bits, parts_go_on_alone, ranges_are_kept, starts_are_in_range};
pub use processor::Machine;
pub use registers::Regs;
