//! One instruction of the chip for all inputs at once.
//!
//! A symbolic state has a plain program counter, stack, RQM and DRS, and its registers, flags and RAM are terms
//! of a graph. Under inputs it stands for a machine (`specs/State.antt`). Under all inputs for which it stands for
//! one, `sym_step` gives a state that stands for that machine after the instruction, or two by a condition, of
//! which the chosen one does. It forks at a jump on a flag or on DP alone, and only where the condition isn't a
//! constant node. It adds at most 1,200 nodes and brings in no input node. `states_stay` says that states keep
//! their meaning while the graph grows.
//!
//! `state` and `stepped` have the public types, `starts` the chip at power-up, `step` the instruction and `laws`
//! what holds of every state. The private files: `operate` has the words that compute and those that load, `jumps`
//! the jumps, calls and returns; `sources` the bus, `compute` the ALU, `moves` what a move writes, `registers` DP,
//! RP and SR after a word, `conditions` the tests; `words`, `pointers` and `status` are arithmetic on terms,
//! `copies` copies a state, and `work` has the types that these share.
#![tactic(auto)]

mod compute;
mod conditions;
mod copies;
mod jumps;
mod laws;
mod moves;
mod operate;
mod pointers;
mod registers;
mod sources;
mod starts;
mod state;
mod status;
mod step;
mod stepped;
mod words;
mod work;

pub use laws::states_stay;
pub use state::SymState;
pub use step::sym_step;
pub use stepped::Stepped;
pub use wb_fold::{OutOfMemory, Pages};
