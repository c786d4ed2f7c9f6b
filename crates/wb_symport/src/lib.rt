//! The host's accesses to a symbolic chip: status read, data read and data write, for all inputs at once.
//!
//! Under any inputs for which a state stands for a machine, the chosen result stands for the machine after the
//! access, and the word given has the byte that the host gets. An access forks on DRC alone, and only where that
//! isn't known. `port` has the three accesses; the private `halves` has the halves of words that they give and
//! replace, `status` the status byte, and `after` the state after a transfer.
#![tactic(auto)]

mod after;
mod halves;
mod port;
mod status;

pub use port::{sym_read, sym_status, sym_write};
pub use wb_symstep::{OutOfMemory, Stepped, SymState};
