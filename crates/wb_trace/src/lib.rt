//! Two images side by side, moved by hand, with moves taken back.
//!
//! `read_moves` reads a moves file. `Trace` has the two chips and the pairs before them; `Trace::apply` makes one
//! move, and `trace_text` makes all moves of a file and gives what came of them as a text. `moves` has the moves,
//! `answers` what comes of one and the text of it, `digits` letters and hexadecimal digits at the end of a text,
//! `chips` the two chips, `traces` the trace, `reader` the file, `reports` the whole text, and `laws` that a trace
//! follows its moves. `specs/Standing.antt` says which moves stand and what comes of each, with no word of how the
//! pairs are kept.
#![tactic(auto)]

mod answers;
mod chips;
mod digits;
mod laws;
mod moves;
mod reader;
mod reports;
#[cfg(test)]
mod tests;
mod traces;

pub use answers::{Line, Moved};
pub use chips::Chips;
pub use digits::LineText;
pub use laws::{each_text_has_one_answer, traces_follow_their_moves, undos_give_back};
pub use moves::{Move, Moves};
pub use reader::{MovesFault, read_moves};
pub use reports::{MOVE_BYTES, report, trace_text};
pub use traces::Trace;
