//! The text of a verdict.
//!
//! `verdict_text` gives the bytes that a comparison prints. They are those of `specs/Verdicts.antt`: a line for the
//! verdict and, where there is one, the dialogue that shows it, with the replies that its run gives. `specs/Said.antt`
//! says what these are, `specs/Dialogues.antt` how a dialogue is printed, and `specs/Digits.antt` how numbers are.
//!
//! - `digits`: one line, and what is appended to it.
//! - `heard`: the replies to a dialogue, of one side or of both; `saying` finds them by replays.
//! - `dialogues`: the lines of a dialogue.
//! - `verdicts`: the text of each verdict.
//! - `laws`: each verdict has one text.
#![tactic(auto)]

mod dialogues;
mod digits;
mod heard;
mod laws;
mod saying;
#[cfg(test)]
mod tests;
mod verdicts;

pub use laws::verdicts_have_one_text;
pub use saying::said_until_end;
pub use verdicts::verdict_text;
