//! Runs of host scripts on an image, and what they come to.
//!
//! `run_script` gives the one transcript of a script: a line for each item that was answered, and how the run
//! ended. `play_script` gives the machine too, which made exactly the events of the transcript; `play` does so in
//! room that was taken, and can't be refused.
//! `transcript_text` is the text of a transcript, and `write_transcript` writes it where there is room, and can't be
//! refused. `transcripts.rt` has the types, `course.rt` the run, `texts.rt` the text of one line, `reports.rt` the
//! whole text, `laws.rt` that each script has exactly one transcript.
//! `specs/Transcript.antt` relates items and lines, and `specs/Texts.antt` says which bytes a line has.
#![tactic(auto)]

mod course;
mod laws;
mod reports;
mod texts;
mod transcripts;

pub use course::{Session, play, play_script, run_script};
pub use laws::each_script_has_one_transcript;
pub use reports::{END_BYTES, LINE_BYTES, transcript_text, write_transcript};
pub use texts::LineText;
pub use transcripts::{Ended, Line, Lines, Transcript};

#[cfg(test)]
mod tests;
