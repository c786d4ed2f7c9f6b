//! The comparison: whether two images answer their host alike in every dialogue of a question.
//!
//! - `questions`: which dialogues, and how much may be spent.
//! - `verdicts`: what a comparison comes to, and why it may have no verdict.
//! - `comparing`: `compare`, level by level.
//!
//! The private files: `working` has what a comparison holds on its way; `sides` follows one side; `circuits` and
//! `settling` ask whether the replies of both sides differ; `levels` goes through all kinds of dialogues, of which
//! `pairs` has the layers; `shapes` says which transfers may follow; `endings` turns faults into verdicts; `facts` has
//! what the proofs take from the crates below.
//!
//! In `specs/`: `Questions` has the dialogues of a question, `Verdicts` what each verdict says, `Licences` why a
//! question may be left open. The comparison itself goes by `Growing` (lists of kinds), `Settled` (what is settled of
//! some kinds), `Working` (what holds all along), `Telling` (circuits of replies) and `Endings`.
#![tactic(auto)]

mod circuits;
mod comparing;
mod endings;
mod facts;
mod levels;
mod pairs;
mod questions;
mod settling;
mod shapes;
mod sides;
mod verdicts;
mod working;

pub use comparing::compare;
pub use questions::Question;
pub use verdicts::{CompareFault, Pace, Spent, Verdict};
