//! The command line of the workbench: `command` takes the words after the program's name, reads the files that
//! they name from a shelf, does the work, and puts one whole report to a sink.
//!
//! Its clause `answers` is the relation `Answers` of `specs/Answers.antt`: the call came to an outcome, or was refused at
//! the first step that failed, with its cause (`specs/Outcome.antt`), and that decides the report (`specs/Report.antt`)
//! and the exit status. `specs/Files.antt` and `specs/Checks.antt` say how files are read and checked, for all commands
//! alike. A new command is one more case of `Plan`, of `Task` with `Makes`, and of `Outcome` with its report.
//! `plans.rt` reads the words, with `depths.rt`; `files.rt` reads the files, `checks.rt` checks their
//! contents, `works.rt` and `comparing.rt` do the work; `outcomes.rt` with `texts.rt` and `refusals.rt` have what a call comes to,
//! `replies.rt` its report, `statuses.rt` the exit statuses; `top.rt` has the call itself, and `laws.rt` what follows for
//! every call.
#![tactic(auto)]

mod checks;
mod comparing;
mod depths;
mod files;
mod laws;
mod outcomes;
mod plans;
mod refusals;
mod replies;
mod statuses;
#[cfg(test)]
mod tests;
mod texts;
mod top;
mod works;

pub use laws::{
    budgets_suffice, calls_have_one_answer, comparisons_tell, counts_tell_faults, demos_keep_pace,
    valid_calls_get_through,
};
pub use statuses::Status;
pub use top::command;
