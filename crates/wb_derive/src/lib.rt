//! Derivations, and the checker that trusts nobody.
//!
//! A derivation is a list of steps. Each has a clause, and hints that show why the formula implies it. `check` says
//! yes exactly where all steps are lawful and the last has the empty clause, and then no assignment satisfies the
//! formula. `steps` has clauses, hints, steps and derivations, `rising` literals whose variables rise, `scratch` the
//! memory of the checker, `verdicts` its answer, `checks` the checker, and `laws` what an answer means.
//! `specs/Lawful.antt` says when a step is lawful, and `specs/Verdict.antt` what a check says.
#![tactic(auto)]

mod checks;
mod laws;
mod rising;
mod scratch;
mod steps;
mod verdicts;

pub use checks::check;
pub use laws::verdicts_are_sound;
pub use scratch::CheckScratch;
pub use steps::{Clause, Derivation, Hints, Step};
pub use verdicts::Check;
