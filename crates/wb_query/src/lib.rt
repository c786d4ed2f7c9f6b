//! Checked questions: whether a bit of a term graph is true under some inputs.
//!
//! `ask` makes the formula of the bit, and tries the values under which the bit is likely true. Where they don't make
//! it true, it hands the formula to an oracle, and believes none of its answers: values are tried on the formula's
//! clauses, and derivations go to the checker. So `Found` is right for every oracle. A sound oracle is the search, as
//! `SolverOracle`; of another oracle a wrong answer is handed back as a fault. `oracles` has the oracles,
//! `satisfaction` whether values satisfy a formula, `filling` the inputs that values give, `trying` what values come
//! to, `asking` the question. `specs/Asking.antt` says what a question comes to, `specs/Oracles.antt` what an oracle
//! gives next.
#![tactic(auto)]

mod asking;
mod filling;
mod oracles;
mod satisfaction;
#[cfg(test)]
mod tests;
mod trying;

pub use asking::{AskFault, Found, ask};
pub use oracles::{Oracle, SolverOracle};
