//! Formulas: gates over variables, and the clauses that say what the gates are.
//!
//! A formula is seen as a `Circuit`: its inputs, its gates in order and its goal. `Formula::add` gives the literal of
//! a gate and what it means, `Formula::clause_at` one clause after the other. `gates` has literals, gates and goals,
//! `rows` a gate as it is kept, `clauses` the clauses of one gate, `formulas` the formula, and `laws` what the clauses
//! say. `specs/Circuit.antt` has the circuit and its values, `specs/Clauses.antt` the clauses.
#![tactic(auto)]

mod clauses;
mod formulas;
mod gates;
mod laws;
mod rows;

pub use clauses::GateClause;
pub use formulas::{Formula, GateFault};
pub use gates::{Gate, Goal, Lit};
pub use laws::{clauses_say_the_gates, inputs_decide};
