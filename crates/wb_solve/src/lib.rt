//! The search for values that satisfy a formula, or for a derivation of the empty clause.
//!
//! The search makes descents, one after the other. A descent makes the literals of unit clauses true, and assumes
//! the first input without a value false, until a clause is falsified or all inputs have values. The clause of the
//! negated assumptions is then the next step. The next descent makes the same assumptions but the last, so it goes on
//! from there.
//!
//! `trail` has the literals that were made true. No clause is kept: `links` finds the gates that name a variable,
//! `judging` says what the clauses of a gate come to, `asserting` makes the literal of the goal true, and `propagation`
//! the literals of unit clauses, from gate to gate. Steps aren't visited: a later step makes each of them true, or its
//! own literal does.
//! `decisions` assumes and goes back, `marks` and `hints` find the clauses on which a conflict rests, and `answers`
//! makes steps and values of the end of a descent. `search` has the search and its answer, `values` the values that it
//! gives, and `laws` what is true of every search. `specs/Descent.antt` has the descent as a relation,
//! `specs/Search.antt` the search, and `specs/Answers.antt` what an answer says.
#![tactic(auto)]

mod answers;
mod asserting;
mod decisions;
mod hints;
mod judging;
mod laws;
mod links;
mod marks;
mod propagation;
mod search;
mod trail;
mod values;

pub use laws::{
    order_is_free, outcomes_are_one, propagation_is_confluent, stable_values_satisfy, steps_are_few,
};
pub use search::{Answer, solve};
pub use values::Values;
