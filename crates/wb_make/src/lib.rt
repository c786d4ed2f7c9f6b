//! Constructors of the term graph: one for each kind of node.
//!
//! Each gives a node that has the value of its kind under all inputs, but an older or a smaller one where a rule of
//! `docs/terms.md` tells it. None brings in an input node of its own, and each adds at most one node, no heavier
//! than its kind. A constructor first decides on a form by reading the graph alone, and then makes it: `forms` has the
//! forms, older nodes or ones to make. `leaves` has the constants and the inputs, `words` NOT, AND, OR and XOR, with
//! the rules of the last three in `conjunctions` and `disjunctions`; `shifts`, `sums`, `choices` and `products`, with
//! the look-ups, have the other words, `bits`, `picks` and `comparisons` the other bits.
#![tactic(auto)]

mod bits;
mod choices;
mod comparisons;
mod conjunctions;
mod disjunctions;
mod forms;
mod leaves;
mod picks;
mod products;
mod shifts;
mod sums;
mod words;

pub use bits::{mk_andb, mk_iteb, mk_notb, mk_orb, mk_xorb};
pub use choices::mk_ite;
pub use comparisons::{mk_borrow, mk_carry, mk_same};
pub use leaves::{mk_byte, mk_cell, mk_const, mk_known};
pub use picks::mk_pick;
pub use products::{mk_high, mk_look, mk_low};
pub use shifts::{mk_shl, mk_shr};
pub use sums::{mk_diff, mk_sum};
pub use wb_term::OutOfMemory;
pub use words::{mk_and, mk_not, mk_or, mk_xor};
