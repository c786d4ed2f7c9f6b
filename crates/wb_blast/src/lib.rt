//! From terms to gates: the bits of a term graph as a formula whose satisfying assignments are the inputs.
//!
//! `count_gates` tells how many gates a bit may need. `blast` makes the formula of a bit: for all inputs it has an
//! assignment that gives them exactly where the bit is true. With it come values of the inputs under which the bit is
//! likely true, where its diagram was found. `blast_many` gives the entries of several bits in one
//! formula, and `blast_within` says what diagrams may take.
//!
//! An `Entry` is what one bit is in a formula, a `Word` what sixteen are, the lowest first. `blasting` has the
//! formulas, `meeting` the walk that meets the nodes and numbers the inputs, `building` the rows of the nodes in order
//! of number, `circuits` the circuit of one node, `rows` what the nodes are, and `places` the places of input
//! variables. `number` has the gate number and `laws` that there is one and that it is light, `children` the numbers
//! below a node and its weight. The formula in the making, in which equal functions are one literal, is that of
//! `wb_equal`. The circuits on words stand in `bitwise`, bit by bit, `shifts`, `inputs`, the words of input variables,
//! `words`, which add, subtract and compare, `products` and `lookups`. `specs/Blasting.antt` and `specs/Places.antt` say what a formula means,
//! `specs/Number.antt` what the gate number is.
#![tactic(auto)]

mod bitwise;
mod blasting;
mod building;
mod children;
mod circuits;
mod inputs;
mod laws;
mod lookups;
mod meeting;
mod number;
mod order;
mod places;
mod products;
mod rows;
mod shifts;
mod words;

pub use blasting::{Blasted, Many, blast, blast_many, blast_within};
pub use laws::{gate_numbers_agree, gate_numbers_are_light};
pub use number::count_gates;
pub use places::Place;
pub use wb_equal::{Entry, Room, Rooms};
