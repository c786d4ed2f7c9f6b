//! Decision diagrams: Boolean functions of numbered variables, each a numbered node that splits at its first variable.
//!
//! A diagram's node has its children at smaller numbers and at later variables, its two children differ, and no node
//! stands twice. `Diagrams::ite` and the functions beside it give the diagram of what they say under all values of the
//! variables; old diagrams keep their values, whatever a call answers. `Diagrams::implies` and `Diagrams::disjoint`
//! decide, and make no node; their `false` too has values that show it. `Diagrams::path` leads to true from every
//! diagram but that of false, and `Diagrams::size` counts up to a limit. A call ends by the caller's steps, by the variables that it goes down, and by the limit on
//! all nodes, and each of these is an answer of its own.
//! `nodes` has the kinds of nodes, `store` the nodes that were made, `memo` what is kept of earlier choices, `choices`
//! the first variable and the branches of a choice, `diagrams` the recursion over choices, `functions` the usual
//! functions and questions, `paths` values and paths, `sizes` how many diagrams stand under one, `refused` why a diagram wasn't made, `laws` what holds of paths.
#![tactic(auto)]

mod choices;
mod diagrams;
mod functions;
mod laws;
mod memo;
mod nodes;
mod paths;
mod refused;
mod sizes;
mod store;

pub use diagrams::Diagrams;
pub use laws::paths_are_true;
pub use nodes::{Choice, Diagram, Node, Turn};
pub use refused::Refused;
pub use wb_word::OutOfMemory;
