//! Tests of what answers questions about bits: gates, derivations and their checker, the search, decision diagrams,
//! equal gates, and circuits of words.
//!
//! They stand in a crate of their own, so that the crates that they call are proved once and not again for their
//! tests. Each test module has the name of the crate whose calls it tests; `rooms` has random terms whose diagrams may
//! take little. `nodes` has small graphs and a node of each kind, `draws` what looks random.
#![tactic(auto)]

#[cfg(test)]
mod blast;
#[cfg(test)]
mod derive;
#[cfg(test)]
mod diagram;
mod draws;
#[cfg(test)]
mod equal;
#[cfg(test)]
mod gate;
mod nodes;
#[cfg(test)]
mod rooms;
#[cfg(test)]
mod solve;

pub use draws::Draws;
pub use nodes::{bit_node, empty_graph, three_nodes, word_node};
