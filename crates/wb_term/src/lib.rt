//! The term graph: every word and every bit that a symbolic machine holds is a numbered node over input bytes.
//!
//! A node's children have smaller numbers, and no node stands twice: `Graph::word` and `Graph::bit` give the
//! number of the one equal node, which `Graph::find_word` and `Graph::find_bit` find where it stands, and old numbers
//! keep their nodes and values. `Graph::value_word` and
//! `Graph::value_bit` give the value of a node under inputs, by recursion on smaller numbers, exactly as
//! `specs/Values.antt` has it. `nodes` has the kinds of nodes, `graph` the graph, `inputs` what the values depend
//! on, `scratch` one slot for each node, `arithmetic` and `evaluation` the values, `laws` what holds of every graph.
#![tactic(auto)]

mod arithmetic;
mod evaluation;
mod graph;
mod inputs;
mod laws;
mod nodes;
mod scratch;

pub use arithmetic::{borrows, carries, difference, sum, twice_product};
pub use graph::Graph;
pub use inputs::Inputs;
pub use laws::values_agree;
pub use nodes::{BitId, BitNode, Node, Table, WordId, WordNode};
pub use scratch::Scratch;
pub use wb_word::OutOfMemory;
