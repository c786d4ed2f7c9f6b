//! The graph of terms in which equal functions have one number.
//!
//! `Graph` is a term graph that knows of each node what its bits are as functions of the input bytes, as decision
//! diagrams. A word or a bit that is asked for is the older node of the same function where that has no input that
//! the operands lack, or a constant, or one new node. So conditions that exclude each other become the constant false,
//! and what is computed in two ways is computed once.
//!
//! `places` has which bytes stand under a node, `order` which variables the bits of bytes and of nodes have, `rooms`
//! what diagrams may take, `summaries` what is known of a node, `functions` what is known of all of them, with `words`
//! and `bits` for the functions of words and of bits, `under` which bytes stand under a node to be made, `alike` the
//! choice between an older node, a constant and a new node, `graph` the graph, and `reading` what is read of it, as of
//! its terms. `specs/Worlds.antt` says what the variables stand for, `specs/Functions.antt` what is right.
#![tactic(auto)]

mod alike;
mod bits;
mod functions;
mod graph;
mod order;
mod places;
mod reading;
mod rooms;
mod summaries;
mod under;
mod words;

pub use graph::Graph;
pub use order::Order;
pub use places::Places;
pub use rooms::{Room, Rooms};
pub use summaries::{Function, Summary};
pub use wb_word::OutOfMemory;

#[cfg(test)]
mod steps;
#[cfg(test)]
mod tests;
