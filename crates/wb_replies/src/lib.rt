//! The replies at the requests of a layer, as a circuit over all inputs, and where those of two images differ.
//!
//! A circuit says under which inputs a first request follows the dialogue of a plan, and what the host gets there by
//! a status read and by a data read. It is made of a layer's request states by a chain of choices, so its size goes
//! with their number, and never with pairs of them. Two circuits for the same dialogues, one for each image, have one
//! bit that is true exactly where a reply differs, or none where equal nodes or a constant show that none does.
//!
//! - `circuit`, `gathering`: the circuit, and how it is made of a layer (`replies`).
//! - `differences`: the bit between two circuits (`differ`), and the access that tells them apart (`differing_access`).
//! - `laws`: growth of the graph keeps circuits; the bit says the question whether the images' answers differ.
#![tactic(auto)]

mod circuit;
mod differences;
mod gathering;
mod laws;

pub use circuit::ReplyCircuit;
pub use differences::{differ, differing_access};
pub use gathering::replies;
pub use laws::{
    circuits_stay, differences_are_of_replies, differences_are_shown, differences_say_questions,
};
