//! Tests of the chip, whose words are known or symbolic: words, instructions, the host port, dialogues, runs and points,
//! demo pairs; steps and accesses of the symbolic chip beside those of the machine, keys, merges and questions.
//!
//! They stand in a crate of their own, so that the crates that they call are proved once and not again for their
//! tests. Each test module has the name of the crate whose calls it tests, but `coding`, for the fields of a word,
//! `lazy`, for schedules of lazy hosts beside runs of the eager one, and `pairs`, for demo pairs. `states` has symbolic
//! states and kinds to work with.
#![tactic(auto)]

#[cfg(test)]
mod coding;
#[cfg(test)]
mod lazy;
#[cfg(test)]
mod machine;
#[cfg(test)]
mod pairs;
#[cfg(test)]
mod point;
#[cfg(test)]
mod port;
mod states;
#[cfg(test)]
mod symport;
#[cfg(test)]
mod symstep;
#[cfg(test)]
mod word;

pub use states::{Two, three_kinds, two_states};
