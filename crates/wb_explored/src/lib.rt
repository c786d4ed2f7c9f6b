//! Tests of the explorer, beside dialogues that are tried one by one, and of comparisons: replies told apart, and
//! verdicts on small images. They stand in a crate of their own, so that the explorer and the comparison are proved
//! once and not again for their tests.
//!
//! `exploring` leads an exploration through the kinds of a dialogue, one transfer after the other; `counting` counts
//! how often an oracle is asked. `purses` has tests of reached points and purses, `replies` and `compare` those of the
//! crates of these names. In `tests`, `cases` has the programs, `enumeration` the dialogues that are tried one by one,
//! `points` and `requests` compare what the explorer found with what these dialogues do, and `oracles` has oracles that
//! spend, and that lie.
#![tactic(auto)]

#[cfg(test)]
mod compare;
mod counting;
mod exploring;
#[cfg(test)]
mod purses;
#[cfg(test)]
mod replies;
#[cfg(test)]
mod tests;

pub use counting::Counting;
pub use exploring::{Explored, Setting, explore};
