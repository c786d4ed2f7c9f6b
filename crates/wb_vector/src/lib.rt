//! Words of sixteen decision diagrams, and the operations on them with their values under all assignments.
//!
//! A `Vector` is what the bits of a word are as functions of variables, the lowest first. Each operation takes of the
//! caller's steps for the diagrams that it makes, and gives up as a diagram does; what was there before keeps its
//! values, whatever a call answers. `specs/Vectors.antt` says what number a vector stands for.
//! `bitwise` has the operations that work bit by bit, the words of numbers and those of variables, `shifts` the words
//! that are moved and their bits, `lookups` the words of data tables, `known` what is told of a bit or a word without
//! making a diagram, `sums` sums and differences with their carries, `equality` where two words are equal.
#![tactic(auto)]

mod bitwise;
mod equality;
mod known;
mod lookups;
mod shifts;
mod sums;

pub use bitwise::{Operation, Vector, combine_words, constant_word, inverted, variables};
pub use equality::same_of;
pub use known::{bit_where, known_bit, known_word, word_where};
pub use lookups::look;
pub use shifts::{picked, shifted_left, shifted_right};
pub use sums::{borrow_of, carry_of, difference_of, sum_of};

#[cfg(test)]
mod tests;
