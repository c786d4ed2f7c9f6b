//! The numbers and options of a command line, and the question that they ask.
//!
//! `number_in` reads a number in its range. `question_in` reads how many transfers, which pace and which options a
//! comparison is given: exactly `question_of` of `specs/Questions.antt`, which stands on the options of
//! `specs/Options.antt` and the numbers of `specs/Numbers.antt`. None of these calls takes memory.
//!
//! - `numbers`: decimal numbers.
//! - `options`: words of a key and its value; each key is given once at most.
//! - `values`: what the values of the four keys say.
//! - `comparisons`: the question.
#![tactic(auto)]

mod comparisons;
mod numbers;
mod options;
#[cfg(test)]
mod tests;
mod values;

pub use comparisons::{Comparison, question_in};
pub use numbers::number_in;
