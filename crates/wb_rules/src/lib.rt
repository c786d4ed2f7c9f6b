//! Tests of the term graph and its constructors: each kind of node, and each rule of `docs/terms.md` with a row of its
//! own; and that an operation or a RAM gives equal work one number.
//!
//! They stand in a crate of their own, so that the constructors are proved once and not again for their tests. `made`
//! has nodes to begin with and one constructor a step, `tests` the tables; `term` and `fold` have the tests of the
//! crates of these names.
#![tactic(auto)]

#[cfg(test)]
mod fold;
mod made;
#[cfg(test)]
mod term;
#[cfg(test)]
mod tests;
