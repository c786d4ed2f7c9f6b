//! What a check says.

/// What a check says of a derivation.
#[derive(Clone, Copy, PartialEq, Eq, Debug)]
pub enum Check {
    /// All steps are lawful, and the last has the empty clause.
    Yes,
    /// The first step that is unlawful, counted from 1, or the number after the last step, where all are lawful and
    /// the last hasn't the empty clause or there is none.
    No(u64),
}
