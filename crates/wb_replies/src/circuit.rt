use wb_term::{BitId, WordId};

/// What the host gets at the first request after the dialogues of a plan, over all inputs.
#[derive(Clone, Copy, Debug, PartialEq, Eq)]
pub struct ReplyCircuit {
    /// Whether a first request follows.
    pub present: BitId,
    /// The byte of a status read, where a request follows.
    pub status: WordId,
    /// The byte of a data read, where a request follows.
    pub read: WordId,
}
