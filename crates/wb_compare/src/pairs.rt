//! The layers of both sides for one list of kinds, and all of them of one length.
use wb_explore::Layer;

/// The layers of both sides for the dialogues of some kinds.
#[derive(Drop)]
pub(crate) struct Pair {
    pub first: Layer,
    pub second: Layer,
}

/// The pairs of layers of all dialogues of so many transfers that may go on.
#[derive(Drop)]
pub(crate) struct Level {
    pub depth: u8,
    pub pairs: Vec<Pair>,
}
