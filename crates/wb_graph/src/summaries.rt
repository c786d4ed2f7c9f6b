//! What is known of a node.
use crate::places::Places;
use wb_diagram::Diagram;
use wb_vector::Vector;

/// What a node says, as diagrams.
#[derive(Clone, Copy, PartialEq, Eq, Debug)]
pub enum Function {
    /// Those of a word's bits, the lowest first.
    Word(Vector),
    /// That of a bit.
    Bit(Diagram),
}

/// What is known of a node.
#[derive(Clone, Copy, PartialEq, Eq, Debug)]
pub struct Summary {
    /// Which input bytes stand under it.
    pub places: Places,
    /// What it says, where that was made within limits.
    pub function: Option<Function>,
}
