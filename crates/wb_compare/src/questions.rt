use wb_explore::Budget;
use wb_port::{Power, Shape};

/// Which dialogues are compared, and how much may be spent on it.
#[derive(Drop)]
pub struct Question {
    /// The most transfers of a dialogue, 16 at most.
    pub n: u8,
    /// The pace: the most instructions of a chip between two requests, from 1 to 8,191.
    pub k: u16,
    /// One letter for each transfer.
    pub shape: Shape,
    pub power: Power,
    pub budget: Budget,
}
