use wb_port::{Kinds, Power};
use wb_word::Side;

/// What one call explores: the dialogues of some kinds of transfers, on one side, at a pace and a power.
#[derive(Drop)]
pub struct Plan {
    pub side: Side,
    pub pace: u16,
    pub power: Power,
    pub kinds: Kinds,
}
