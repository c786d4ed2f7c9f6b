use crate::state::SymState;
use wb_term::BitId;

/// What comes of a state: one state, or one of two by a condition.
#[derive(Drop)]
pub enum Stepped {
    One(SymState),
    Fork {
        cond: BitId,
        yes: SymState,
        no: SymState,
    },
}
