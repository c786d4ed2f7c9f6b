use wb_term::BitId;

/// The six flags of an accumulator, as bits of a graph.
#[derive(Clone, Copy, PartialEq, Eq, Debug)]
pub struct SymFlags {
    pub c: BitId,
    pub z: BitId,
    pub s0: BitId,
    pub s1: BitId,
    pub ov0: BitId,
    pub ov1: BitId,
}
