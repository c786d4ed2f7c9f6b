use wb_term::BitId;

/// A bit of an address and its opposite.
#[derive(Clone, Copy, PartialEq, Eq, Debug)]
pub struct AddressBit {
    pub(crate) set: BitId,
    pub(crate) clear: BitId,
}
