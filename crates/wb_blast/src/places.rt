//! Places of input variables.

/// A bit of an input byte or of a word of the RAM's start: the place, and the number of the bit from the low end.
#[derive(Clone, Copy, PartialEq, Eq, Debug)]
pub enum Place {
    Byte(u8, u8),
    Cell(u8, u8),
}
