//! What a host does with the chip, one thing after another.

/// One action of a host script.
#[derive(Clone, Copy, PartialEq, Eq, Debug)]
pub enum Item {
    /// Lets the chip execute instructions until a request stands, at most this many: none where one stands already.
    Wait(u16),
    /// Lets the chip execute exactly this many instructions.
    Step(u16),
    /// Reads the upper byte of the status register.
    Status,
    /// Reads a byte of the data register; the chip's request must stand.
    Read,
    /// Writes this byte to the data register; the chip's request must stand.
    Write(u8),
}
