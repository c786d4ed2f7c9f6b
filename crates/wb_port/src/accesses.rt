/// One access of the host to its port.
#[derive(Clone, Copy, PartialEq, Eq, Debug)]
pub enum Access {
    /// Bits 15 to 8 of the status register are read.
    Status,
    /// One byte of DR is read.
    Read,
    /// One byte of DR is written.
    Write(u8),
}

/// One event of a schedule: the chip and its host are the two actors.
#[derive(Clone, Copy, PartialEq, Eq, Debug)]
pub enum Event {
    /// The chip executes one whole instruction.
    Step,
    /// The host makes one access.
    Host(Access),
}

/// The direction of a data transfer, seen from the host.
#[derive(Clone, Copy, PartialEq, Eq, Debug)]
pub enum Kind {
    Read,
    Write,
}

/// What a shape allows at one place.
#[derive(Clone, Copy, PartialEq, Eq, Debug)]
pub enum Letter {
    /// A read alone.
    R,
    /// A write alone.
    W,
    /// A read or a write.
    X,
}

/// Which contents the data RAM may have at power-up.
#[derive(Clone, Copy, PartialEq, Eq, Debug)]
pub enum Power {
    /// Zeros alone.
    Zero,
    /// Any.
    Any,
}
