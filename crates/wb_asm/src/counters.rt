//! The counters before a statement.

/// The places of the next words, of the program memory and of the data memory.
#[derive(Clone, Copy)]
pub struct Counters {
    pub prog: u16,
    pub drom: u16,
}
