/// Why a diagram wasn't made.
#[derive(Clone, Copy, PartialEq, Eq, Debug)]
pub enum Refused {
    /// The allocator had no room.
    Memory,
    /// There are as many nodes as there may be.
    Full,
    /// The steps that the caller gave are spent.
    Spent,
    /// More variables follow each other than a call goes down.
    Deep,
}
