ghost use Rattle.std.specs.Prelude.{◌≡◌};

/// The number of a word node in its graph.
#[derive(Clone, Copy, PartialEq, Eq, Hash, Debug)]
pub struct WordId {
    pub(crate) number: u32,
}

/// The number of a bit node in its graph.
#[derive(Clone, Copy, PartialEq, Eq, Hash, Debug)]
pub struct BitId {
    pub(crate) number: u32,
}

/// One of the data tables that a graph keeps, 1024 words each.
#[derive(Clone, Copy, PartialEq, Eq, Hash, Debug)]
pub enum Table {
    First,
    Second,
}

/// A node whose value is a word of 16 bits.
#[derive(Clone, Copy, PartialEq, Eq, Hash, Debug)]
pub enum WordNode {
    Const(u16),
    /// The input byte of a place below 16.
    Byte(u8),
    /// The word of the RAM's start at a place.
    Cell(u8),
    Not(WordId),
    And(WordId, WordId),
    Or(WordId, WordId),
    Xor(WordId, WordId),
    /// The two words and the carry, cut to 16 bits.
    Sum(WordId, WordId, BitId),
    /// The first word less the second and the borrow, cut to 16 bits.
    Diff(WordId, WordId, BitId),
    /// The first word where the bit is 1, else the second.
    Ite(BitId, WordId, WordId),
    /// Shifted to the left by less than 16, filled with zeros.
    Shl(WordId, u8),
    /// Shifted to the right by less than 16, filled with zeros.
    Shr(WordId, u8),
    /// Bits 31 to 16 of twice the signed product.
    High(WordId, WordId),
    /// Bits 15 to 0 of twice the signed product.
    Low(WordId, WordId),
    /// The word of a data table at the low ten bits of a word.
    Look(Table, WordId),
}

/// A node whose value is a bit.
#[derive(Clone, Copy, PartialEq, Eq, Hash, Debug)]
pub enum BitNode {
    Known(bool),
    /// The bit of a number below 16, counted from the low end.
    Pick(WordId, u8),
    NotB(BitId),
    AndB(BitId, BitId),
    OrB(BitId, BitId),
    XorB(BitId, BitId),
    /// The second bit where the first is 1, else the third.
    IteB(BitId, BitId, BitId),
    Same(WordId, WordId),
    /// Whether the two words and the carry are over 65535.
    Carry(WordId, WordId, BitId),
    /// Whether the first word is below the second and the borrow.
    Borrow(WordId, WordId, BitId),
}

/// A node of either sort.
#[derive(Clone, Copy, PartialEq, Eq, Hash, Debug)]
pub enum Node {
    Word(WordNode),
    Bit(BitNode),
}

impl WordId {
    pub fn number(&self) -> u32
        ensures { result ≡ self.now.number }
    {
        self.number
    }
}

impl BitId {
    pub fn number(&self) -> u32
        ensures { result ≡ self.now.number }
    {
        self.number
    }
}
