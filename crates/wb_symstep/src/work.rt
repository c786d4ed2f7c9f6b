use wb_fold::{Pages, SymFlags};
use wb_term::{BitId, WordId};
use wb_word::Acc;

/// The word on the bus, and the second operand of the ALU.
#[derive(Clone, Copy)]
pub(crate) struct Bus {
    pub(crate) word: WordId,
    pub(crate) operand: WordId,
}

/// The ALU's result, and the flags that it leaves.
#[derive(Clone, Copy)]
pub(crate) struct Work {
    pub(crate) value: WordId,
    pub(crate) flags: SymFlags,
}

/// An accumulator, its flags, and the carry of the other accumulator.
#[derive(Clone, Copy)]
pub(crate) struct Named {
    pub(crate) q: WordId,
    pub(crate) flags: SymFlags,
    pub(crate) other_c: BitId,
}

/// The registers that a move narrows or merges.
#[derive(Clone, Copy)]
pub(crate) struct Narrow {
    pub(crate) dp: WordId,
    pub(crate) rp: WordId,
    pub(crate) sr: WordId,
}

/// The registers that a move writes as the bus is.
#[derive(Clone, Copy)]
pub(crate) struct Plain {
    pub(crate) a: WordId,
    pub(crate) b: WordId,
    pub(crate) tr: WordId,
    pub(crate) trb: WordId,
    pub(crate) dr: WordId,
    pub(crate) so: WordId,
}

/// The inputs of the multiplier.
#[derive(Clone, Copy)]
pub(crate) struct Factors {
    pub(crate) k: WordId,
    pub(crate) l: WordId,
}

/// The inputs of the multiplier and the RAM.
#[derive(Drop)]
pub(crate) struct Memory {
    pub(crate) k: WordId,
    pub(crate) l: WordId,
    pub(crate) ram: Pages,
}

/// DP, RP and SR with its RQM.
#[derive(Clone, Copy)]
pub(crate) struct Registers {
    pub(crate) dp: WordId,
    pub(crate) rp: WordId,
    pub(crate) sr: WordId,
    pub(crate) rqm: bool,
}

/// Both accumulators with their flags.
#[derive(Clone, Copy)]
pub(crate) struct Accumulators {
    pub(crate) a: WordId,
    pub(crate) b: WordId,
    pub(crate) flags_a: SymFlags,
    pub(crate) flags_b: SymFlags,
}

/// The word on the bus, and the accumulators after the ALU's work.
#[derive(Clone, Copy)]
pub(crate) struct Worked {
    pub(crate) bus: WordId,
    pub(crate) after: Accumulators,
}

/// One of the flags of an accumulator.
#[derive(Clone, Copy)]
pub(crate) enum Flag {
    C,
    Z,
    S0,
    S1,
    Ov0,
    Ov1,
}

/// A jump that is taken where a flag has a value.
#[derive(Clone, Copy)]
pub(crate) struct FlagTest {
    pub(crate) acc: Acc,
    pub(crate) flag: Flag,
    pub(crate) set: bool,
}

/// The words 0 and 3FF, and a clear bit.
#[derive(Clone, Copy)]
pub(crate) struct Constants {
    pub(crate) zero: WordId,
    pub(crate) last: WordId,
    pub(crate) clear: BitId,
}
