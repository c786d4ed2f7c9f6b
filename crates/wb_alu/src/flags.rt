ghost use Rattle.std.specs.Prelude.{◌≡◌, true, false};
ghost use Rattle.wb_alu.specs.Operation.{flags_after};

/// The six flags of an accumulator, as the last instruction that computed in it left them.
#[derive(Clone, Copy, PartialEq, Eq, Debug)]
pub struct Flags {
    /// Carry or borrow.
    pub c: bool,
    /// Zero.
    pub z: bool,
    /// The sign of the last result.
    pub s0: bool,
    /// The sign of the last result that found OV1 at 0: in a chain, of the first one that overflowed.
    pub s1: bool,
    /// Signed overflow of the last operation.
    pub ov0: bool,
    /// Signed overflow of a chain of operations.
    pub ov1: bool,
}

impl Flags {
    /// These flags after an addition or a subtraction with its result, carry and signed overflow.
    pub(crate) fn after_arithmetic(self, value: u16, carry: bool, overflow: bool) -> Flags
        ensures { result ≡ flags_after true value carry overflow self }
    {
        let s0 = value >> 15 == 1;
        let s1 = if self.ov1 { self.s1 } else { s0 };
        let chained = overflow && self.ov1;
        Flags {
            c: carry,
            z: value == 0,
            s0,
            s1,
            ov0: overflow,
            ov1: if chained {
                s1 == s0
            } else {
                overflow || self.ov1
            },
        }
    }

    /// These flags after any other operation with its result and carry.
    pub(crate) fn after_other(self, value: u16, carry: bool) -> Flags
        ensures { result ≡ flags_after false value carry false self }
    {
        let s0 = value >> 15 == 1;
        Flags {
            c: carry,
            z: value == 0,
            s0,
            s1: if self.ov1 { self.s1 } else { s0 },
            ov0: false,
            ov1: false,
        }
    }
}
