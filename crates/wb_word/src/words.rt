use crate::codes::{Acc, Alu, Dpl, Dst, P, Src};
use crate::conditions::Cond;
use crate::numbers::{Addr, Nibble, Spare};

/// The fields of an instruction that computes and moves.
#[derive(Clone, Copy, PartialEq, Eq, Debug)]
pub struct OpWord {
    /// The second operand of the ALU.
    pub p: P,
    pub alu: Alu,
    /// The accumulator that the ALU works on.
    pub acc: Acc,
    /// What happens to the low four bits of DP.
    pub dpl: Dpl,
    /// What is XORed into the high four bits of DP.
    pub dphm: Nibble,
    /// Whether RP becomes RP - 1.
    pub rpdec: bool,
    pub src: Src,
    pub dst: Dst,
}

/// One instruction. Every word of 24 bits is one, and every instruction is one word.
#[derive(Clone, Copy, PartialEq, Eq, Debug)]
pub enum Instr {
    /// Computes and moves.
    Op(OpWord),
    /// Does what `Op` does, then returns to the address on the stack.
    Rt(OpWord),
    /// Jumps to `na` where the condition holds. The spare bits have no effect.
    Jp { cond: Cond, na: Addr, spare: Spare },
    /// Moves `value` to the destination. The spare bits have no effect.
    Ld { value: u16, spare: Spare, dst: Dst },
}
