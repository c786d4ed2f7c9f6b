ghost use Rattle.std.specs.Prelude.{◌≡◌, ℕ, ◌%◌, ◌^◌, ◌<◌};
ghost use Rattle.wb_word.specs.Encoding.{fields, instr_of, number};

use crate::codes::{Acc, Alu, Dpl, Dst, P, Src};
use crate::conditions::Cond;
use crate::numbers::{Addr, Nibble, Spare, Word};
use crate::words::{Instr, OpWord};

/// The one instruction of a word. Every word has one.
pub fn decode(word: Word) -> Instr
    ensures value { result ≡ instr_of word.value }
    ensures number { number result ≡ word.value }
    ensures only { (i : Instr) → number i ≡ word.value → i ≡ result }
{
    instruction(word.value)
}

/// The one word of an instruction.
pub fn encode(instr: &Instr) -> Word
    ensures value { result.value ≡ number instr.now }
    ensures instr { instr_of result.value ≡ instr.now }
    ensures only { (w : Word) → instr_of w.value ≡ instr.now → w ≡ result }
{
    Word {
        value: instruction_bits(instr),
    }
}

/// `number` and `instr_of` are inverse, and so are `encode` and `decode`.
#[tactic(auto, using(crate::proofs::Inverse::inverse))]
pub fn coding_laws()
    ensures word { (n : ℕ) → n < 2 ^ 24 → number (instr_of n) ≡ n }
    ensures instr { (i : Instr) → number i < 2 ^ 24 → instr_of (number i) ≡ i }
{}

fn instruction(bits: u32) -> Instr
    requires { bits < 2 ^ 24 }
    ensures { number result ≡ bits }
{
    match bits >> 22 {
        0 => Instr::Op(operation(bits)),
        1 => Instr::Rt(operation(bits)),
        2 => Instr::Jp {
            cond: Cond::from_code((bits >> 13 & 0x1FF) as u16),
            na: Addr {
                value: (bits >> 2 & 0x7FF) as u16,
            },
            spare: Spare {
                value: (bits & 0x3) as u8,
            },
        },
        _ => Instr::Ld {
            value: (bits >> 6 & 0xFFFF) as u16,
            spare: Spare {
                value: (bits >> 4 & 0x3) as u8,
            },
            dst: Dst::from_code(bits & 0xF),
        },
    }
}

fn instruction_bits(instr: &Instr) -> u32
    ensures value { result ≡ number instr.now }
    ensures below { result < 2 ^ 24 }
{
    match *instr {
        Instr::Op(op) => operation_bits(&op),
        Instr::Rt(op) => (1 << 22) + operation_bits(&op),
        Instr::Jp { cond, na, spare } => {
            (2 << 22)
                + (u32::from(cond.code()) << 13)
                + (u32::from(na.value) << 2)
                + u32::from(spare.value)
        },
        Instr::Ld { value, spare, dst } => {
            (3 << 22) + (u32::from(value) << 6) + (u32::from(spare.value) << 4) + dst.code()
        },
    }
}

// The fields in the 22 low bits.
fn operation(bits: u32) -> OpWord
    ensures { fields result ≡ bits % 2 ^ 22 }
{
    OpWord {
        p: P::from_code(bits >> 20 & 0x3),
        alu: Alu::from_code(bits >> 16 & 0xF),
        acc: Acc::from_code(bits >> 15 & 0x1),
        dpl: Dpl::from_code(bits >> 13 & 0x3),
        dphm: Nibble {
            value: (bits >> 9 & 0xF) as u8,
        },
        rpdec: bits >> 8 & 1 == 1,
        src: Src::from_code(bits >> 4 & 0xF),
        dst: Dst::from_code(bits & 0xF),
    }
}

// The 22 low bits of the fields.
fn operation_bits(op: &OpWord) -> u32
    ensures value { result ≡ fields op.now }
    ensures below { result < 2 ^ 22 }
{
    (op.p.code() << 20)
        + (op.alu.code() << 16)
        + (op.acc.code() << 15)
        + (op.dpl.code() << 13)
        + (u32::from(op.dphm.value) << 9)
        + (u32::from(op.rpdec) << 8)
        + (op.src.code() << 4)
        + op.dst.code()
}
