//! The ALU of the µPD77C25: sixteen operations on an accumulator, with its six flags.
//!
//! `alu` gives exactly the result and the flags of the table in `specs/Operation.antt`, which is written over
//! exact whole and signed numbers. `flags` has the flags and the rules that chain them, `operate` the
//! operations. No call takes memory.
#![tactic(auto)]

mod flags;
mod operate;

pub use flags::Flags;
pub use operate::alu;

#[cfg(test)]
mod tests {
    use super::*;
    use wb_word::Alu;

    const CLEAR: Flags = Flags {
        c: false,
        z: false,
        s0: false,
        s1: false,
        ov0: false,
        ov1: false,
    };

    const SET: Flags = Flags {
        c: true,
        z: true,
        s0: true,
        s1: true,
        ov0: true,
        ov1: true,
    };

    const CARRY: Flags = Flags { c: true, ..CLEAR };

    const ZERO: Flags = Flags { z: true, ..CLEAR };

    const CARRY_ZERO: Flags = Flags {
        c: true,
        z: true,
        ..CLEAR
    };

    const NEGATIVE: Flags = Flags {
        s0: true,
        s1: true,
        ..CLEAR
    };

    const BORROWED: Flags = Flags {
        c: true,
        s0: true,
        s1: true,
        ..CLEAR
    };

    const OVER: Flags = Flags {
        s0: true,
        s1: true,
        ov0: true,
        ov1: true,
        ..CLEAR
    };

    const UNDER: Flags = Flags {
        ov0: true,
        ov1: true,
        ..CLEAR
    };

    const KEPT_SIGN: Flags = Flags { s1: true, ..CLEAR };

    #[test]
    fn operations_agree_with_the_table(rt: HostRuntime) {
        for (op, q, p, other_c, before, value, after) in [
            (Alu::Nop, 0x1234, 0x5678, true, SET, 0x1234, SET),
            (Alu::Nop, 0x0000, 0x5678, true, CLEAR, 0x0000, CLEAR),
            (Alu::Or, 0x00F0, 0x0F0F, true, SET, 0x0FFF, KEPT_SIGN),
            (Alu::Or, 0x8000, 0x0001, false, CLEAR, 0x8001, NEGATIVE),
            (Alu::And, 0xF0F0, 0x0F0F, true, CLEAR, 0x0000, ZERO),
            (Alu::Xor, 0xAAAA, 0x2AAA, true, CARRY, 0x8000, NEGATIVE),
            (Alu::Sub, 0x0005, 0x0003, true, CARRY, 0x0002, CLEAR),
            (Alu::Sub, 0x0003, 0x0005, false, CLEAR, 0xFFFE, BORROWED),
            (Alu::Sub, 0x8000, 0x0001, false, CLEAR, 0x7FFF, UNDER),
            (
                Alu::Sub,
                0x7FFF,
                0xFFFF,
                false,
                CLEAR,
                0x8000,
                Flags { c: true, ..OVER },
            ),
            (Alu::Add, 0xFFFF, 0x0001, true, CLEAR, 0x0000, CARRY_ZERO),
            (Alu::Add, 0x7FFF, 0x0001, false, CLEAR, 0x8000, OVER),
            (Alu::Sbb, 0x0005, 0x0003, true, CLEAR, 0x0001, CLEAR),
            (Alu::Sbb, 0x0005, 0x0003, false, CARRY, 0x0002, CLEAR),
            (Alu::Sbb, 0x0000, 0x0000, true, CLEAR, 0xFFFF, BORROWED),
            (Alu::Sbb, 0x8000, 0x0000, true, CLEAR, 0x7FFF, UNDER),
            (Alu::Sbb, 0x0000, 0xFFFF, true, CLEAR, 0x0000, CARRY_ZERO),
            (Alu::Adc, 0x0001, 0x0001, false, CARRY, 0x0002, CLEAR),
            (Alu::Adc, 0xFFFF, 0x0000, true, CLEAR, 0x0000, CARRY_ZERO),
            (Alu::Adc, 0x7FFF, 0x0000, true, CLEAR, 0x8000, OVER),
            (Alu::Adc, 0xFFFF, 0xFFFF, true, CLEAR, 0xFFFF, BORROWED),
            (Alu::Dec, 0x0000, 0x1234, true, CLEAR, 0xFFFF, BORROWED),
            (Alu::Dec, 0x8000, 0x1234, true, CLEAR, 0x7FFF, UNDER),
            (Alu::Inc, 0xFFFF, 0x1234, true, CLEAR, 0x0000, CARRY_ZERO),
            (Alu::Inc, 0x7FFF, 0x1234, true, CLEAR, 0x8000, OVER),
            (Alu::Cmp, 0x00FF, 0x1234, true, CARRY, 0xFF00, NEGATIVE),
            (Alu::Cmp, 0xFFFF, 0x1234, true, CLEAR, 0x0000, ZERO),
            (Alu::Shr1, 0x8001, 0x1234, false, CLEAR, 0xC000, BORROWED),
            (Alu::Shr1, 0x7FFE, 0x1234, true, CARRY, 0x3FFF, CLEAR),
            (Alu::Shl1, 0x8000, 0x1234, true, CLEAR, 0x0001, CARRY),
            (Alu::Shl1, 0x4000, 0x1234, false, CARRY, 0x8000, NEGATIVE),
            (Alu::Shl2, 0xC000, 0x1234, false, CARRY, 0x0003, CLEAR),
            (Alu::Shl2, 0x2001, 0x1234, false, CLEAR, 0x8007, NEGATIVE),
            (Alu::Shl4, 0xF000, 0x1234, false, CARRY, 0x000F, CLEAR),
            (Alu::Shl4, 0x0801, 0x1234, false, CLEAR, 0x801F, NEGATIVE),
            (Alu::Xchg, 0x1234, 0x5678, true, SET, 0x3412, KEPT_SIGN),
            (Alu::Xchg, 0x00FF, 0x5678, true, CARRY, 0xFF00, NEGATIVE),
        ] {
            assert_eq!(rt;
                alu(op, q, p, other_c, before),
                (value, after),
                "{op:?} of {q} and {p}"
            );
        }
    }

    #[test]
    fn signs_and_overflows_chain(rt: HostRuntime) {
        for (q, p, before, value, after) in [
            (0x7FFF, 0x0001, CLEAR, 0x8000, OVER),
            // the second overflow undoes the first: S1 stays, and differs from the new S0
            (
                0x8000,
                0x8000,
                OVER,
                0x0000,
                Flags {
                    s1: true,
                    ov0: true,
                    ..CARRY_ZERO
                },
            ),
            // a second overflow to the same side
            (0x7FFF, 0x7FFF, OVER, 0xFFFE, OVER),
            // no second overflow: OV1 stays
            (
                0x0001,
                0x0001,
                OVER,
                0x0002,
                Flags {
                    s1: true,
                    ov1: true,
                    ..CLEAR
                },
            ),
            // without an old OV1 the sign is taken anew
            (0x0001, 0x0001, NEGATIVE, 0x0002, CLEAR),
        ] {
            assert_eq!(rt;
                alu(Alu::Add, q, p, true, before),
                (value, after),
                "{q} and {p}"
            );
        }
    }
}
