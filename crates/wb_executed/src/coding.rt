ghost use Rattle.std.specs.Prelude.{◌≡◌, ◌<◌};

use wb_word::{
    Acc, Addr, Alu, Cond, Dpl, Dst, Instr, Nibble, OpWord, OtherCode, P, Spare, Src, Word, decode,
    encode,
};

// The fields of the word 000000.
fn idle() -> OpWord {
    OpWord {
        p: P::Ram,
        alu: Alu::Nop,
        acc: Acc::A,
        dpl: Dpl::DpNop,
        dphm: Nibble { value: 0 },
        rpdec: false,
        src: Src::Trb,
        dst: Dst::Non,
    }
}

fn moved(dst: Dst, src: Src) -> Instr {
    Instr::Op(OpWord { dst, src, ..idle() })
}

fn computed(alu: Alu, acc: Acc, p: P, src: Src) -> Instr {
    Instr::Op(OpWord {
        alu,
        acc,
        p,
        src,
        ..idle()
    })
}

fn full() -> OpWord {
    OpWord {
        p: P::N,
        alu: Alu::Xchg,
        acc: Acc::B,
        dpl: Dpl::DpClr,
        dphm: Nibble { value: 15 },
        rpdec: true,
        src: Src::Mem,
        dst: Dst::Mem,
    }
}

fn jump(cond: Cond, na: u16, spare: u8) -> Instr
    requires na { na < 2048 }
    requires spare { spare < 4 }
{
    Instr::Jp {
        cond,
        na: Addr { value: na },
        spare: Spare { value: spare },
    }
}

// The words and instructions were worked out by hand from the table of the fields.
#[test]
fn words_are_instructions(rt: HostRuntime) {
    let table = [
        (0x000000, Instr::Op(idle())),
        (0x000080, moved(Dst::Non, Src::Dr)),
        (0x000091, moved(Dst::A, Src::Drnf)),
        (0x0000F6, moved(Dst::Dr, Src::Mem)),
        (0x00000F, moved(Dst::Mem, Src::Trb)),
        (0x158090, computed(Alu::Add, Acc::B, P::Idb, Src::Drnf)),
        (0x138010, computed(Alu::Xor, Acc::B, P::Idb, Src::A)),
        (0x210000, computed(Alu::Or, Acc::A, P::M, Src::Trb)),
        (0x128010, computed(Alu::And, Acc::B, P::Idb, Src::A)),
        (0x0600F0, computed(Alu::Sbb, Acc::A, P::Ram, Src::Mem)),
        (0x3A8000, computed(Alu::Cmp, Acc::B, P::N, Src::Trb)),
        (0x0B0000, computed(Alu::Shr1, Acc::A, P::Ram, Src::Trb)),
        (0x0C8000, computed(Alu::Shl1, Acc::B, P::Ram, Src::Trb)),
        (0x1D0060, computed(Alu::Shl2, Acc::A, P::Idb, Src::Ro)),
        (0x2E8000, computed(Alu::Shl4, Acc::B, P::M, Src::Trb)),
        (0x3FFFFF, Instr::Op(full())),
        (0x400000, Instr::Rt(idle())),
        (0x7FFFFF, Instr::Rt(full())),
        (0x97C008, jump(Cond::Jrqm, 2, 0)),
        (0x97C00B, jump(Cond::Jrqm, 2, 3)),
        (0x918020, jump(Cond::Jnzb, 8, 0)),
        (0xA00004, jump(Cond::Jmp, 1, 0)),
    ];
    for (bits, instr) in table {
        let word = Word::new(bits).expect(&rt, "a word has 24 bits");
        assert_eq!(rt; decode(word), instr);
        assert_eq!(rt; encode(&instr), word);
    }
}

#[test]
fn rarer_words_are_instructions(rt: HostRuntime) {
    let stepped = OpWord {
        dpl: Dpl::DpInc,
        dphm: Nibble { value: 5 },
        rpdec: true,
        ..idle()
    };
    let first = OtherCode::new(0).expect(&rt, "no condition");
    let last = OtherCode::new(511).expect(&rt, "no condition");
    let table = [
        (0x002B00, Instr::Op(stepped)),
        (0x800000, jump(Cond::Other(first), 0, 0)),
        (0xBFFFFF, jump(Cond::Other(last), 0x7FF, 3)),
        (0xA80FFC, jump(Cond::Call, 0x3FF, 0)),
        (
            0xC10007,
            Instr::Ld {
                value: 0x0400,
                spare: Spare { value: 0 },
                dst: Dst::Sr,
            },
        ),
        (
            0xC030C2,
            Instr::Ld {
                value: 0x00C3,
                spare: Spare { value: 0 },
                dst: Dst::B,
            },
        ),
        (
            0xFFFFFF,
            Instr::Ld {
                value: 0xFFFF,
                spare: Spare { value: 3 },
                dst: Dst::Mem,
            },
        ),
    ];
    for (bits, instr) in table {
        let word = Word::new(bits).expect(&rt, "a word has 24 bits");
        assert_eq!(rt; decode(word), instr);
        assert_eq!(rt; encode(&instr), word);
    }
}

#[test]
fn numbers_end_at_their_widths(rt: HostRuntime) {
    assert!(rt; Word::new(0xFFFFFF).is_some() && Word::new(0x1000000).is_none());
    assert!(rt; Addr::new(2047).is_some() && Addr::new(2048).is_none());
    assert!(rt; Nibble::new(15).is_some() && Nibble::new(16).is_none());
    assert!(rt; Spare::new(3).is_some() && Spare::new(4).is_none());
    assert!(rt; OtherCode::new(0x0BD).is_some() && OtherCode::new(0x0BE).is_none());
    assert!(rt; OtherCode::new(511).is_some() && OtherCode::new(512).is_none());
}

// Both ways round, from the contracts alone.

fn recoded(word: Word) -> Word
    ensures { result ≡ word }
{
    encode(&decode(word))
}

fn redecoded(instr: Instr) -> Instr
    ensures { result ≡ instr }
{
    decode(encode(&instr))
}

#[test]
fn coding_goes_both_ways(rt: HostRuntime) {
    let word = Word { value: 0x2468AC };
    assert_eq!(rt; recoded(word), word);
    let instr = jump(Cond::Jnca, 0x123, 1);
    assert_eq!(rt; redecoded(instr), instr);
}
