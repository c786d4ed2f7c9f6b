use std::test::Fail;
use wb_word::{Acc, Alu, Cond, Dpl, Dst, P, Rom, Src};

// The codes count from 0 upwards, so each list has its variants in the order of their codes.

const OPERANDS: [(P, &str); 4] = [(P::Ram, "ram"), (P::Idb, "idb"), (P::M, "m"), (P::N, "n")];

const OPERATIONS: [(Alu, &str); 16] = [
    (Alu::Nop, "nop"),
    (Alu::Or, "or"),
    (Alu::And, "and"),
    (Alu::Xor, "xor"),
    (Alu::Sub, "sub"),
    (Alu::Add, "add"),
    (Alu::Sbb, "sbb"),
    (Alu::Adc, "adc"),
    (Alu::Dec, "dec"),
    (Alu::Inc, "inc"),
    (Alu::Cmp, "cmp"),
    (Alu::Shr1, "shr1"),
    (Alu::Shl1, "shl1"),
    (Alu::Shl2, "shl2"),
    (Alu::Shl4, "shl4"),
    (Alu::Xchg, "xchg"),
];

const ACCUMULATORS: [(Acc, &str); 2] = [(Acc::A, "a"), (Acc::B, "b")];

const STEPS: [(Dpl, &str); 4] = [
    (Dpl::DpNop, "dpnop"),
    (Dpl::DpInc, "dpinc"),
    (Dpl::DpDec, "dpdec"),
    (Dpl::DpClr, "dpclr"),
];

const SOURCES: [(Src, &str); 16] = [
    (Src::Trb, "trb"),
    (Src::A, "a"),
    (Src::B, "b"),
    (Src::Tr, "tr"),
    (Src::Dp, "dp"),
    (Src::Rp, "rp"),
    (Src::Ro, "ro"),
    (Src::Sgn, "sgn"),
    (Src::Dr, "dr"),
    (Src::Drnf, "drnf"),
    (Src::Sr, "sr"),
    (Src::Sim, "sim"),
    (Src::Sil, "sil"),
    (Src::K, "k"),
    (Src::L, "l"),
    (Src::Mem, "mem"),
];

const DESTINATIONS: [(Dst, &str); 16] = [
    (Dst::Non, "non"),
    (Dst::A, "a"),
    (Dst::B, "b"),
    (Dst::Tr, "tr"),
    (Dst::Dp, "dp"),
    (Dst::Rp, "rp"),
    (Dst::Dr, "dr"),
    (Dst::Sr, "sr"),
    (Dst::Sol, "sol"),
    (Dst::Som, "som"),
    (Dst::K, "k"),
    (Dst::Klr, "klr"),
    (Dst::Klm, "klm"),
    (Dst::L, "l"),
    (Dst::Trb, "trb"),
    (Dst::Mem, "mem"),
];

const CONDITIONS: [(u16, Cond, &str); 36] = [
    (0x080, Cond::Jnca, "jnca"),
    (0x082, Cond::Jca, "jca"),
    (0x084, Cond::Jncb, "jncb"),
    (0x086, Cond::Jcb, "jcb"),
    (0x088, Cond::Jnza, "jnza"),
    (0x08A, Cond::Jza, "jza"),
    (0x08C, Cond::Jnzb, "jnzb"),
    (0x08E, Cond::Jzb, "jzb"),
    (0x090, Cond::Jnova0, "jnova0"),
    (0x092, Cond::Jova0, "jova0"),
    (0x094, Cond::Jnovb0, "jnovb0"),
    (0x096, Cond::Jovb0, "jovb0"),
    (0x098, Cond::Jnova1, "jnova1"),
    (0x09A, Cond::Jova1, "jova1"),
    (0x09C, Cond::Jnovb1, "jnovb1"),
    (0x09E, Cond::Jovb1, "jovb1"),
    (0x0A0, Cond::Jnsa0, "jnsa0"),
    (0x0A2, Cond::Jsa0, "jsa0"),
    (0x0A4, Cond::Jnsb0, "jnsb0"),
    (0x0A6, Cond::Jsb0, "jsb0"),
    (0x0A8, Cond::Jnsa1, "jnsa1"),
    (0x0AA, Cond::Jsa1, "jsa1"),
    (0x0AC, Cond::Jnsb1, "jnsb1"),
    (0x0AE, Cond::Jsb1, "jsb1"),
    (0x0B4, Cond::Jnsiak, "jnsiak"),
    (0x0B6, Cond::Jsiak, "jsiak"),
    (0x0B8, Cond::Jnsoak, "jnsoak"),
    (0x0BA, Cond::Jsoak, "jsoak"),
    (0x0BC, Cond::Jnrqm, "jnrqm"),
    (0x0BE, Cond::Jrqm, "jrqm"),
    (0x0B0, Cond::Jdpl0, "jdpl0"),
    (0x0B1, Cond::Jdpln0, "jdpln0"),
    (0x0B2, Cond::Jdplf, "jdplf"),
    (0x0B3, Cond::Jdplnf, "jdplnf"),
    (0x100, Cond::Jmp, "jmp"),
    (0x140, Cond::Call, "call"),
];

#[test]
fn operands_have_codes(rt: HostRuntime) {
    for (place, (field, name)) in OPERANDS.iter().enumerate() {
        let code = place as u32;
        assert_eq!(rt; P::from_code(code), *field);
        assert_eq!(rt; field.code(), code);
        assert_eq!(rt; field.name(), *name);
    }
}

#[test]
fn operations_have_codes(rt: HostRuntime) {
    for (place, (field, name)) in OPERATIONS.iter().enumerate() {
        let code = place as u32;
        assert_eq!(rt; Alu::from_code(code), *field);
        assert_eq!(rt; field.code(), code);
        assert_eq!(rt; field.name(), *name);
    }
}

#[test]
fn accumulators_have_codes(rt: HostRuntime) {
    for (place, (field, name)) in ACCUMULATORS.iter().enumerate() {
        let code = place as u32;
        assert_eq!(rt; Acc::from_code(code), *field);
        assert_eq!(rt; field.code(), code);
        assert_eq!(rt; field.name(), *name);
    }
}

#[test]
fn steps_have_codes(rt: HostRuntime) {
    for (place, (field, name)) in STEPS.iter().enumerate() {
        let code = place as u32;
        assert_eq!(rt; Dpl::from_code(code), *field);
        assert_eq!(rt; field.code(), code);
        assert_eq!(rt; field.name(), *name);
    }
}

#[test]
fn sources_have_codes(rt: HostRuntime) {
    for (place, (field, name)) in SOURCES.iter().enumerate() {
        let code = place as u32;
        assert_eq!(rt; Src::from_code(code), *field);
        assert_eq!(rt; field.code(), code);
        assert_eq!(rt; field.name(), *name);
    }
}

#[test]
fn destinations_have_codes(rt: HostRuntime) {
    for (place, (field, name)) in DESTINATIONS.iter().enumerate() {
        let code = place as u32;
        assert_eq!(rt; Dst::from_code(code), *field);
        assert_eq!(rt; field.code(), code);
        assert_eq!(rt; field.name(), *name);
    }
}

#[test]
fn conditions_have_codes(rt: HostRuntime) {
    for (code, cond, name) in CONDITIONS {
        assert!(rt; code < 512);
        assert_eq!(rt; Cond::from_code(code), cond);
        assert_eq!(rt; cond.code(), code);
        assert_eq!(rt; cond.name(), Some(name));
    }
}

#[test]
fn other_codes_have_no_name(rt: HostRuntime) {
    for code in [0x000, 0x07F, 0x081, 0x0B5, 0x0BF, 0x101, 0x1FF] {
        assert!(rt; code < 512);
        assert_eq!(rt; Cond::from_code(code).code(), code);
        assert_eq!(rt; Cond::from_code(code).name(), None);
    }
}

#[test]
fn a_table_keeps_what_is_set(rt: HostRuntime) -> Result<(), Fail> {
    let mut table: Rom<3, 8> = Rom::zero(rt.alloc())?;
    table.set(1, 0xFF);
    assert_eq!(rt; [table.get(0), table.get(1), table.get(2)], [0, 0xFF, 0]);
    Ok(())
}
