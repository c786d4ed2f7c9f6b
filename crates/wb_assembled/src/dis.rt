use std::process::Abort;
use std::test::Fail;
use wb_dis::{disassemble, line_of};
use wb_rom::{Image, Rom};
use wb_word::Word;

// A word with several fields, with spare bits, or with a branch code that has no name.
const SHAPES: [(u32, &str); 22] = [
    (0x000000, "nop"),
    (0x400000, "rt"),
    (0x158090, "op add b,idb | mov non,drnf"),
    (0xC48D01, "ld a,0x1234"),
    (0x97C008, "jrqm 0x002"),
    (0x97C00B, ".word 0x97C00B"),
    (
        0x1FE39E,
        "op xchg b,idb | mov trb,drnf | dpclr | m1 | rpdec",
    ),
    (0x402000, "rt dpinc"),
    (0x004000, "op dpdec"),
    (0x000100, "op rpdec"),
    (0x001E00, "op mf"),
    (0x001200, "op m9"),
    (0x001400, "op ma"),
    (0x406100, "rt dpclr | rpdec"),
    (0xC00010, ".word 0xC00010"),
    (0xFFFFCF, "ld mem,0xFFFF"),
    (0xFFFFFF, ".word 0xFFFFFF"),
    (0x800000, ".word 0x800000"),
    (0xA01FFC, "jmp 0x7FF"),
    (0x902000, ".word 0x902000"),
    (0x900000, "jnca 0x000"),
    (0x900001, ".word 0x900001"),
];

// Each operation, operand and accumulator.
const OPERATIONS: [(u32, &str); 17] = [
    (0x110000, "op or a,idb"),
    (0x220000, "op and a,m"),
    (0x330000, "op xor a,n"),
    (0x048000, "op sub b,ram"),
    (0x158000, "op add b,idb"),
    (0x268000, "op sbb b,m"),
    (0x378000, "op adc b,n"),
    (0x080000, "op dec a,ram"),
    (0x190000, "op inc a,idb"),
    (0x2A0000, "op cmp a,m"),
    (0x3B0000, "op shr1 a,n"),
    (0x0C8000, "op shl1 b,ram"),
    (0x1D8000, "op shl2 b,idb"),
    (0x2E8000, "op shl4 b,m"),
    (0x3F8000, "op xchg b,n"),
    (0x100000, "op nop a,idb"),
    (0x008000, "op nop b,ram"),
];

// Each source and destination.
const MOVES: [(u32, &str); 16] = [
    (0x0000F0, "op mov non,mem"),
    (0x0000E1, "op mov a,l"),
    (0x0000D2, "op mov b,k"),
    (0x0000C3, "op mov tr,sil"),
    (0x0000B4, "op mov dp,sim"),
    (0x0000A5, "op mov rp,sr"),
    (0x000096, "op mov dr,drnf"),
    (0x000087, "op mov sr,dr"),
    (0x000078, "op mov sol,sgn"),
    (0x000069, "op mov som,ro"),
    (0x00005A, "op mov k,rp"),
    (0x00004B, "op mov klr,dp"),
    (0x00003C, "op mov klm,tr"),
    (0x00002D, "op mov l,b"),
    (0x00001E, "op mov trb,a"),
    (0x00000F, "op mov mem,trb"),
];

// Each branch to address 0.
const JUMPS: [(u32, &str); 36] = [
    (0x900000, "jnca 0x000"),
    (0x904000, "jca 0x000"),
    (0x908000, "jncb 0x000"),
    (0x90C000, "jcb 0x000"),
    (0x910000, "jnza 0x000"),
    (0x914000, "jza 0x000"),
    (0x918000, "jnzb 0x000"),
    (0x91C000, "jzb 0x000"),
    (0x920000, "jnova0 0x000"),
    (0x924000, "jova0 0x000"),
    (0x928000, "jnovb0 0x000"),
    (0x92C000, "jovb0 0x000"),
    (0x930000, "jnova1 0x000"),
    (0x934000, "jova1 0x000"),
    (0x938000, "jnovb1 0x000"),
    (0x93C000, "jovb1 0x000"),
    (0x940000, "jnsa0 0x000"),
    (0x944000, "jsa0 0x000"),
    (0x948000, "jnsb0 0x000"),
    (0x94C000, "jsb0 0x000"),
    (0x950000, "jnsa1 0x000"),
    (0x954000, "jsa1 0x000"),
    (0x958000, "jnsb1 0x000"),
    (0x95C000, "jsb1 0x000"),
    (0x960000, "jdpl0 0x000"),
    (0x962000, "jdpln0 0x000"),
    (0x964000, "jdplf 0x000"),
    (0x966000, "jdplnf 0x000"),
    (0x968000, "jnsiak 0x000"),
    (0x96C000, "jsiak 0x000"),
    (0x970000, "jnsoak 0x000"),
    (0x974000, "jsoak 0x000"),
    (0x978000, "jnrqm 0x000"),
    (0x97C000, "jrqm 0x000"),
    (0xA00000, "jmp 0x000"),
    (0xA80000, "call 0x000"),
];

fn check(rt: &impl Abort, rows: &[(u32, &str)]) {
    for (value, text) in rows {
        let line = Word::new(*value).map(|word| line_of(word));
        assert_eq!(rt; line.as_ref().map(|line| line.as_str()), Some(*text));
    }
}

#[test]
fn each_name_and_shape_has_its_line(rt: HostRuntime) {
    check(&rt, &SHAPES);
    check(&rt, &OPERATIONS);
    check(&rt, &MOVES);
    check(&rt, &JUMPS);
}

#[test]
fn listings_show_words_and_addresses(rt: HostRuntime) -> Result<(), Fail> {
    let mut image = Image {
        prog: Rom::zero(rt.alloc())?,
        drom: Rom::zero(rt.alloc())?,
    };
    image.prog.set(2, 0x97_C00B);
    image.prog.set(2047, 0xC4_8D01);
    image.drom.set(0, 0x1234);
    image.drom.set(1023, 0xABCD);
    let text = disassemble(rt.alloc(), &image)?;
    let first =
        b"nop  ; 000 000000\nnop  ; 001 000000\n.word 0x97C00B  ; 002 97C00B\nnop  ; 003 000000\n";
    let middle = b"ld a,0x1234  ; 7FF C48D01\n.dw 0x1234  ; 000\n.dw 0x0000  ; 001\n";
    let last = b".dw 0x0000  ; 3FE\n.dw 0xABCD  ; 3FF\n";
    assert!(rt; text.starts_with(first.as_slice()));
    assert!(rt; text.ends_with(last.as_slice()));
    assert!(rt;
        text.windows(middle.len())
            .any(|part| part == middle.as_slice())
    );
    assert_eq!(rt; text.iter().filter(|byte| **byte == b'\n').count(), 3072);
    Ok(())
}
