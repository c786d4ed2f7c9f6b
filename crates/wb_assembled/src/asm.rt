use crate::repeated;
use std::alloc::Global;
use std::process::Abort;
use std::test::Fail;
use wb_asm::{AsmError, AsmFault, AsmKind, assemble};
use wb_rom::Image;

/// A source, and the first words of the program and of the data that it gives.
type Assembled = (&'static [u8], &'static [u32], &'static [u32]);

const SOURCES: [Assembled; 13] = [
    (b"", &[0, 0], &[0]),
    (b"ld a,0x1234", &[0xC4_8D01, 0], &[0]),
    (b"jmp there\nnop\nthere: nop\n", &[0xA0_0008, 0, 0], &[0]),
    (
        b"      ld sr,0x0400\nagain: op mov non,dr\nready: jrqm ready\n      op mov a,drnf\n      op mov dr,a\nsent: jrqm sent\n      jmp again\n",
        &[
            0xC1_0007, 0x00_0080, 0x97_C008, 0x00_0091, 0x00_0016, 0x97_C014, 0xA0_0004, 0,
        ],
        &[0],
    ),
    (
        b"rt rpdec | m1 | dpclr | mov trb,drnf | xchg b,idb ; all",
        &[0x5F_E39E, 0],
        &[0],
    ),
    (
        b"ld mem,-32768\r\nld non,65535\n",
        &[0xE0_000F, 0xFF_FFC0, 0],
        &[0],
    ),
    (b".word 16777215,0,7+2*3-1", &[0xFF_FFFF, 0, 12, 0], &[0]),
    (
        b"data: .dw -1,65535,data\n.dorg data+4\n.dw $,end\nend: .dw 1",
        &[0],
        &[0xFFFF, 0xFFFF, 0, 0, 4, 6, 1, 0],
    ),
    (
        b"b: nop\n.org b+2\nc: .word $,c,$\n",
        &[0, 0, 2, 2, 2, 0],
        &[0],
    ),
    (b".equ n,-3\n.equ m,n*(-2)\n.word m,m-n", &[6, 9, 0], &[0]),
    (
        b"jmp nop\nnop: nop\nop: jmp op",
        &[0xA0_0004, 0, 0xA0_0008, 0],
        &[0],
    ),
    (b"last: .equ top,(1-2)*(3-4)+1\n.word top", &[2, 0], &[0]),
    (b"\t \r\n;\xFF\n\n", &[0], &[0]),
];

/// A faulty source, and the line and the kind of its first fault.
type Faulty = (&'static [u8], u32, AsmKind);

const FAULTS: [Faulty; 36] = [
    (b"nop\nld a,%", 2, AsmKind::Byte(6)),
    (b"nop\rnop", 1, AsmKind::Byte(4)),
    (b".word 4294967296", 1, AsmKind::Wide),
    (b"nop nop\n.word 0x100000000", 2, AsmKind::Wide),
    (b"nop\nld a", 2, AsmKind::Syntax),
    (b"a: nop\na: nop\n.org", 3, AsmKind::Syntax),
    (b"op mov a,b | mov b,a", 1, AsmKind::Syntax),
    (b"a: nop\n.equ a,1", 2, AsmKind::Twice),
    (b"x: .equ x,5", 1, AsmKind::Twice),
    (b".equ x,1\n.equ x,later", 2, AsmKind::Twice),
    (b"x: .equ y,x", 1, AsmKind::Unknown),
    (b".org later\nlater: nop", 1, AsmKind::Unknown),
    (b".org later+9999", 1, AsmKind::Unknown),
    (b"jmp nowhere", 1, AsmKind::Unknown),
    (b".word 16777216,nowhere", 1, AsmKind::Range),
    (b".word nowhere+16777216", 1, AsmKind::Unknown),
    (b".org 2048", 1, AsmKind::Range),
    (b".org -1", 1, AsmKind::Range),
    (b".dorg 1024", 1, AsmKind::Range),
    (b"jmp 2048", 1, AsmKind::Range),
    (b"jmp -1", 1, AsmKind::Range),
    (b"ld a,65536", 1, AsmKind::Range),
    (b"ld a,-32769", 1, AsmKind::Range),
    (b".dw 65536", 1, AsmKind::Range),
    (b".dw -32769", 1, AsmKind::Range),
    (b".word 16777216", 1, AsmKind::Range),
    (b".word -1", 1, AsmKind::Range),
    (b".equ a,-(0x80000000*0x80000000*2)", 1, AsmKind::Range),
    (b".equ a,0x80000000*0x80000000*2-1", 1, AsmKind::Range),
    (b".equ a,-0x80000000*0x80000000*2-1", 1, AsmKind::Range),
    (b".org 5\nnop\n.org 5\nnop", 4, AsmKind::Overlap),
    (b".dw 1\n.dorg 0\n.dw 1", 3, AsmKind::Overlap),
    (b".org 2047\nnop\nnop", 3, AsmKind::Past),
    (b".dorg 1023\n.dw 1,2", 2, AsmKind::Past),
    (b".org 1\nnop\n.org 0\n.word 1,2", 4, AsmKind::Overlap),
    (
        b"jmp nowhere\n.org 5\nnop\n.org 5\nnop",
        5,
        AsmKind::Overlap,
    ),
];

fn check_image(rt: &impl Abort, image: &Image, prog: &[u32], drom: &[u32]) {
    for (at, word) in prog.iter().enumerate() {
        assert!(rt; at < 2048);
        assert_eq!(rt; image.prog.get(at), *word);
    }
    for (at, word) in drom.iter().enumerate() {
        assert!(rt; at < 1024);
        assert_eq!(rt; image.drom.get(at), *word);
    }
}

fn expect_words(rt: &impl Abort, alloc: Global, rows: &[Assembled]) -> Result<(), Fail> {
    for (text, prog, drom) in rows {
        assert!(rt; text.len() <= 1_048_576);
        check_image(rt, &assemble(alloc, text)?, prog, drom);
    }
    Ok(())
}

fn expect_faults(rt: &impl Abort, alloc: Global, rows: &[Faulty]) {
    for (text, line, kind) in rows {
        expect_fault(
            rt,
            alloc,
            text,
            AsmFault {
                line: *line,
                kind: *kind,
            },
        );
    }
}

/// The first fault of a text is this.
fn expect_fault(rt: &impl Abort, alloc: Global, text: &[u8], fault: AsmFault) {
    assert!(rt; text.len() <= 1_048_576);
    let found = assemble(alloc, text).err();
    assert_eq!(rt; found, Some(AsmError::Fault(fault)), "{text:?}");
}

#[test]
fn sources_give_their_words(rt: HostRuntime) -> Result<(), Fail> {
    expect_words(&rt, rt.alloc(), &SOURCES)
}

#[test]
fn the_first_fault_is_told(rt: HostRuntime) {
    expect_faults(&rt, rt.alloc(), &FAULTS);
}

/// A line that does nothing.
const IDLE: &[u8] = b"nop\n";

#[test]
fn too_many_words(rt: HostRuntime) -> Result<(), Fail> {
    let most = repeated(rt.alloc(), IDLE, 2048)?;
    assert!(rt; most.len() == 8192);
    assert!(rt; assemble(rt.alloc(), &most).is_ok());
    let more = repeated(rt.alloc(), IDLE, 2049)?;
    let past = AsmFault {
        line: 2049,
        kind: AsmKind::Past,
    };
    expect_fault(&rt, rt.alloc(), &more, past);
    Ok(())
}
