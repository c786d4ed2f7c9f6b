mod branches;
mod steps;

use branches::JUMPS;
use std::alloc::Global;
use std::process::Abort;
use std::test::Fail;
use steps::ROWS;
use wb_alu::Flags;
use wb_machine::{Machine, Regs};
use wb_rom::Image;
use wb_word::OutOfMemory;

/// What one instruction changes, with the value after it.
enum Change {
    Pc(u16),
    Sp(u8),
    Rp(u16),
    Dp(u8),
    A(u16),
    B(u16),
    Tr(u16),
    Trb(u16),
    K(u16),
    L(u16),
    Dr(u16),
    Sr(u16),
    So(u16),
    FlagsA(Flags),
    FlagsB(Flags),
    Stack(usize, u16),
    Ram(u8, u16),
}

/// One word at an address, with SR before it and what it changes beside the program counter.
struct Row {
    text: &'static str,
    at: u16,
    sr: u16,
    setup: &'static [u32],
    word: u32,
    want: &'static [Change],
}

/// A state, with the branch codes that jump in it and those that don't.
struct Jumps {
    text: &'static str,
    sr: u16,
    setup: &'static [u32],
    taken: &'static [u32],
    falls: &'static [u32],
}

/// Loads RAM 6B and 2B, DP 2B, RP 155, A 1111, B 2222, TR 3333, TRB 4444, K 258, L -3 and SO 6666.
const BASE: [u32; 12] = [
    0xC01AC4, 0xDADACF, 0xC00AC4, 0xCACACF, 0xC05545, 0xC44441, 0xC88882, 0xCCCCC3, 0xD1110E,
    0xC0408A, 0xFFFF4D, 0xD99989,
];

fn wanted_regs(want: &[Change], before: Regs) -> Regs {
    let mut regs = before;
    for change in want {
        match change {
            Change::Pc(pc) => regs.pc = *pc,
            Change::Sp(sp) => regs.sp = *sp,
            Change::Rp(rp) => regs.rp = *rp,
            Change::Dp(dp) => regs.dp = *dp,
            Change::A(a) => regs.a = *a,
            Change::B(b) => regs.b = *b,
            Change::Tr(tr) => regs.tr = *tr,
            Change::Trb(trb) => regs.trb = *trb,
            Change::K(k) => regs.k = *k,
            Change::L(l) => regs.l = *l,
            Change::Dr(dr) => regs.dr = *dr,
            Change::Sr(sr) => regs.sr = *sr,
            Change::So(so) => regs.so = *so,
            Change::FlagsA(flags) => regs.flags_a = *flags,
            Change::FlagsB(flags) => regs.flags_b = *flags,
            Change::Stack(_, _) | Change::Ram(_, _) => {}
        }
    }
    regs
}

fn wanted_stack(want: &[Change], at: usize, before: u16) -> u16 {
    for change in want {
        if let Change::Stack(level, word) = change {
            if *level == at {
                return *word;
            }
        }
    }
    before
}

fn wanted_ram(want: &[Change], at: u8, before: u16) -> u16 {
    for change in want {
        if let Change::Ram(dp, word) = change {
            if *dp == at {
                return *word;
            }
        }
    }
    before
}

/// All that the changes don't name has to stay, but for the program counter, which goes one on.
fn compare(rt: &impl Abort, text: &str, before: &Machine, after: &Machine, want: &[Change]) {
    let mut regs = before.regs();
    regs.pc = if regs.pc == 0x7FF { 0 } else { regs.pc + 1 };
    assert_eq!(rt; after.regs(), wanted_regs(want, regs), "{text}");
    for level in 0..4 {
        let stayed = before.stack_at(level);
        assert_eq!(rt;
            after.stack_at(level),
            wanted_stack(want, level, stayed),
            "{text}"
        );
    }
    for dp in 0..=255 {
        let stayed = before.ram_at(dp);
        assert_eq!(rt; after.ram_at(dp), wanted_ram(want, dp, stayed), "{text}");
    }
}

/// Zeros, but for the data word that RP points to.
fn image_of_rows(alloc: Global) -> Result<Image, OutOfMemory> {
    let mut image = Image::zero(alloc)?;
    image.drom.set(0x155, 0xD0D1);
    Ok(image)
}

fn execute(rt: &impl Abort, machine: &mut Machine, image: &mut Image, word: u32) {
    assert!(rt; word < 1 << 24);
    image.prog.set(usize::from(machine.regs().pc), word);
    machine.step(image);
}

/// The machine that a row starts from, about to execute the word at its address.
fn machine_at(rt: &impl Abort, image: &mut Image, setup: &[u32], at: u16, sr: u16) -> Machine {
    let mut machine = Machine::power(&[0; 256]);
    for word in BASE {
        execute(rt, &mut machine, image, word);
    }
    for word in setup {
        execute(rt, &mut machine, image, *word);
    }
    execute(rt, &mut machine, image, 0xA0_0000 + (u32::from(at) << 2));
    machine.host_set(0x5555, sr);
    machine
}

fn run_code(rt: &impl Abort, image: &mut Image, jumps: &Jumps, code: u32, want: &[Change]) {
    assert!(rt; code < 512);
    let mut machine = machine_at(rt, image, jumps.setup, 0x123, jumps.sr);
    let before = machine.copy();
    execute(
        rt,
        &mut machine,
        image,
        0x80_0000 + (code << 13) + (0x456 << 2),
    );
    compare(rt, jumps.text, &before, &machine, want);
}

#[test]
fn words_have_their_effects(rt: HostRuntime) -> Result<(), Fail> {
    let mut image = image_of_rows(rt.alloc())?;
    for row in &ROWS {
        let mut machine = machine_at(&rt, &mut image, row.setup, row.at, row.sr);
        let before = machine.copy();
        execute(&rt, &mut machine, &mut image, row.word);
        compare(&rt, row.text, &before, &machine, row.want);
    }
    Ok(())
}

#[test]
fn jumps_follow_their_conditions(rt: HostRuntime) -> Result<(), Fail> {
    let mut image = image_of_rows(rt.alloc())?;
    for jumps in &JUMPS {
        for code in jumps.taken {
            run_code(&rt, &mut image, jumps, *code, &[Change::Pc(0x456)]);
        }
        for code in jumps.falls {
            run_code(&rt, &mut image, jumps, *code, &[]);
        }
    }
    Ok(())
}

#[test]
fn a_call_comes_back(rt: HostRuntime) -> Result<(), Fail> {
    let mut image = image_of_rows(rt.alloc())?;
    image.prog.set(0, 0xA8_000C);
    image.prog.set(3, 0x40_0000);
    let before = Machine::reset();
    let mut machine = before.copy();
    machine.step(&image);
    machine.step(&image);
    compare(&rt, "call 3, rt", &before, &machine, &[Change::Stack(0, 1)]);
    Ok(())
}
