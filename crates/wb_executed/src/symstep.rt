ghost use Rattle.std.specs.Prelude.{◌≡◌, ◌≤◌, ◌^◌, IfOk, length};
ghost use Rattle.wb_term.specs.Terms.{HasBit, HasWord, table_of, table_words};
ghost use Rattle.wb_term.specs.Growth.{Grown};
ghost use Rattle.wb_fold.specs.Flags.{HasFlags};
ghost use Rattle.wb_symstep.specs.State.{IsSymState};
ghost use Rattle.wb_symstep.specs.Stepped.{IsStepped};

use std::alloc::Global;
use std::process::Abort;
use std::test::Fail;
use wb_alu::Flags;
use wb_fold::SymFlags;
use wb_machine::{Machine, Regs};
use wb_make::{mk_byte, mk_const};
use wb_rom::Image;
use wb_symstep::{OutOfMemory, Stepped, SymState, sym_step};
use wb_term::{BitId, Graph, Inputs, Scratch, WordId};
use wb_word::Side;

/// Calls 100, loads A, adds DR to A and takes the RAM's first word from B, so that both and their flags depend on
/// inputs; then fills TR, TRB, K, L and SO, moves B to RP and DR to DP.
const SETUP: [u32; 11] = [
    0xA8_0400, 0xC4_8D01, 0x15_0090, 0x04_8000, 0x00_0013, 0x00_002E, 0x00_009A, 0x00_00FD,
    0x00_0038, 0x00_0025, 0x00_0094,
];

/// How many words are tried.
const COUNT: u32 = 512 + 128 + 64 + 16 + 16 + 256;

/// Each branch code; each operation of the ALU on each operand and accumulator; each change of DP with and without
/// that of RP; a return from each source; a load to each destination; each source with each destination. Those that
/// store come last, since a store makes many nodes.
fn tried(k: u32) -> u32 {
    if k < 512 {
        return 0x80_1158 + (k << 13);
    }
    let k = k - 512;
    if k < 128 {
        return ((k & 3) << 20) + ((k >> 2 & 15) << 16) + ((k >> 6 & 1) << 15) + 0x30;
    }
    let k = k - 128;
    if k < 64 {
        return ((k & 3) << 13) + ((k >> 2 & 7) << 10) + ((k >> 5 & 1) << 8);
    }
    let k = k - 64;
    if k < 16 {
        return 0x40_0001 + (k << 4);
    }
    let k = k - 16;
    if k < 16 {
        return 0xDE_AD80 + k;
    }
    let k = k - 16;
    ((k & 15) << 4) + (k >> 4 & 15)
}

fn word(graph: &Graph, x: WordId, scratch: &Scratch) -> u16
    requires there { HasWord graph.now x }
    requires covered { length scratch.now ≡ length graph.now.nodes }
{
    let _node = graph.word_at(x);
    (scratch.slot(x.number()) & 0xFFFF) as u16
}

fn bit(graph: &Graph, c: BitId, scratch: &Scratch) -> bool
    requires there { HasBit graph.now c }
    requires covered { length scratch.now ≡ length graph.now.nodes }
{
    let _node = graph.bit_at(c);
    scratch.slot(c.number()) == 1
}

fn flags(graph: &Graph, f: SymFlags, scratch: &Scratch) -> Flags
    requires there { HasFlags graph.now f }
    requires covered { length scratch.now ≡ length graph.now.nodes }
{
    Flags {
        c: bit(graph, f.c, scratch),
        z: bit(graph, f.z, scratch),
        s0: bit(graph, f.s0, scratch),
        s1: bit(graph, f.s1, scratch),
        ov0: bit(graph, f.ov0, scratch),
        ov1: bit(graph, f.ov1, scratch),
    }
}

/// The registers of the machine that a state stands for.
fn registers(graph: &Graph, s: &SymState, scratch: &Scratch) -> Regs
    requires state { IsSymState graph.now s.now }
    requires covered { length scratch.now ≡ length graph.now.nodes }
{
    let sr = word(graph, s.sr, scratch) & 0x6FFF;
    Regs {
        pc: s.pc,
        sp: s.sp,
        rp: word(graph, s.rp, scratch),
        dp: (word(graph, s.dp, scratch) & 0xFF) as u8,
        a: word(graph, s.a, scratch),
        b: word(graph, s.b, scratch),
        tr: word(graph, s.tr, scratch),
        trb: word(graph, s.trb, scratch),
        k: word(graph, s.k, scratch),
        l: word(graph, s.l, scratch),
        dr: word(graph, s.dr, scratch),
        sr: sr | (u16::from(s.rqm) << 15) | (u16::from(s.drs) << 12),
        so: word(graph, s.so, scratch),
        flags_a: flags(graph, s.flags_a, scratch),
        flags_b: flags(graph, s.flags_b, scratch),
    }
}

/// The state stands for the machine: its registers, its stack, and the RAM at some places.
fn compare(
    rt: &impl Abort,
    graph: &Graph,
    s: &SymState,
    case: &Case,
    machine: &Machine,
    scratch: &Scratch,
    k: u32,
)
    requires state { IsSymState graph.now s.now }
    requires covered { length scratch.now ≡ length graph.now.nodes }
{
    let regs = registers(graph, s, scratch);
    assert_eq!(rt; regs, machine.regs(), "word {k}");
    assert_eq!(rt; s.stack[0], machine.stack_at(0), "word {k}");
    assert_eq!(rt; s.stack[1], machine.stack_at(1), "word {k}");
    for dp in case.looked {
        let cell = word(graph, s.ram.get(dp), scratch);
        assert_eq!(rt; cell, machine.ram_at(dp), "word {k} at {dp}");
    }
}

/// Inputs, the machine under them before the word that is tried, and places of the RAM to look at.
#[derive(Drop)]
struct Case {
    inputs: Inputs,
    before: Machine,
    looked: [u8; 4],
}

/// Writes a word at the place of a state and executes it.
fn execute(
    rt: &impl Abort,
    graph: &mut Graph,
    alloc: Global,
    image: &mut Image,
    state: &SymState,
    word: u32,
) -> Result<Stepped, OutOfMemory>
    requires state { IsSymState graph.old state.now }
    requires words { table_words graph.old.tables (table_of graph.old.tables Side.A) ≡ image.old.drom }
    ensures next { IfOk result (IsStepped graph.new) }
    ensures state { IsSymState graph.new state.now }
    ensures words { table_words graph.new.tables (table_of graph.new.tables Side.A) ≡ image.new.drom }
{
    assert!(rt; word < 1 << 24);
    assert!(rt; graph.len() < 1 << 30);
    image.prog.set(usize::from(state.pc), word);
    sym_step(graph, alloc, image, Side::A, state)
}

/// The same, and a constant that no word makes, whose number is the greatest.
fn execute_tried(
    rt: &impl Abort,
    graph: &mut Graph,
    alloc: Global,
    image: &mut Image,
    state: &SymState,
    k: u32,
) -> Result<(Stepped, WordId), OutOfMemory>
    requires state { IsSymState graph.old state.now }
    requires words { table_words graph.old.tables (table_of graph.old.tables Side.A) ≡ image.old.drom }
    ensures next { IfOk result (λ r. IsStepped graph.new r.0) }
    ensures last { IfOk result (λ r. HasWord graph.new r.1) }
    ensures state { IsSymState graph.new state.now }
    ensures words { table_words graph.new.tables (table_of graph.new.tables Side.A) ≡ image.new.drom }
{
    let next = execute(rt, graph, alloc, image, state, tried(k))?;
    assert!(rt; graph.len() < 1 << 30);
    let last = mk_const(graph, 0xE000 + (k & 0xFFF) as u16)?;
    Ok((next, last))
}

/// The state after the setup, from one with inputs in RAM and DR.
fn base(
    rt: &impl Abort,
    graph: &mut Graph,
    alloc: Global,
    image: &mut Image,
) -> Result<SymState, OutOfMemory>
    requires small { length graph.old.nodes ≤ 2 ^ 20 }
    requires words { table_words graph.old.tables (table_of graph.old.tables Side.A) ≡ image.old.drom }
    ensures state { IfOk result (IsSymState graph.new) }
    ensures words { table_words graph.new.tables (table_of graph.new.tables Side.A) ≡ image.new.drom }
{
    let mut state = first(graph, alloc)?;
    for word in SETUP {
        match execute(rt, graph, alloc, image, &state, word)? {
            Stepped::One(next) => state = next,
            Stepped::Fork { .. } => panic!(rt; "no word of the setup forks"),
        }
    }
    Ok(state)
}

/// Power-up with the first byte in DR, and DRS and DRC set.
fn first(graph: &mut Graph, alloc: Global) -> Result<SymState, OutOfMemory>
    requires small { length graph.old.nodes ≤ 2 ^ 20 }
    ensures state { IfOk result (IsSymState graph.new) }
    ensures grown { Grown graph.old graph.new }
{
    let dr = mk_byte(graph, 0)?;
    let sr = mk_const(graph, 0x0401)?;
    let state = SymState::power(graph, alloc)?;
    Ok(SymState {
        dr,
        sr,
        drs: true,
        ..state
    })
}

/// The machine under a byte and a start, after the setup that stands in the image.
fn case_of(alloc: Global, image: &Image, byte: u8, seed: u16) -> Result<Case, OutOfMemory> {
    let mut bytes = [0; 16];
    bytes[0] = byte;
    let mut cells = [seed; 256];
    cells[0] = 0x8001;
    cells[usize::from(byte)] = 0x7FFF;
    cells[usize::from(byte | 0x40)] = 0x00C3;
    let inputs = Inputs::new(alloc, &bytes, &cells)?;
    let mut before = Machine::power(&cells);
    before.host_set(u16::from(byte), 0x1401);
    for _ in SETUP {
        before.step(image);
    }
    Ok(Case {
        inputs,
        before,
        looked: [0, byte, byte | 0x40, 255],
    })
}

/// The values of all nodes below a number.
fn settled(
    alloc: Global,
    graph: &Graph,
    last: WordId,
    inputs: &Inputs,
) -> Result<Scratch, OutOfMemory>
    requires { HasWord graph.now last }
    ensures { IfOk result (λ scratch. length scratch ≡ length graph.now.nodes) }
{
    let mut scratch = Scratch::for_graph(alloc, graph)?;
    let _node = graph.word_at(last);
    graph.value_word(last, inputs, &mut scratch);
    Ok(scratch)
}

/// What comes of a word stands for what comes of the machine.
fn check(
    rt: &impl Abort,
    alloc: Global,
    graph: &Graph,
    image: &Image,
    stepped: &Stepped,
    last: WordId,
    case: &Case,
    k: u32,
) -> Result<(), OutOfMemory>
    requires stepped { IsStepped graph.now stepped.now }
    requires last { HasWord graph.now last }
{
    let scratch = settled(alloc, graph, last, &case.inputs)?;
    let mut machine = case.before.copy();
    machine.step(image);
    match stepped {
        Stepped::One(next) => compare(rt, graph, next, case, &machine, &scratch, k),
        Stepped::Fork { cond, yes, no } => {
            if bit(graph, *cond, &scratch) {
                compare(rt, graph, yes, case, &machine, &scratch, k);
            } else {
                compare(rt, graph, no, case, &machine, &scratch, k);
            }
        }
    }
    Ok(())
}

#[test]
fn words_do_what_the_machine_does(rt: HostRuntime) -> Result<(), Fail> {
    let mut image = Image::zero(rt.alloc())?;
    image.drom.set(0x2A5, 0xD0D1);
    let mut graph = Graph::new(rt.alloc(), &image.drom, &image.drom)?;
    let state = base(&rt, &mut graph, rt.alloc(), &mut image)?;
    let one = case_of(rt.alloc(), &image, 0x5A, 0x1357)?;
    let other = case_of(rt.alloc(), &image, 0xFF, 0xFEDC)?;
    for k in 0..COUNT {
        let (next, last) = execute_tried(&rt, &mut graph, rt.alloc(), &mut image, &state, k)?;
        check(&rt, rt.alloc(), &graph, &image, &next, last, &one, k)?;
        check(&rt, rt.alloc(), &graph, &image, &next, last, &other, k)?;
    }
    Ok(())
}

#[test]
fn a_chip_starts_with_zeros(rt: HostRuntime) -> Result<(), Fail> {
    let mut image = Image::zero(rt.alloc())?;
    let mut graph = Graph::new(rt.alloc(), &image.drom, &image.drom)?;
    let state = SymState::reset(&mut graph, rt.alloc())?;
    assert_eq!(rt; graph.len(), 3);
    let copy = state.share()?;
    let case = Case {
        inputs: Inputs::new(rt.alloc(), &[9; 16], &[7; 256])?,
        before: Machine::reset(),
        looked: [0, 1, 128, 255],
    };
    let (next, last) = execute_tried(&rt, &mut graph, rt.alloc(), &mut image, &copy, 640)?;
    check(&rt, rt.alloc(), &graph, &image, &next, last, &case, 640)?;
    Ok(())
}
