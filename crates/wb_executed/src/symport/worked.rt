//! Worked programs from power-up to their second request, and a read there. After each instruction and each transfer
//! the symbolic chip has the registers of the chip. At each request it has the RAM of the chip too, where all that was
//! stored still stands.
ghost use Rattle.std.specs.Prelude.{◌≡◌, ◌≤◌, [], IfOk};
ghost use Rattle.wb_term.specs.Terms.{HasBit, HasWord};
ghost use Rattle.wb_fold.specs.Flags.{HasFlags};
ghost use Rattle.wb_symstep.specs.State.{IsSymState};
ghost use Rattle.wb_symstep.specs.Stepped.{IsStepped};

use super::programs::{Held, PROGRAMS, Program, ROUNDS};
use super::value_of;
use crate::port::image_of;
use std::alloc::Global;
use std::process::Abort;
use std::test::Fail;
use wb_alu::Flags;
use wb_fold::SymFlags;
use wb_machine::{Machine, Regs};
use wb_port::{Access, Chip, Event};
use wb_rom::Image;
use wb_symport::{OutOfMemory, Stepped, SymState, sym_read, sym_write};
use wb_symstep::sym_step;
use wb_term::{BitId, Graph, Inputs, Scratch};
use wb_word::Side;

/// The most instructions to a request: once round the program memory.
const MOST: u16 = 2048;

/// The first two bytes; then DR where it holds the first, where it holds both, and where it holds the first but C4
/// for C3.
type Row = (u8, u8, u16, u16, u16);

const ROWS: [Row; 16] = [
    (0x00, 0x00, 0x0000, 0x0000, 0x0000),
    (0x00, 0xFF, 0x0000, 0xFF00, 0x0000),
    (0x01, 0x00, 0x0001, 0x0001, 0x0001),
    (0x0F, 0xF0, 0x000F, 0xF00F, 0x000F),
    (0x3C, 0xC3, 0x003C, 0xC33C, 0x003C),
    (0x43, 0x80, 0x0043, 0x8043, 0x0043),
    (0x5A, 0xA5, 0x005A, 0xA55A, 0x005A),
    (0x7F, 0xFF, 0x007F, 0xFF7F, 0x007F),
    (0x80, 0x00, 0x0080, 0x0080, 0x0080),
    (0x80, 0x7F, 0x0080, 0x7F80, 0x0080),
    (0xA5, 0x5A, 0x00A5, 0x5AA5, 0x00A5),
    (0xC2, 0xC3, 0x00C2, 0xC3C2, 0x00C2),
    (0xC3, 0x00, 0x00C3, 0x00C3, 0x00C4),
    (0xC3, 0xC3, 0x00C3, 0xC3C3, 0x00C4),
    (0xC4, 0x12, 0x00C4, 0x12C4, 0x00C4),
    (0xFF, 0xFF, 0x00FF, 0xFFFF, 0x00FF),
];

fn bit(alloc: Global, graph: &Graph, bit: BitId, inputs: &Inputs) -> Result<bool, OutOfMemory>
    requires there { HasBit graph.now bit }
{
    let mut scratch = Scratch::for_graph(alloc, graph)?;
    let _bit = graph.bit_at(bit);
    Ok(graph.value_bit(bit, inputs, &mut scratch))
}

fn flags(
    alloc: Global,
    graph: &Graph,
    flags: SymFlags,
    inputs: &Inputs,
) -> Result<Flags, OutOfMemory>
    requires there { HasFlags graph.now flags }
{
    Ok(Flags {
        c: bit(alloc, graph, flags.c, inputs)?,
        z: bit(alloc, graph, flags.z, inputs)?,
        s0: bit(alloc, graph, flags.s0, inputs)?,
        s1: bit(alloc, graph, flags.s1, inputs)?,
        ov0: bit(alloc, graph, flags.ov0, inputs)?,
        ov1: bit(alloc, graph, flags.ov1, inputs)?,
    })
}

/// The registers that a state has under inputs.
fn registers(
    alloc: Global,
    graph: &Graph,
    state: &SymState,
    inputs: &Inputs,
) -> Result<Regs, OutOfMemory>
    requires state { IsSymState graph.now state.now }
{
    let sr = value_of(alloc, graph, state.sr, inputs)? & 0x6FFF;
    let dp = value_of(alloc, graph, state.dp, inputs)? & 0xFF;
    Ok(Regs {
        pc: state.pc,
        sp: state.sp,
        rp: value_of(alloc, graph, state.rp, inputs)?,
        dp: dp as u8,
        a: value_of(alloc, graph, state.a, inputs)?,
        b: value_of(alloc, graph, state.b, inputs)?,
        tr: value_of(alloc, graph, state.tr, inputs)?,
        trb: value_of(alloc, graph, state.trb, inputs)?,
        k: value_of(alloc, graph, state.k, inputs)?,
        l: value_of(alloc, graph, state.l, inputs)?,
        dr: value_of(alloc, graph, state.dr, inputs)?,
        sr: sr | (u16::from(state.rqm) << 15) | (u16::from(state.drs) << 12),
        so: value_of(alloc, graph, state.so, inputs)?,
        flags_a: flags(alloc, graph, state.flags_a, inputs)?,
        flags_b: flags(alloc, graph, state.flags_b, inputs)?,
    })
}

fn expect_registers(
    rt: &impl Abort,
    alloc: Global,
    graph: &Graph,
    state: &SymState,
    machine: &Machine,
    inputs: &Inputs,
) -> Result<(), OutOfMemory>
    requires state { IsSymState graph.now state.now }
{
    let regs = registers(alloc, graph, state, inputs)?;
    assert_eq!(rt; regs, machine.regs());
    for level in 0..4 {
        assert_eq!(rt; state.stack[level], machine.stack_at(level));
    }
    Ok(())
}

fn expect_ram(
    rt: &impl Abort,
    alloc: Global,
    graph: &Graph,
    state: &SymState,
    machine: &Machine,
    inputs: &Inputs,
) -> Result<(), OutOfMemory>
    requires state { IsSymState graph.now state.now }
{
    for dp in 0..=255 {
        let cell = value_of(alloc, graph, state.ram.get(dp), inputs)?;
        assert_eq!(rt; cell, machine.ram_at(dp), "at {dp}");
    }
    Ok(())
}

/// The state that is chosen under inputs.
fn chosen(
    alloc: Global,
    graph: &Graph,
    stepped: Stepped,
    inputs: &Inputs,
) -> Result<SymState, OutOfMemory>
    requires there { IsStepped graph.now stepped }
    ensures there { IfOk result (IsSymState graph.now) }
{
    match stepped {
        Stepped::One(state) => Ok(state),
        Stepped::Fork { cond, yes, no } => {
            let state = if bit(alloc, graph, cond, inputs)? {
                yes
            } else {
                no
            };
            Ok(state)
        }
    }
}

/// The state that is chosen, which has the registers of the machine.
fn agreed(
    rt: &impl Abort,
    alloc: Global,
    graph: &Graph,
    stepped: Stepped,
    machine: &Machine,
    inputs: &Inputs,
) -> Result<SymState, OutOfMemory>
    requires there { IsStepped graph.now stepped }
    ensures there { IfOk result (IsSymState graph.now) }
{
    let state = chosen(alloc, graph, stepped, inputs)?;
    expect_registers(rt, alloc, graph, &state, machine, inputs)?;
    Ok(state)
}

/// One instruction on both machines.
fn step(
    rt: &impl Abort,
    graph: &mut Graph,
    alloc: Global,
    image: &Image,
    state: &SymState,
    chip: &mut Chip,
    inputs: &Inputs,
) -> Result<SymState, OutOfMemory>
    requires state { IsSymState graph.old state.now }
    requires words { graph.old.tables.first ≡ image.now.drom }
    ensures state { IfOk result (IsSymState graph.new) }
    ensures words { graph.new.tables.first ≡ image.now.drom }
{
    assert!(rt; graph.len() < 1 << 20);
    let _reply = chip.apply(image, Event::Step);
    let stepped = sym_step(graph, alloc, image, Side::A, state)?;
    agreed(rt, alloc, graph, stepped, &chip.machine, inputs)
}

/// A write of the byte of a place to both machines.
fn write(
    rt: &impl Abort,
    graph: &mut Graph,
    alloc: Global,
    image: &Image,
    state: &SymState,
    chip: &mut Chip,
    inputs: &Inputs,
    place: u8,
) -> Result<SymState, OutOfMemory>
    requires state { IsSymState graph.old state.now }
    requires words { graph.old.tables.first ≡ image.now.drom }
    ensures state { IfOk result (IsSymState graph.new) }
    ensures words { graph.new.tables.first ≡ image.now.drom }
{
    assert!(rt; graph.len() < 1 << 20);
    assert!(rt; place < 16);
    let byte = inputs.byte(place);
    let _reply = chip.apply(image, Event::Host(Access::Write(byte)));
    let stepped = sym_write(graph, state, place)?;
    agreed(rt, alloc, graph, stepped, &chip.machine, inputs)
}

/// A read of both machines: the byte that both give.
fn read(
    rt: &impl Abort,
    graph: &mut Graph,
    alloc: Global,
    image: &Image,
    state: &SymState,
    chip: &mut Chip,
    inputs: &Inputs,
) -> Result<u16, OutOfMemory>
    requires state { IsSymState graph.old state.now }
{
    assert!(rt; graph.len() < 1 << 20);
    let reply = chip.apply(image, Event::Host(Access::Read));
    let (byte, stepped) = sym_read(graph, state)?;
    let _state = agreed(rt, alloc, graph, stepped, &chip.machine, inputs)?;
    let byte = value_of(alloc, graph, byte, inputs)?;
    assert_eq!(rt; reply.map(u16::from), Some(byte));
    Ok(byte)
}

/// Instructions until a request stands, where the RAM of both is one.
fn to_request(
    rt: &impl Abort,
    graph: &mut Graph,
    alloc: Global,
    image: &Image,
    state: SymState,
    chip: &mut Chip,
    inputs: &Inputs,
) -> Result<SymState, OutOfMemory>
    requires state { IsSymState graph.old state }
    requires words { graph.old.tables.first ≡ image.now.drom }
    ensures state { IfOk result (IsSymState graph.new) }
    ensures words { graph.new.tables.first ≡ image.now.drom }
{
    let mut state = state;
    for _ in 0..MOST {
        if state.rqm {
            break;
        }
        state = step(rt, graph, alloc, image, &state, chip, inputs)?;
    }
    assert!(rt; state.rqm, "no request");
    expect_ram(rt, alloc, graph, &state, &chip.machine, inputs)?;
    Ok(state)
}

/// Writes the bytes from a place on until no request stands, this many at most.
fn answered(
    rt: &impl Abort,
    graph: &mut Graph,
    alloc: Global,
    image: &Image,
    state: SymState,
    chip: &mut Chip,
    inputs: &Inputs,
    most: u8,
) -> Result<SymState, OutOfMemory>
    requires state { IsSymState graph.old state }
    requires words { graph.old.tables.first ≡ image.now.drom }
    requires most { most ≤ 2 }
    ensures state { IfOk result (IsSymState graph.new) }
    ensures words { graph.new.tables.first ≡ image.now.drom }
{
    if !state.rqm || most == 0 {
        return Ok(state);
    }
    let next = write(rt, graph, alloc, image, &state, chip, inputs, 2 - most)?;
    answered(rt, graph, alloc, image, next, chip, inputs, most - 1)
}

/// From power-up to the second request: PC, DR, and the byte that is read there.
fn run(
    rt: &impl Abort,
    graph: &mut Graph,
    alloc: Global,
    image: &Image,
    inputs: &Inputs,
) -> Result<(u16, u16, u16), OutOfMemory>
    requires empty { graph.old.nodes ≡ [] }
    requires words { graph.old.tables.first ≡ image.now.drom }
{
    let mut chip = Chip::reset();
    let state = SymState::reset(graph, alloc)?;
    let state = to_request(rt, graph, alloc, image, state, &mut chip, inputs)?;
    let state = answered(rt, graph, alloc, image, state, &mut chip, inputs, 2)?;
    assert!(rt; !state.rqm, "the first request still stands");
    let state = to_request(rt, graph, alloc, image, state, &mut chip, inputs)?;
    let dr = value_of(alloc, graph, state.dr, inputs)?;
    let byte = read(rt, graph, alloc, image, &state, &mut chip, inputs)?;
    Ok((state.pc, dr, byte))
}

/// PC, DR and the byte read at the second request of a program that is sent these bytes.
fn sent(
    rt: &impl Abort,
    alloc: Global,
    words: &[u32],
    first: u8,
    second: u8,
) -> Result<(u16, u16, u16), Fail> {
    let image = image_of(alloc, words)?;
    let mut graph = Graph::new(alloc, &image.drom, &image.drom)?;
    let mut bytes = [0; 16];
    bytes[0] = first;
    bytes[1] = second;
    let inputs = Inputs::new(alloc, &bytes, &[0; 256])?;
    Ok(run(rt, &mut graph, alloc, &image, &inputs)?)
}

/// What DR has in a row.
fn held_in(row: &Row, held: Held) -> u16 {
    let (_, _, byte, word, changed) = *row;
    match held {
        Held::Byte => byte,
        Held::Changed => changed,
        Held::Word => word,
        Held::Zero => 0,
    }
}

/// At the second request of a program, after the bytes of each row: PC, DR, and the low half of DR, which is read.
fn expect_rows(
    rt: &impl Abort,
    alloc: Global,
    program: &Program,
    place: usize,
) -> Result<(), Fail> {
    let (words, pc, held) = *program;
    for row in &ROWS {
        let (first, second) = (row.0, row.1);
        let dr = held_in(row, held);
        let seen = sent(rt, alloc, words, first, second)?;
        assert_eq!(rt;
            seen,
            (pc, dr, dr & 0xFF),
            "program {place} after {first}, {second}"
        );
    }
    Ok(())
}

fn expect_programs(rt: &impl Abort, alloc: Global, programs: &[Program]) -> Result<(), Fail> {
    for (place, program) in programs.iter().enumerate() {
        expect_rows(rt, alloc, program, place)?;
    }
    Ok(())
}

#[test]
fn worked_programs_come_to_their_second_request(rt: HostRuntime) -> Result<(), Fail> {
    expect_programs(&rt, rt.alloc(), &PROGRAMS)
}

#[test]
fn programs_go_round_to_their_second_request(rt: HostRuntime) -> Result<(), Fail> {
    expect_programs(&rt, rt.alloc(), &ROUNDS)
}
