ghost use Rattle.std.specs.Prelude.{◌≡◌, ◌+◌, ◌<◌, ◌≤◌, ◌^◌, IfOk, length};
ghost use Rattle.wb_term.specs.Terms.{Terms, IsKept, table_words};
ghost use Rattle.wb_term.specs.Growth.{Grown, AddsAtMost};
ghost use Rattle.wb_word.specs.declared.codes.Acc.{Acc};
ghost use Rattle.wb_word.specs.declared.numbers.Spare.{Spare};
ghost use Rattle.wb_word.specs.declared.words.Instr.{Instr};
ghost use Rattle.wb_machine.specs.State.{State};
ghost use Rattle.wb_machine.specs.Next.{bus_of, following, next_by, worked, worked_flags};
ghost use Rattle.wb_symstep.specs.State.{IsSymState};
ghost use Rattle.wb_symstep.specs.Parts.{IsPart, AreFlagsOf, IsAfter};
ghost use Rattle.wb_symstep.specs.Assembled.{AreParts};

use crate::compute::{bus_and_operand, compute};
use crate::moves::{accumulated, delivered, memory};
use crate::registers::{loaded_registers, operated_registers};
use crate::state::SymState;
use crate::work::{Accumulators, Memory, Plain, Registers, Worked};
use std::alloc::Global;
use wb_make::mk_const;
use wb_rom::Image;
use wb_term::{Graph, OutOfMemory, Table};
use wb_word::{Dst, OpWord};

/// The address past one.
pub(crate) fn next_address(pc: u16) -> u16
    requires { pc < 2048 }
    ensures value { result ≡ following pc }
    ensures below { result < 2048 }
{
    (pc + 1) & 0x7FF
}

/// A state at the next address, from its parts.
fn assembled(
    state: &SymState,
    registers: Registers,
    memory: Memory,
    plain: Plain,
    flags: Accumulators,
) -> SymState
    requires { state.now.pc < 2048 }
    ensures { (g : Terms) (step : State → State) → IsSymState g state.now →
        AreParts g state.now registers memory plain flags step → IsAfter g state.now result step }
{
    SymState {
        pc: next_address(state.pc),
        sp: state.sp,
        stack: state.stack,
        rqm: registers.rqm,
        drs: state.drs,
        rp: registers.rp,
        dp: registers.dp,
        a: plain.a,
        b: plain.b,
        tr: plain.tr,
        trb: plain.trb,
        k: memory.k,
        l: memory.l,
        dr: plain.dr,
        sr: registers.sr,
        so: plain.so,
        flags_a: flags.flags_a,
        flags_b: flags.flags_b,
        ram: memory.ram,
    }
}

/// The bus of a word, and the accumulators after its work.
#[tactic(auto, unfolding(wb_machine::specs::Next::worked, wb_machine::specs::Next::worked_flags, wb_machine::specs::Next::computed, wb_machine::specs::Next::computed_flags))]
fn work(
    graph: &mut Graph,
    alloc: Global,
    image: &Image,
    table: Table,
    state: &SymState,
    op: &OpWord,
) -> Result<Worked, OutOfMemory>
    requires state { IsSymState graph.old state.now }
    requires kept { IsKept graph.old.tables table }
    requires words { table_words graph.old.tables table ≡ image.now.drom }
    requires room { length graph.old.nodes + 368 ≤ 2 ^ 31 }
    ensures bus { IfOk result (λ r. IsPart graph.new state.now r.bus (bus_of op.now.src image.now)) }
    ensures a { IfOk result (λ r. IsPart graph.new state.now r.after.a (worked Acc.A (Instr.Op op.now) image.now)) }
    ensures b { IfOk result (λ r. IsPart graph.new state.now r.after.b (worked Acc.B (Instr.Op op.now) image.now)) }
    ensures flags_a { IfOk result (λ r. AreFlagsOf graph.new state.now r.after.flags_a (worked_flags Acc.A (Instr.Op op.now) image.now)) }
    ensures flags_b { IfOk result (λ r. AreFlagsOf graph.new state.now r.after.flags_b (worked_flags Acc.B (Instr.Op op.now) image.now)) }
    ensures grown { Grown graph.old graph.new }
    ensures adds { AddsAtMost graph.old graph.new 368 37888 }
{
    let bus = bus_and_operand(graph, alloc, image, table, state, op.src, op.p)?;
    let result = compute(graph, state, op, bus.operand)?;
    Ok(Worked {
        bus: bus.word,
        after: accumulated(op.acc, result, state),
    })
}

/// The whole work of a word that computes and moves.
pub(crate) fn operate(
    graph: &mut Graph,
    alloc: Global,
    image: &Image,
    table: Table,
    state: &SymState,
    op: &OpWord,
) -> Result<SymState, OutOfMemory>
    requires state { IsSymState graph.old state.now }
    requires kept { IsKept graph.old.tables table }
    requires words { table_words graph.old.tables table ≡ image.now.drom }
    requires room { length graph.old.nodes + 1200 ≤ 2 ^ 31 }
    ensures after { IfOk result (λ next. IsAfter graph.new state.now next (next_by (Instr.Op op.now) image.now)) }
    ensures grown { Grown graph.old graph.new }
    ensures adds { AddsAtMost graph.old graph.new 1200 120000 }
{
    let worked = work(graph, alloc, image, table, state, op)?;
    let registers = operated_registers(graph, op, state, worked.bus)?;
    let memory = memory(graph, alloc, image, table, state, op.dst, worked.bus)?;
    let from = Plain {
        a: worked.after.a,
        b: worked.after.b,
        tr: state.tr,
        trb: state.trb,
        dr: state.dr,
        so: state.so,
    };
    let plain = delivered(op.dst, worked.bus, from);
    Ok(assembled(state, registers, memory, plain, worked.after))
}

/// The whole work of a word that loads.
pub(crate) fn load(
    graph: &mut Graph,
    alloc: Global,
    image: &Image,
    table: Table,
    state: &SymState,
    value: u16,
    dst: Dst,
) -> Result<SymState, OutOfMemory>
    requires state { IsSymState graph.old state.now }
    requires kept { IsKept graph.old.tables table }
    requires words { table_words graph.old.tables table ≡ image.now.drom }
    requires room { length graph.old.nodes + 1200 ≤ 2 ^ 31 }
    ensures after { IfOk result (λ next. (spare : Spare) → IsAfter graph.new state.now next (next_by (Instr.Ld value spare dst) image.now)) }
    ensures grown { Grown graph.old graph.new }
    ensures adds { AddsAtMost graph.old graph.new 1200 120000 }
{
    let bus = mk_const(graph, value)?;
    let registers = loaded_registers(graph, dst, state, bus)?;
    let memory = memory(graph, alloc, image, table, state, dst, bus)?;
    let from = Plain {
        a: state.a,
        b: state.b,
        tr: state.tr,
        trb: state.trb,
        dr: state.dr,
        so: state.so,
    };
    let plain = delivered(dst, bus, from);
    let flags = Accumulators {
        a: state.a,
        b: state.b,
        flags_a: state.flags_a,
        flags_b: state.flags_b,
    };
    Ok(assembled(state, registers, memory, plain, flags))
}
