ghost use Rattle.std.specs.Prelude.{◌≡◌, ◌≢◌, ◌+◌, ◌/◌, ◌%◌, ◌≤◌, ◌^◌, ℕ, IfOk, length};
ghost use Rattle.wb_term.specs.Terms.{Terms, HasWord, IsKept, table_words};
ghost use Rattle.wb_term.specs.Growth.{Grown, AddsAtMost};
ghost use Rattle.wb_alu.specs.Operation.{alu_result, alu_flags};
ghost use Rattle.wb_machine.specs.State.{State};
ghost use Rattle.wb_machine.specs.Next.{accumulator, bus_of, flags_of, operand, other, product};
ghost use Rattle.wb_symstep.specs.State.{IsSymState};
ghost use Rattle.wb_symstep.specs.Parts.{IsPart, IsBitPart, AreFlagsOf};

use crate::sources::{ram_word, register_source};
use crate::state::SymState;
use crate::work::{Bus, Named, Work};
use std::alloc::Global;
use wb_fold::alu_terms;
use wb_make::{mk_high, mk_low};
use wb_rom::Image;
use wb_term::{Graph, OutOfMemory, Table, WordId};
use wb_word::{Acc, OpWord, P, Src};

/// The high half of twice the signed product of K and L.
fn product_high(graph: &mut Graph, state: &SymState) -> Result<WordId, OutOfMemory>
    requires state { IsSymState graph.old state.now }
    requires room { length graph.old.nodes + 1 ≤ 2 ^ 31 }
    ensures part { IfOk result (λ id. IsPart graph.new state.now id (λ m. product m.regs.k m.regs.l / 65536)) }
    ensures grown { Grown graph.old graph.new }
    ensures adds { AddsAtMost graph.old graph.new 1 4096 }
{
    mk_high(graph, state.k, state.l)
}

/// The low half of it.
fn product_low(graph: &mut Graph, state: &SymState) -> Result<WordId, OutOfMemory>
    requires state { IsSymState graph.old state.now }
    requires room { length graph.old.nodes + 1 ≤ 2 ^ 31 }
    ensures part { IfOk result (λ id. IsPart graph.new state.now id (λ m. product m.regs.k m.regs.l % 65536)) }
    ensures grown { Grown graph.old graph.new }
    ensures adds { AddsAtMost graph.old graph.new 1 4096 }
{
    mk_low(graph, state.k, state.l)
}

/// One half of twice the signed product of K and L.
#[tactic(auto, unfolding(wb_machine::specs::Next::operand))]
fn product_half(graph: &mut Graph, state: &SymState, p: P) -> Result<WordId, OutOfMemory>
    requires plain { p ≢ P.Idb }
    requires product { p ≢ P.Ram }
    requires state { IsSymState graph.old state.now }
    requires room { length graph.old.nodes + 1 ≤ 2 ^ 31 }
    ensures part { IfOk result (λ id. (bus : State → ℕ) → IsPart graph.new state.now id (λ m. operand p (bus m) m)) }
    ensures grown { Grown graph.old graph.new }
    ensures adds { AddsAtMost graph.old graph.new 1 4096 }
{
    match p {
        P::M => product_high(graph, state),
        P::N => product_low(graph, state),
        P::Ram | P::Idb => unreachable!(),
    }
}

/// The second operand of the ALU where it isn't the bus.
#[tactic(auto, unfolding(wb_machine::specs::Next::operand))]
fn plain_operand(
    graph: &mut Graph,
    alloc: Global,
    state: &SymState,
    p: P,
) -> Result<WordId, OutOfMemory>
    requires plain { p ≢ P.Idb }
    requires state { IsSymState graph.old state.now }
    requires room { length graph.old.nodes + 300 ≤ 2 ^ 31 }
    ensures part { IfOk result (λ id. (bus : State → ℕ) → IsPart graph.new state.now id (λ m. operand p (bus m) m)) }
    ensures grown { Grown graph.old graph.new }
    ensures adds { AddsAtMost graph.old graph.new 300 4096 }
{
    match p {
        P::Ram => ram_word(graph, alloc, state),
        _ => product_half(graph, state, p),
    }
}

/// The word on the bus from a register, and an operand that isn't the bus.
fn register_and_operand(
    graph: &mut Graph,
    alloc: Global,
    image: &Image,
    table: Table,
    state: &SymState,
    src: Src,
    p: P,
) -> Result<Bus, OutOfMemory>
    requires register { src ≢ Src.Mem }
    requires plain { p ≢ P.Idb }
    requires state { IsSymState graph.old state.now }
    requires kept { IsKept graph.old.tables table }
    requires words { table_words graph.old.tables table ≡ image.now.drom }
    requires room { length graph.old.nodes + 304 ≤ 2 ^ 31 }
    ensures word { IfOk result (λ r. IsPart graph.new state.now r.word (bus_of src image.now)) }
    ensures operand { IfOk result (λ r. IsPart graph.new state.now r.operand (λ m. operand p (bus_of src image.now m) m)) }
    ensures grown { Grown graph.old graph.new }
    ensures adds { AddsAtMost graph.old graph.new 304 36864 }
{
    let word = register_source(graph, image, table, state, src)?;
    let operand = plain_operand(graph, alloc, state, p)?;
    Ok(Bus { word, operand })
}

/// The word on the bus from the RAM, and one half of the product.
fn ram_and_product(
    graph: &mut Graph,
    alloc: Global,
    image: &Image,
    state: &SymState,
    p: P,
) -> Result<Bus, OutOfMemory>
    requires plain { p ≢ P.Idb }
    requires product { p ≢ P.Ram }
    requires state { IsSymState graph.old state.now }
    requires room { length graph.old.nodes + 301 ≤ 2 ^ 31 }
    ensures word { IfOk result (λ r. IsPart graph.new state.now r.word (bus_of Src.Mem image.now)) }
    ensures operand { IfOk result (λ r. IsPart graph.new state.now r.operand (λ m. operand p (bus_of Src.Mem image.now m) m)) }
    ensures grown { Grown graph.old graph.new }
    ensures adds { AddsAtMost graph.old graph.new 301 36864 }
{
    let word = ram_word(graph, alloc, state)?;
    let operand = product_half(graph, state, p)?;
    Ok(Bus { word, operand })
}

/// What a word puts on the bus and gives the ALU. The RAM word is selected once for both.
#[tactic(auto, unfolding(wb_machine::specs::Next::bus_of, wb_machine::specs::Next::operand))]
pub(crate) fn bus_and_operand(
    graph: &mut Graph,
    alloc: Global,
    image: &Image,
    table: Table,
    state: &SymState,
    src: Src,
    p: P,
) -> Result<Bus, OutOfMemory>
    requires state { IsSymState graph.old state.now }
    requires kept { IsKept graph.old.tables table }
    requires words { table_words graph.old.tables table ≡ image.now.drom }
    requires room { length graph.old.nodes + 304 ≤ 2 ^ 31 }
    ensures word { IfOk result (λ r. IsPart graph.new state.now r.word (bus_of src image.now)) }
    ensures operand { IfOk result (λ r. IsPart graph.new state.now r.operand (λ m. operand p (bus_of src image.now m) m)) }
    ensures grown { Grown graph.old graph.new }
    ensures adds { AddsAtMost graph.old graph.new 304 36864 }
{
    match (p, src) {
        (P::Idb, Src::Mem) | (P::Ram, Src::Mem) => {
            let word = ram_word(graph, alloc, state)?;
            Ok(Bus {
                word,
                operand: word,
            })
        }
        (P::Idb, _) => {
            let word = register_source(graph, image, table, state, src)?;
            Ok(Bus {
                word,
                operand: word,
            })
        }
        (_, Src::Mem) => ram_and_product(graph, alloc, image, state, p),
        _ => register_and_operand(graph, alloc, image, table, state, src, p),
    }
}

/// The accumulator that a word names, its flags, and the carry of the other.
fn named(acc: Acc, state: &SymState) -> Named
    ensures q { (g : Terms) → IsSymState g state.now → IsPart g state.now result.q (λ m. accumulator acc m.regs) }
    ensures flags { (g : Terms) → IsSymState g state.now → AreFlagsOf g state.now result.flags (λ m. flags_of acc m.regs) }
    ensures other_c { (g : Terms) → IsSymState g state.now → IsBitPart g state.now result.other_c (λ m. (flags_of (other acc) m.regs).c) }
{
    match acc {
        Acc::A => Named {
            q: state.a,
            flags: state.flags_a,
            other_c: state.flags_b.c,
        },
        Acc::B => Named {
            q: state.b,
            flags: state.flags_b,
            other_c: state.flags_a.c,
        },
    }
}

/// The ALU's work on the accumulator that a word names, with an operand.
pub(crate) fn compute(
    graph: &mut Graph,
    state: &SymState,
    op: &OpWord,
    operand: WordId,
) -> Result<Work, OutOfMemory>
    requires state { IsSymState graph.old state.now }
    requires room { length graph.old.nodes + 64 ≤ 2 ^ 31 }
    requires operand { HasWord graph.old operand }
    ensures value { IfOk result (λ r. (p : State → ℕ) → IsPart graph.old state.now operand p → IsPart graph.new state.now r.value
        (λ m. alu_result op.now.alu (accumulator op.now.acc m.regs) (p m) (flags_of (other op.now.acc) m.regs).c)) }
    ensures flags { IfOk result (λ r. (p : State → ℕ) → IsPart graph.old state.now operand p → AreFlagsOf graph.new state.now r.flags
        (λ m. alu_flags op.now.alu (accumulator op.now.acc m.regs) (p m) (flags_of (other op.now.acc) m.regs).c (flags_of op.now.acc m.regs))) }
    ensures grown { Grown graph.old graph.new }
    ensures adds { AddsAtMost graph.old graph.new 64 1024 }
{
    let on = named(op.acc, state);
    let (value, flags) = alu_terms(graph, op.alu, on.q, operand, on.other_c, on.flags)?;
    Ok(Work { value, flags })
}
