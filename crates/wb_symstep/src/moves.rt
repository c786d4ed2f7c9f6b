ghost use Rattle.std.specs.Prelude.{◌≡◌, ◌≢◌, ◌+◌, ◌≤◌, ◌^◌, Bool, ℕ, List, [], ◌∷◌, IfOk, length, slice_index, slice_set};
ghost use Rattle.wb_term.specs.Terms.{Terms, HasWord, IsKept, table_words};
ghost use Rattle.wb_term.specs.Values.{IsWord, word_value};
ghost use Rattle.wb_term.specs.Growth.{Grown, AddsAtMost};
ghost use Rattle.wb_make.specs.Inputs.{BringsOnly};
ghost use Rattle.wb_alu.specs.declared.flags.Flags.{Flags};
ghost use Rattle.wb_machine.specs.State.{State};
ghost use Rattle.wb_machine.specs.Next.{far_address, moved_a, moved_b, moved_dp, moved_dr, moved_k, moved_l, moved_ram, moved_rp, moved_so, moved_tr, moved_trb, worked_on};
ghost use Rattle.wb_symstep.specs.State.{IsSymState};
ghost use Rattle.wb_symstep.specs.Parts.{IsPart, AreFlagsOf, IsRamOf, sr_written};

use crate::sources::{far_word, rom_word};
use crate::state::SymState;
use crate::status::merge_status;
use crate::words::masked;
use crate::work::{Accumulators, Factors, Memory, Narrow, Plain, Work};
use std::alloc::Global;
use wb_fold::{Pages, pages_store};
use wb_rom::Image;
use wb_term::{Graph, OutOfMemory, Table, WordId};
use wb_word::{Acc, Dst};

/// DP, RP and SR after the bus moved.
pub(crate) fn narrowed(
    graph: &mut Graph,
    dst: Dst,
    bus: WordId,
    from: Narrow,
) -> Result<Narrow, OutOfMemory>
    requires bus { HasWord graph.old bus }
    requires dp { HasWord graph.old from.dp }
    requires rp { HasWord graph.old from.rp }
    requires sr { HasWord graph.old from.sr }
    requires room { length graph.old.nodes + 5 ≤ 2 ^ 31 }
    ensures dp { IfOk result (λ r. IsWord graph.new r.dp (λ inputs. moved_dp dst (word_value inputs graph.old bus) (word_value inputs graph.old from.dp))) }
    ensures rp { IfOk result (λ r. IsWord graph.new r.rp (λ inputs. moved_rp dst (word_value inputs graph.old bus) (word_value inputs graph.old from.rp))) }
    ensures sr { IfOk result (λ r. IsWord graph.new r.sr (λ inputs. sr_written dst (word_value inputs graph.old bus) (word_value inputs graph.old from.sr))) }
    ensures dp_inputs { IfOk result (λ r. BringsOnly graph.old graph.new (bus.number ∷ from.dp.number ∷ []) r.dp.number) }
    ensures rp_inputs { IfOk result (λ r. BringsOnly graph.old graph.new (bus.number ∷ from.rp.number ∷ []) r.rp.number) }
    ensures sr_inputs { IfOk result (λ r. BringsOnly graph.old graph.new (bus.number ∷ from.sr.number ∷ []) r.sr.number) }
    ensures grown { Grown graph.old graph.new }
    ensures adds { AddsAtMost graph.old graph.new 5 48 }
{
    match dst {
        Dst::Dp => {
            let dp = masked(graph, bus, 0xFF)?;
            Ok(Narrow { dp, ..from })
        }
        Dst::Rp => {
            let rp = masked(graph, bus, 0x3FF)?;
            Ok(Narrow { rp, ..from })
        }
        Dst::Sr => {
            let sr = merge_status(graph, bus, from.sr)?;
            Ok(Narrow { sr, ..from })
        }
        _ => Ok(from),
    }
}

/// K from the bus, and L from the data ROM at RP.
fn factors_by_rp(
    graph: &mut Graph,
    image: &Image,
    table: Table,
    state: &SymState,
    bus: WordId,
) -> Result<Factors, OutOfMemory>
    requires state { IsSymState graph.old state.now }
    requires kept { IsKept graph.old.tables table }
    requires words { table_words graph.old.tables table ≡ image.now.drom }
    requires room { length graph.old.nodes + 302 ≤ 2 ^ 31 }
    ensures k { IfOk result (λ r. (p : State → ℕ) → IsPart graph.old state.now bus p → IsPart graph.new state.now r.k (λ m. moved_k Dst.Klr (p m) m.ram m.regs.dp m.regs.k)) }
    ensures l { IfOk result (λ r. (p : State → ℕ) → IsPart graph.old state.now bus p →
        IsPart graph.new state.now r.l (λ m. moved_l Dst.Klr (p m) image.now.drom m.regs.rp m.regs.l)) }
    ensures grown { Grown graph.old graph.new }
    ensures adds { AddsAtMost graph.old graph.new 302 32768 }
{
    let l = rom_word(graph, image, table, state)?;
    Ok(Factors { k: bus, l })
}

/// L from the bus, and K from the RAM at DP with its bit 6 set.
fn factors_by_dp(
    graph: &mut Graph,
    alloc: Global,
    state: &SymState,
    bus: WordId,
) -> Result<Factors, OutOfMemory>
    requires state { IsSymState graph.old state.now }
    requires room { length graph.old.nodes + 302 ≤ 2 ^ 31 }
    ensures k { IfOk result (λ r. (p : State → ℕ) → IsPart graph.old state.now bus p →
        IsPart graph.new state.now r.k (λ m. moved_k Dst.Klm (p m) m.ram m.regs.dp m.regs.k)) }
    ensures l { IfOk result (λ r. (p : State → ℕ) (drom : List ℕ) → IsPart graph.old state.now bus p →
        IsPart graph.new state.now r.l (λ m. moved_l Dst.Klm (p m) drom m.regs.rp m.regs.l)) }
    ensures grown { Grown graph.old graph.new }
    ensures adds { AddsAtMost graph.old graph.new 302 32768 }
{
    let k = far_word(graph, alloc, state)?;
    Ok(Factors { k, l: bus })
}

/// The inputs of the multiplier after the bus moved.
fn factors(
    graph: &mut Graph,
    alloc: Global,
    image: &Image,
    table: Table,
    state: &SymState,
    dst: Dst,
    bus: WordId,
) -> Result<Factors, OutOfMemory>
    requires state { IsSymState graph.old state.now }
    requires kept { IsKept graph.old.tables table }
    requires words { table_words graph.old.tables table ≡ image.now.drom }
    requires room { length graph.old.nodes + 302 ≤ 2 ^ 31 }
    ensures k { IfOk result (λ r. (p : State → ℕ) → IsPart graph.old state.now bus p →
        IsPart graph.new state.now r.k (λ m. moved_k dst (p m) m.ram m.regs.dp m.regs.k)) }
    ensures l { IfOk result (λ r. (p : State → ℕ) → IsPart graph.old state.now bus p →
        IsPart graph.new state.now r.l (λ m. moved_l dst (p m) image.now.drom m.regs.rp m.regs.l)) }
    ensures grown { Grown graph.old graph.new }
    ensures adds { AddsAtMost graph.old graph.new 302 32768 }
{
    match dst {
        Dst::K => Ok(Factors { k: bus, l: state.l }),
        Dst::L => Ok(Factors { k: state.k, l: bus }),
        Dst::Klr => factors_by_rp(graph, image, table, state, bus),
        Dst::Klm => factors_by_dp(graph, alloc, state, bus),
        _ => Ok(Factors {
            k: state.k,
            l: state.l,
        }),
    }
}

/// The RAM after the bus is stored at DP.
fn stored(
    graph: &mut Graph,
    alloc: Global,
    state: &SymState,
    bus: WordId,
) -> Result<Pages, OutOfMemory>
    requires state { IsSymState graph.old state.now }
    requires bus { HasWord graph.old bus }
    requires room { length graph.old.nodes + 800 ≤ 2 ^ 31 }
    ensures ram { IfOk result (λ ram. (p : State → ℕ) → IsPart graph.old state.now bus p →
        IsRamOf graph.new state.now ram (λ m. slice_set m.ram m.regs.dp (p m))) }
    ensures grown { Grown graph.old graph.new }
    ensures adds { AddsAtMost graph.old graph.new 800 4606 }
{
    let mut ram = state.ram.share()?;
    pages_store(graph, alloc, &mut ram, state.dp, bus)?;
    Ok(ram)
}

/// The RAM as it was, and the inputs of the multiplier after the bus moved.
fn memory_read(
    graph: &mut Graph,
    alloc: Global,
    image: &Image,
    table: Table,
    state: &SymState,
    dst: Dst,
    bus: WordId,
) -> Result<Memory, OutOfMemory>
    requires state { IsSymState graph.old state.now }
    requires kept { IsKept graph.old.tables table }
    requires words { table_words graph.old.tables table ≡ image.now.drom }
    requires read { dst ≢ Dst.Mem }
    requires room { length graph.old.nodes + 302 ≤ 2 ^ 31 }
    ensures k { IfOk result (λ r. (p : State → ℕ) → IsPart graph.old state.now bus p →
        IsPart graph.new state.now r.k (λ m. moved_k dst (p m) m.ram m.regs.dp m.regs.k)) }
    ensures l { IfOk result (λ r. (p : State → ℕ) → IsPart graph.old state.now bus p →
        IsPart graph.new state.now r.l (λ m. moved_l dst (p m) image.now.drom m.regs.rp m.regs.l)) }
    ensures ram { IfOk result (λ r. (p : State → ℕ) → IsRamOf graph.new state.now r.ram (λ m. moved_ram dst (p m) m.regs.dp m.ram)) }
    ensures grown { Grown graph.old graph.new }
    ensures adds { AddsAtMost graph.old graph.new 302 32768 }
{
    let factors = factors(graph, alloc, image, table, state, dst, bus)?;
    let ram = state.ram.share()?;
    Ok(Memory {
        k: factors.k,
        l: factors.l,
        ram,
    })
}

/// The RAM after the bus is stored at DP, and the inputs of the multiplier as they were.
fn memory_written(
    graph: &mut Graph,
    alloc: Global,
    state: &SymState,
    bus: WordId,
) -> Result<Memory, OutOfMemory>
    requires state { IsSymState graph.old state.now }
    requires bus { HasWord graph.old bus }
    requires room { length graph.old.nodes + 800 ≤ 2 ^ 31 }
    ensures k { IfOk result (λ r. (p : State → ℕ) → IsPart graph.new state.now r.k (λ m. moved_k Dst.Mem (p m) m.ram m.regs.dp m.regs.k)) }
    ensures l { IfOk result (λ r. (p : State → ℕ) (drom : List ℕ) → IsPart graph.new state.now r.l (λ m. moved_l Dst.Mem (p m) drom m.regs.rp m.regs.l)) }
    ensures ram { IfOk result (λ r. (p : State → ℕ) → IsPart graph.old state.now bus p →
        IsRamOf graph.new state.now r.ram (λ m. moved_ram Dst.Mem (p m) m.regs.dp m.ram)) }
    ensures grown { Grown graph.old graph.new }
    ensures adds { AddsAtMost graph.old graph.new 800 32768 }
{
    let ram = stored(graph, alloc, state, bus)?;
    Ok(Memory {
        k: state.k,
        l: state.l,
        ram,
    })
}

/// The inputs of the multiplier and the RAM after the bus moved.
pub(crate) fn memory(
    graph: &mut Graph,
    alloc: Global,
    image: &Image,
    table: Table,
    state: &SymState,
    dst: Dst,
    bus: WordId,
) -> Result<Memory, OutOfMemory>
    requires state { IsSymState graph.old state.now }
    requires bus { HasWord graph.old bus }
    requires kept { IsKept graph.old.tables table }
    requires words { table_words graph.old.tables table ≡ image.now.drom }
    requires room { length graph.old.nodes + 800 ≤ 2 ^ 31 }
    ensures k { IfOk result (λ r. (p : State → ℕ) → IsPart graph.old state.now bus p →
        IsPart graph.new state.now r.k (λ m. moved_k dst (p m) m.ram m.regs.dp m.regs.k)) }
    ensures l { IfOk result (λ r. (p : State → ℕ) → IsPart graph.old state.now bus p →
        IsPart graph.new state.now r.l (λ m. moved_l dst (p m) image.now.drom m.regs.rp m.regs.l)) }
    ensures ram { IfOk result (λ r. (p : State → ℕ) → IsPart graph.old state.now bus p →
        IsRamOf graph.new state.now r.ram (λ m. moved_ram dst (p m) m.regs.dp m.ram)) }
    ensures grown { Grown graph.old graph.new }
    ensures adds { AddsAtMost graph.old graph.new 800 32768 }
{
    match dst {
        Dst::Mem => memory_written(graph, alloc, state, bus),
        _ => memory_read(graph, alloc, image, table, state, dst, bus),
    }
}

/// The registers that take the bus as it is, after it moved.
pub(crate) fn delivered(dst: Dst, bus: WordId, from: Plain) -> Plain
    ensures a { (g : Terms) (s : SymState) (p q : State → ℕ) → IsPart g s bus p → IsPart g s from.a q → IsPart g s result.a (λ m. moved_a dst (p m) (q m)) }
    ensures b { (g : Terms) (s : SymState) (p q : State → ℕ) → IsPart g s bus p → IsPart g s from.b q → IsPart g s result.b (λ m. moved_b dst (p m) (q m)) }
    ensures tr { (g : Terms) (s : SymState) (p q : State → ℕ) → IsPart g s bus p → IsPart g s from.tr q → IsPart g s result.tr (λ m. moved_tr dst (p m) (q m)) }
    ensures trb { (g : Terms) (s : SymState) (p q : State → ℕ) → IsPart g s bus p → IsPart g s from.trb q → IsPart g s result.trb (λ m. moved_trb dst (p m) (q m)) }
    ensures dr { (g : Terms) (s : SymState) (p q : State → ℕ) → IsPart g s bus p → IsPart g s from.dr q → IsPart g s result.dr (λ m. moved_dr dst (p m) (q m)) }
    ensures so { (g : Terms) (s : SymState) (p q : State → ℕ) → IsPart g s bus p → IsPart g s from.so q → IsPart g s result.so (λ m. moved_so dst (p m) (q m)) }
{
    match dst {
        Dst::A => Plain { a: bus, ..from },
        Dst::B => Plain { b: bus, ..from },
        Dst::Tr => Plain { tr: bus, ..from },
        Dst::Trb => Plain { trb: bus, ..from },
        Dst::Dr => Plain { dr: bus, ..from },
        Dst::Sol => Plain { so: bus, ..from },
        Dst::Som => Plain { so: bus, ..from },
        _ => from,
    }
}

/// The accumulators and flags after the ALU's work on one of them.
pub(crate) fn accumulated(acc: Acc, work: Work, state: &SymState) -> Accumulators
    ensures a { (g : Terms) (p : State → ℕ) → IsSymState g state.now → IsPart g state.now work.value p →
        IsPart g state.now result.a (λ m. worked_on Acc.A acc (p m) m.regs.a) }
    ensures b { (g : Terms) (p : State → ℕ) → IsSymState g state.now → IsPart g state.now work.value p →
        IsPart g state.now result.b (λ m. worked_on Acc.B acc (p m) m.regs.b) }
    ensures flags_a { (g : Terms) (p : State → Flags) → IsSymState g state.now → AreFlagsOf g state.now work.flags p →
        AreFlagsOf g state.now result.flags_a (λ m. worked_on Acc.A acc (p m) m.regs.flags_a) }
    ensures flags_b { (g : Terms) (p : State → Flags) → IsSymState g state.now → AreFlagsOf g state.now work.flags p →
        AreFlagsOf g state.now result.flags_b (λ m. worked_on Acc.B acc (p m) m.regs.flags_b) }
{
    match acc {
        Acc::A => Accumulators {
            a: work.value,
            b: state.b,
            flags_a: work.flags,
            flags_b: state.flags_b,
        },
        Acc::B => Accumulators {
            a: state.a,
            b: work.value,
            flags_a: state.flags_a,
            flags_b: work.flags,
        },
    }
}
