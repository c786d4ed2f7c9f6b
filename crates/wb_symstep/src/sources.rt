ghost use Rattle.std.specs.Prelude.{◌≡◌, ◌≢◌, ◌+◌, ◌≤◌, ◌^◌, [], ◌∷◌, if◌then◌else◌, IfOk, length, slice_index};
ghost use Rattle.wb_term.specs.Terms.{HasWord, HasBit, IsKept, table_words};
ghost use Rattle.wb_term.specs.Values.{IsWord, word_value, bit_value};
ghost use Rattle.wb_term.specs.Growth.{Grown, AddsAtMost};
ghost use Rattle.wb_make.specs.Inputs.{BringsOnly};
ghost use Rattle.wb_machine.specs.Next.{bus_of, far_address};
ghost use Rattle.wb_symstep.specs.State.{IsSymState};
ghost use Rattle.wb_symstep.specs.Parts.{IsPart};

use crate::state::SymState;
use crate::status::status_word;
use std::alloc::Global;
use wb_fold::pages_select;
use wb_make::{mk_const, mk_ite, mk_look, mk_or};
use wb_rom::Image;
use wb_term::{BitId, Graph, OutOfMemory, Table, WordId};
use wb_word::Src;

/// The most positive or the most negative number, for a sign.
fn sign_limit(graph: &mut Graph, is_negative: BitId) -> Result<WordId, OutOfMemory>
    requires bit { HasBit graph.old is_negative }
    requires room { length graph.old.nodes + 3 ≤ 2 ^ 31 }
    ensures value { IfOk result (λ id. IsWord graph.new id (λ inputs. if bit_value inputs graph.old is_negative then 0x7FFF else 0x8000)) }
    ensures inputs { IfOk result (λ id. BringsOnly graph.old graph.new (is_negative.number ∷ []) id.number) }
    ensures grown { Grown graph.old graph.new }
    ensures adds { AddsAtMost graph.old graph.new 3 16 }
{
    let most = mk_const(graph, 0x7FFF)?;
    let least = mk_const(graph, 0x8000)?;
    mk_ite(graph, is_negative, most, least)
}

/// The most positive or the most negative number, by the sign of A.
fn sign_source(graph: &mut Graph, state: &SymState) -> Result<WordId, OutOfMemory>
    requires state { IsSymState graph.old state.now }
    requires room { length graph.old.nodes + 3 ≤ 2 ^ 31 }
    ensures part { IfOk result (λ id. IsPart graph.new state.now id (λ m. if m.regs.flags_a.s1 then 0x7FFF else 0x8000)) }
    ensures grown { Grown graph.old graph.new }
    ensures adds { AddsAtMost graph.old graph.new 3 16 }
{
    sign_limit(graph, state.flags_a.s1)
}

/// The status register.
fn status_source(graph: &mut Graph, state: &SymState) -> Result<WordId, OutOfMemory>
    requires state { IsSymState graph.old state.now }
    requires room { length graph.old.nodes + 4 ≤ 2 ^ 31 }
    ensures part { IfOk result (λ id. IsPart graph.new state.now id (λ m. m.regs.sr)) }
    ensures grown { Grown graph.old graph.new }
    ensures adds { AddsAtMost graph.old graph.new 4 32 }
{
    status_word(graph, state.rqm, state.drs, state.sr)
}

/// The data word that RP points to.
pub(crate) fn rom_word(
    graph: &mut Graph,
    image: &Image,
    table: Table,
    state: &SymState,
) -> Result<WordId, OutOfMemory>
    requires state { IsSymState graph.old state.now }
    requires kept { IsKept graph.old.tables table }
    requires words { table_words graph.old.tables table ≡ image.now.drom }
    requires room { length graph.old.nodes + 1 ≤ 2 ^ 31 }
    ensures part { IfOk result (λ id. IsPart graph.new state.now id (λ m. slice_index image.now.drom m.regs.rp)) }
    ensures grown { Grown graph.old graph.new }
    ensures adds { AddsAtMost graph.old graph.new 1 32768 }
{
    mk_look(graph, table, state.rp)
}

/// The RAM word that DP points to.
pub(crate) fn ram_word(
    graph: &mut Graph,
    alloc: Global,
    state: &SymState,
) -> Result<WordId, OutOfMemory>
    requires state { IsSymState graph.old state.now }
    requires room { length graph.old.nodes + 300 ≤ 2 ^ 31 }
    ensures part { IfOk result (λ id. IsPart graph.new state.now id (λ m. slice_index m.ram m.regs.dp)) }
    ensures grown { Grown graph.old graph.new }
    ensures adds { AddsAtMost graph.old graph.new 300 4080 }
{
    pages_select(graph, alloc, &state.ram, state.dp)
}

/// DP with its bit 6 set.
fn far_pointer(graph: &mut Graph, dp: WordId) -> Result<WordId, OutOfMemory>
    requires dp { HasWord graph.old dp }
    requires room { length graph.old.nodes + 2 ≤ 2 ^ 31 }
    ensures value { IfOk result (λ id. IsWord graph.new id (λ inputs. far_address (word_value inputs graph.old dp))) }
    ensures inputs { IfOk result (λ id. BringsOnly graph.old graph.new (dp.number ∷ []) id.number) }
    ensures grown { Grown graph.old graph.new }
    ensures adds { AddsAtMost graph.old graph.new 2 16 }
{
    let bit = mk_const(graph, 64)?;
    mk_or(graph, dp, bit)
}

/// The RAM word that DP with its bit 6 set points to.
pub(crate) fn far_word(
    graph: &mut Graph,
    alloc: Global,
    state: &SymState,
) -> Result<WordId, OutOfMemory>
    requires state { IsSymState graph.old state.now }
    requires room { length graph.old.nodes + 302 ≤ 2 ^ 31 }
    ensures part { IfOk result (λ id. IsPart graph.new state.now id (λ m. slice_index m.ram (far_address m.regs.dp))) }
    ensures grown { Grown graph.old graph.new }
    ensures adds { AddsAtMost graph.old graph.new 302 4096 }
{
    let far = far_pointer(graph, state.dp)?;
    pages_select(graph, alloc, &state.ram, far)
}

/// What a source other than the RAM puts on the bus.
#[tactic(auto, unfolding(wb_machine::specs::Next::bus_of))]
pub(crate) fn register_source(
    graph: &mut Graph,
    image: &Image,
    table: Table,
    state: &SymState,
    src: Src,
) -> Result<WordId, OutOfMemory>
    requires plain { src ≢ Src.Mem }
    requires state { IsSymState graph.old state.now }
    requires kept { IsKept graph.old.tables table }
    requires words { table_words graph.old.tables table ≡ image.now.drom }
    requires room { length graph.old.nodes + 4 ≤ 2 ^ 31 }
    ensures part { IfOk result (λ id. IsPart graph.new state.now id (bus_of src image.now)) }
    ensures grown { Grown graph.old graph.new }
    ensures adds { AddsAtMost graph.old graph.new 4 32768 }
{
    match src {
        Src::Trb => Ok(state.trb),
        Src::A => Ok(state.a),
        Src::B => Ok(state.b),
        Src::Tr => Ok(state.tr),
        Src::Dp => Ok(state.dp),
        Src::Rp => Ok(state.rp),
        Src::Ro => rom_word(graph, image, table, state),
        Src::Sgn => sign_source(graph, state),
        Src::Dr => Ok(state.dr),
        Src::Drnf => Ok(state.dr),
        Src::Sr => status_source(graph, state),
        Src::Sim => mk_const(graph, 0),
        Src::Sil => mk_const(graph, 0),
        Src::K => Ok(state.k),
        Src::L => Ok(state.l),
        Src::Mem => unreachable!(),
    }
}
