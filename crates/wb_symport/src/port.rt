ghost use Rattle.std.specs.Prelude.{◌≡◌, ◌+◌, ◌<◌, ◌≤◌, ◌^◌, Bool, true, IfOk, length, slice_index};
ghost use Rattle.wb_term.specs.declared.nodes.Node.{Node};
ghost use Rattle.wb_term.specs.declared.nodes.Node.TheVariants.{Word};
ghost use Rattle.wb_term.specs.declared.nodes.WordNode.TheVariants.{Byte};
ghost use Rattle.wb_term.specs.Under.{HasOnly};
ghost use Rattle.wb_term.specs.Growth.{Grown, AddsAtMost};
ghost use Rattle.wb_port.specs.declared.accesses.Access.TheVariants as access;
ghost use Rattle.wb_port.specs.Port.{status_byte, byte_read};
ghost use Rattle.wb_symstep.specs.State.{IsSymState, StateHasOnly};
ghost use Rattle.wb_symstep.specs.Stepped.{IsStepped, SteppedHasOnly};
ghost use Rattle.wb_symport.specs.Transfer.{IsTold, StandsAfter, ForksAtOpenDrc};

use crate::after::after_transfer;
use crate::halves::{DrAfter, half_by, written};
use crate::status::status_byte;
use wb_make::mk_pick;
use wb_symstep::{OutOfMemory, Stepped, SymState, states_stay};
use wb_term::{Graph, WordId};

/// The byte that a status read gives.
pub fn sym_status(graph: &mut Graph, state: &SymState) -> Result<WordId, OutOfMemory>
    requires state { IsSymState graph.old state.now }
    requires room { length graph.old.nodes + 16 ≤ 2 ^ 31 }
    ensures value { IfOk result (λ id. IsTold graph.old graph.new state.now id status_byte) }
    ensures inputs { IfOk result (λ id. (allowed : Node → Bool) → StateHasOnly graph.old allowed state.now →
        HasOnly graph.new allowed id.number) }
    ensures grown { Grown graph.old graph.new }
    ensures adds { AddsAtMost graph.old graph.new 16 256 }
{
    status_byte(graph, state.rqm, state.drs, state.sr)
}

/// The byte that a data read gives, and what comes of the state.
pub fn sym_read(graph: &mut Graph, state: &SymState) -> Result<(WordId, Stepped), OutOfMemory>
    requires state { IsSymState graph.old state.now }
    requires room { length graph.old.nodes + 16 ≤ 2 ^ 31 }
    ensures value { IfOk result (λ r. IsTold graph.old graph.new state.now r.0 byte_read) }
    ensures stands { IfOk result (λ r. StandsAfter graph.old graph.new state.now (λ _. access.Read) r.1) }
    ensures there { IfOk result (λ r. IsStepped graph.new r.1) }
    ensures forks { IfOk result (λ r. ForksAtOpenDrc graph.old graph.new state.now r.1) }
    ensures inputs { IfOk result (λ r. (allowed : Node → Bool) → StateHasOnly graph.old allowed state.now →
        HasOnly graph.new allowed r.0.number × SteppedHasOnly graph.new allowed r.1) }
    ensures grown { Grown graph.old graph.new }
    ensures adds { AddsAtMost graph.old graph.new 16 256 }
{
    states_stay();
    let drc = mk_pick(graph, state.sr, 10)?;
    let byte = half_by(graph, drc, state.drs, state.dr)?;
    let dr = DrAfter {
        alone: state.dr,
        other: state.dr,
    };
    let stepped = after_transfer(graph, drc, state, dr)?;
    Ok((byte, stepped))
}

/// What comes of the state by a data write of the byte of a place.
pub fn sym_write(graph: &mut Graph, state: &SymState, place: u8) -> Result<Stepped, OutOfMemory>
    requires state { IsSymState graph.old state.now }
    requires place { place < 16 }
    requires room { length graph.old.nodes + 16 ≤ 2 ^ 31 }
    ensures stands { IfOk result (StandsAfter graph.old graph.new state.now (λ inputs. access.Write (slice_index inputs.bytes place))) }
    ensures there { IfOk result (IsStepped graph.new) }
    ensures forks { IfOk result (ForksAtOpenDrc graph.old graph.new state.now) }
    ensures inputs { IfOk result (λ r. (allowed : Node → Bool) → allowed (Word (Byte place)) ≡ true →
        StateHasOnly graph.old allowed state.now → SteppedHasOnly graph.new allowed r) }
    ensures grown { Grown graph.old graph.new }
    ensures adds { AddsAtMost graph.old graph.new 16 256 }
{
    states_stay();
    let drc = mk_pick(graph, state.sr, 10)?;
    let dr = written(graph, drc, state.drs, place, state.dr)?;
    after_transfer(graph, drc, state, dr)
}
