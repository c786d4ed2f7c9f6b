ghost use Rattle.std.specs.Prelude.{◌≡◌, ◌+◌, ◌≤◌, ◌^◌, Bool, ℕ, [], ◌∷◌, IfOk, length};
ghost use Rattle.wb_term.specs.Terms.{HasWord};
ghost use Rattle.wb_term.specs.Values.{IsWord, word_value};
ghost use Rattle.wb_term.specs.Growth.{Grown, AddsAtMost};
ghost use Rattle.wb_make.specs.Inputs.{BringsOnly};
ghost use Rattle.wb_machine.specs.State.{State};
ghost use Rattle.wb_machine.specs.Next.{dp_stepped, moved_dp, moved_rp, moved_sr, raised_by, rp_stepped};
ghost use Rattle.wb_symstep.specs.State.{status, IsSymState};
ghost use Rattle.wb_symstep.specs.Parts.{IsPart, IsStatusOf, sr_written};

use crate::moves::narrowed;
use crate::pointers::{step_dp, step_rp};
use crate::state::SymState;
use crate::work::{Narrow, Registers};
use wb_term::{Graph, OutOfMemory, WordId};
use wb_word::{Dst, OpWord, Src};

/// RQM after the source was put on the bus: reading DR raises it.
fn raised_by_source(src: Src, rqm: bool) -> bool
    ensures { (drs : Bool) (word : ℕ) → status result drs word ≡ raised_by src (status rqm drs word) }
{
    match src {
        Src::Dr => true,
        _ => rqm,
    }
}

/// RQM after a move: one to DR raises it.
fn raised_by_move(dst: Dst, rqm: bool) -> bool
    ensures { (drs : Bool) (bus word : ℕ) → status result drs (sr_written dst bus word) ≡ moved_sr dst bus (status rqm drs word) }
{
    match dst {
        Dst::Dr => true,
        _ => rqm,
    }
}

/// DP and RP after the changes that a word makes in them.
fn stepped_pointers(graph: &mut Graph, op: &OpWord, state: &SymState) -> Result<Narrow, OutOfMemory>
    requires state { IsSymState graph.old state.now }
    requires room { length graph.old.nodes + 15 ≤ 2 ^ 31 }
    ensures dp { IfOk result (λ r. IsPart graph.new state.now r.dp (λ m. dp_stepped op.now.dpl op.now.dphm.value m.regs.dp)) }
    ensures rp { IfOk result (λ r. IsPart graph.new state.now r.rp (λ m. rp_stepped op.now.rpdec m.regs.rp)) }
    ensures sr { IfOk result (λ r. r.sr ≡ state.now.sr) }
    ensures grown { Grown graph.old graph.new }
    ensures adds { AddsAtMost graph.old graph.new 15 176 }
{
    let dp = step_dp(graph, op.dpl, op.dphm, state.dp)?;
    let rp = step_rp(graph, op.rpdec, state.rp)?;
    Ok(Narrow {
        dp,
        rp,
        sr: state.sr,
    })
}

/// DP, RP and SR after a word that computes and moves.
pub(crate) fn operated_registers(
    graph: &mut Graph,
    op: &OpWord,
    state: &SymState,
    bus: WordId,
) -> Result<Registers, OutOfMemory>
    requires state { IsSymState graph.old state.now }
    requires bus { HasWord graph.old bus }
    requires room { length graph.old.nodes + 20 ≤ 2 ^ 31 }
    ensures dp { IfOk result (λ r. (p : State → ℕ) → IsPart graph.old state.now bus p →
        IsPart graph.new state.now r.dp (λ m. moved_dp op.now.dst (p m) (dp_stepped op.now.dpl op.now.dphm.value m.regs.dp))) }
    ensures rp { IfOk result (λ r. (p : State → ℕ) → IsPart graph.old state.now bus p →
        IsPart graph.new state.now r.rp (λ m. moved_rp op.now.dst (p m) (rp_stepped op.now.rpdec m.regs.rp))) }
    ensures sr { IfOk result (λ r. (p : State → ℕ) → IsPart graph.old state.now bus p →
        IsStatusOf graph.new state.now r.rqm state.now.drs r.sr (λ m. moved_sr op.now.dst (p m) (raised_by op.now.src m.regs.sr))) }
    ensures grown { Grown graph.old graph.new }
    ensures adds { AddsAtMost graph.old graph.new 20 224 }
{
    let stepped = stepped_pointers(graph, op, state)?;
    let after = narrowed(graph, op.dst, bus, stepped)?;
    Ok(Registers {
        dp: after.dp,
        rp: after.rp,
        sr: after.sr,
        rqm: raised_by_move(op.dst, raised_by_source(op.src, state.rqm)),
    })
}

/// DP, RP and SR after a word that loads.
pub(crate) fn loaded_registers(
    graph: &mut Graph,
    dst: Dst,
    state: &SymState,
    bus: WordId,
) -> Result<Registers, OutOfMemory>
    requires state { IsSymState graph.old state.now }
    requires bus { HasWord graph.old bus }
    requires room { length graph.old.nodes + 5 ≤ 2 ^ 31 }
    ensures dp { IfOk result (λ r. (p : State → ℕ) → IsPart graph.old state.now bus p →
        IsPart graph.new state.now r.dp (λ m. moved_dp dst (p m) m.regs.dp)) }
    ensures rp { IfOk result (λ r. (p : State → ℕ) → IsPart graph.old state.now bus p →
        IsPart graph.new state.now r.rp (λ m. moved_rp dst (p m) m.regs.rp)) }
    ensures sr { IfOk result (λ r. (p : State → ℕ) → IsPart graph.old state.now bus p →
        IsStatusOf graph.new state.now r.rqm state.now.drs r.sr (λ m. moved_sr dst (p m) m.regs.sr)) }
    ensures grown { Grown graph.old graph.new }
    ensures adds { AddsAtMost graph.old graph.new 5 48 }
{
    let from = Narrow {
        dp: state.dp,
        rp: state.rp,
        sr: state.sr,
    };
    let after = narrowed(graph, dst, bus, from)?;
    Ok(Registers {
        dp: after.dp,
        rp: after.rp,
        sr: after.sr,
        rqm: raised_by_move(dst, state.rqm),
    })
}
