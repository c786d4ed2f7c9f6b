//! The start: the entry at power-up, before any transfer.
ghost use Rattle.std.specs.Prelude.{◌≡◌, ◌≤◌, ◌+◌, ◌^◌, Bool, true, Some, [], IfOk, IfErr, OnOk, length, All};
ghost use Rattle.wb_term.specs.declared.nodes.Node.{Node};
ghost use Rattle.wb_term.specs.Inputs.{Assignment, IsAssignment};
ghost use Rattle.wb_term.specs.Growth.{Grown, AddsAtMost};
ghost use Rattle.wb_symstep.specs.State.{IsSymState, StateHasOnly, StandsFor};
ghost use Rattle.wb_machine.specs.State.{power as power_up};
ghost use Rattle.wb_port.specs.declared.accesses.Power.TheVariants as powers;
ghost use Rattle.wb_point.specs.Dialogues.{start_under};
ghost use Rattle.wb_explore.specs.declared.entries.Entry.{Entry};
ghost use Rattle.wb_explore.specs.Entries.{Covered};
ghost use Rattle.wb_explore.specs.Plans.{runs_of, is_chosen};
ghost use Rattle.wb_explore.specs.Layers.{AddsPassed};
ghost use Rattle.wb_explore.specs.Explored.{IsOfOther};
ghost use Rattle.wb_explore.specs.Growth.{IsWithin, GrowsByPoints};
ghost use Rattle.wb_explore.specs.Pending.{entry_view, ArePending, AreAhead, IsUnput, found_in};
ghost use Rattle.wb_explore.specs.Starts.{start_point, zero_inputs, IsStart};

use crate::arrivals::note;
use crate::entries::Entry;
use crate::facts::held_laws;
use crate::faults::ExploreFault;
use crate::plan::Plan;
use crate::purse::Purse;
use std::alloc::Global;
use wb_make::mk_known;
use wb_point::{dialogues_are_of_their_kinds, rank_at, shown};
use wb_port::{Kinds, Point, Power};
use wb_rom::Image;
use wb_symstep::{SymState, states_stay};
use wb_term::{Graph, Inputs};
use wb_word::OutOfMemory;

/// The point of a chip at power-up.
fn start_key(alloc: Global, plan: &Plan) -> Result<Point, OutOfMemory>
    ensures { IfOk result (λ p. p ≡ start_point plan.now) }
{
    let kinds = Kinds::new(alloc);
    Ok(Point {
        side: plan.side,
        kinds,
        count: 0,
        pc: 0,
        sp: 0,
        stack: [0; 4],
        asked: false,
        rqm: false,
        drs: false,
    })
}

/// Inputs that are all zero.
fn no_inputs(alloc: Global) -> Result<Inputs, OutOfMemory>
    ensures { IfOk result (λ inputs. inputs ≡ zero_inputs) }
{
    let inputs = Inputs::new(alloc, &[0; 16], &[0; 256])?;
    Ok(inputs)
}

/// The state at power-up over a RAM of zeros.
fn zero_state(graph: &mut Graph, alloc: Global) -> Result<SymState, OutOfMemory>
    requires room { length graph.old.nodes + 272 ≤ 2 ^ 31 }
    ensures state { IfOk result (IsSymState graph.new) }
    ensures stands { IfOk result (λ s. (inputs : Assignment) → IsAssignment inputs → StandsFor inputs graph.new s (power_up (start_under inputs powers.Zero))) }
    ensures inputs { IfOk result (StateHasOnly graph.new (is_chosen [] powers.Zero)) }
    ensures grown { Grown graph.old graph.new }
    ensures adds { AddsAtMost graph.old graph.new 272 0 }
{
    SymState::reset(graph, alloc)
}

/// The state at power-up, for all starts that the power allows.
fn start_state(graph: &mut Graph, alloc: Global, power: Power) -> Result<SymState, OutOfMemory>
    requires room { length graph.old.nodes + 272 ≤ 2 ^ 31 }
    ensures state { IfOk result (IsSymState graph.new) }
    ensures stands { IfOk result (λ s. (inputs : Assignment) → IsAssignment inputs → StandsFor inputs graph.new s (power_up (start_under inputs power))) }
    ensures inputs { IfOk result (StateHasOnly graph.new (is_chosen [] power)) }
    ensures grown { Grown graph.old graph.new }
    ensures adds { AddsAtMost graph.old graph.new 272 0 }
{
    match power {
        Power::Zero => zero_state(graph, alloc),
        Power::Any => SymState::power(graph, alloc),
    }
}

/// The entry at power-up.
fn start_entry(
    graph: &mut Graph,
    alloc: Global,
    image: &Image,
    plan: &Plan,
    key: Point,
    inputs: Inputs,
) -> Result<Entry, OutOfMemory>
    requires key { key ≡ start_point plan.now }
    requires inputs { inputs ≡ zero_inputs }
    requires empty { plan.now.kinds ≡ [] }
    requires room { length graph.old.nodes + 273 ≤ 2 ^ 31 }
    ensures start { IfOk result (IsStart graph.new image.now plan.now) }
    ensures grown { Grown graph.old graph.new }
    ensures adds { AddsAtMost graph.old graph.new 273 0 }
{
    states_stay();
    let state = start_state(graph, alloc, plan.power)?;
    let cond = mk_known(graph, true)?;
    let _shows = shown(&state);
    let rank = rank_at(image, plan.pace, &key);
    Ok(Entry {
        key,
        rank,
        state,
        cond,
        witness: Some(inputs),
    })
}

/// Notes the point of the start, and then makes its entry.
pub(crate) fn begin(
    graph: &mut Graph,
    alloc: Global,
    image: &Image,
    plan: &Plan,
    purse: &mut Purse,
) -> Result<Vec<Entry>, ExploreFault>
    requires empty { plan.now.kinds ≡ [] }
    requires fresh { All (IsOfOther plan.now) purse.old.reached }
    requires within { IsWithin graph.old plan.now.power (length purse.old.reached) 4000 260000 }
    ensures pending { IfOk result (λ es. ArePending graph.new image.now plan.now purse.new.reached es.items) }
    ensures ahead { IfOk result (λ es. AreAhead image.now plan.now purse.new.reached es.items 0) }
    ensures covered { IfOk result (λ es. Covered (entry_view graph.new) (runs_of image.now plan.now) es.items (λ _ _. ⊥)) }
    ensures count { IfOk result (λ es. length purse.old.reached + found_in es.items ≤ length purse.new.reached) }
    ensures fault { IfErr result (IsUnput image.now plan.now purse.old) }
    ensures passed { AddsPassed image.now plan.now purse.old.reached purse.new.reached }
    ensures budget { purse.new.budget ≡ purse.old.budget }
    ensures grown { Grown graph.old graph.new }
    ensures grows { OnOk result (GrowsByPoints graph.old graph.new (length purse.old.reached) (length purse.new.reached) 273 0) }
    ensures within { IsWithin graph.new plan.now.power (length purse.new.reached) 4096 262144 }
{
    held_laws();
    dialogues_are_of_their_kinds();
    states_stay();
    let _points = purse.points();
    let key = start_key(alloc, plan)?;
    let inputs = no_inputs(alloc)?;
    let mut pending = Vec::new(alloc);
    note(alloc, plan, purse, &key, &inputs)?;
    let entry = start_entry(graph, alloc, image, plan, key, inputs)?;
    pending.push(entry)?;
    Ok(pending)
}
