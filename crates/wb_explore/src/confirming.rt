//! Confirming: whether a held run comes to an entry, and inputs of one that does.
ghost use Rattle.std.specs.Prelude.{◌≡◌, ◌≢◌, ◌≤◌, ◌^◌, true, false, is_some, IfOk, IfErr, OnOk, length, All};
ghost use Rattle.wb_term.specs.Growth.{total_weight};
ghost use Rattle.wb_term.specs.Inputs.{IsAssignment};
ghost use Rattle.wb_term.specs.Values.{bit_value};
ghost use Rattle.wb_explore.specs.Entries.{IsSound, SaysPassing};
ghost use Rattle.wb_explore.specs.Plans.{runs_of};
ghost use Rattle.wb_explore.specs.Layers.{AddsPassed};
ghost use Rattle.wb_explore.specs.Faults.{IsCause, OfBadAnswer, IsLastAnswer, StillTells};
ghost use Rattle.wb_explore.specs.Pending.{entry_view, IsEntry, IsUnput};
ghost use Rattle.wb_explore.specs.Walk.{IsConfirmed, IsConfirmedAs};

use crate::arrivals::note;
use crate::entries::Entry;
use crate::facts::held_laws;
use crate::faults::ExploreFault;
use crate::plan::Plan;
use crate::purse::Purse;
use crate::questions::ask_point;
use std::alloc::Global;
use wb_blast::gate_numbers_are_light;
use wb_point::{
    dialogues_are_of_their_kinds, normalise, normalised_inputs_give_the_values,
    normalised_inputs_keep_the_dialogue,
};
use wb_query::{Found, Oracle};
use wb_rom::Image;
use wb_symstep::states_stay;
use wb_term::{Graph, Inputs};

/// Gives an entry the inputs that were found, without what its dialogue doesn't use, and notes its point.
fn witnessed(
    graph: &Graph,
    alloc: Global,
    image: &Image,
    plan: &Plan,
    purse: &mut Purse,
    entry: Entry,
    inputs: Inputs,
) -> Result<Entry, ExploreFault>
    requires entry { IsEntry graph.now image.now plan.now entry }
    requires sound { IsSound (entry_view graph.now) (runs_of image.now plan.now) entry }
    requires few { length plan.now.kinds ≤ 16 }
    requires none { is_some entry.witness ≡ false }
    requires fresh { All (λ r. r.point ≢ entry.key) purse.old.reached }
    requires inputs { IsAssignment inputs }
    requires holds { bit_value inputs graph.now entry.cond ≡ true }
    ensures confirmed { IfOk result (IsConfirmedAs graph.now image.now plan.now purse.old purse.new entry) }
    ensures fault { IfErr result (IsUnput image.now plan.now purse.old) }
    ensures passed { AddsPassed image.now plan.now purse.old.reached purse.new.reached }
    ensures budget { purse.new.budget ≡ purse.old.budget }
{
    held_laws();
    dialogues_are_of_their_kinds();
    states_stay();
    normalised_inputs_keep_the_dialogue();
    normalised_inputs_give_the_values();
    let _nodes = graph.len();
    let _full = purse.is_full();
    let normal = normalise(alloc, &inputs, &plan.kinds, plan.power)?;
    note(alloc, plan, purse, &entry.key, &normal)?;
    Ok(Entry {
        key: entry.key,
        rank: entry.rank,
        state: entry.state,
        cond: entry.cond,
        witness: Some(normal),
    })
}

/// Asks whether a held run comes to an entry of which no inputs are known.
fn find<O: Oracle>(
    graph: &Graph,
    alloc: Global,
    image: &Image,
    plan: &Plan,
    purse: &mut Purse,
    entry: Entry,
    oracle: &mut O,
) -> Result<Option<Entry>, ExploreFault>
    requires entry { IsEntry graph.now image.now plan.now entry }
    requires sound { IsSound (entry_view graph.now) (runs_of image.now plan.now) entry }
    requires few { length plan.now.kinds ≤ 16 }
    requires none { is_some entry.witness ≡ false }
    requires says { SaysPassing (entry_view graph.now) (runs_of image.now plan.now) entry }
    requires fresh { All (λ r. r.point ≢ entry.key) purse.old.reached }
    requires limit { O.limit_of oracle.old ≡ purse.old.budget.conflicts }
    requires light { total_weight graph.now ≤ 2 ^ 31 }
    ensures confirmed { IfOk result (IsConfirmed graph.now image.now plan.now purse.old purse.new entry) }
    ensures cause { IfErr result (IsCause image.now plan.now (O.is_sound oracle.old) purse.old) }
    ensures last { IfErr result (OfBadAnswer (IsLastAnswer (O.held oracle.old) (O.given oracle.old) (O.given oracle.new))) }
    ensures passed { AddsPassed image.now plan.now purse.old.reached purse.new.reached }
    ensures budget { purse.new.budget ≡ purse.old.budget }
    ensures sound { O.is_sound oracle.new ≡ O.is_sound oracle.old }
    ensures limit { O.limit_of oracle.new ≡ O.limit_of oracle.old }
    ensures held { O.held oracle.new ≡ O.held oracle.old }
    ensures tells { OnOk result (StillTells (O.held oracle.old) (O.given oracle.old) (O.given oracle.new)) }
{
    gate_numbers_are_light();
    match ask_point(graph, alloc, image, plan, &entry, oracle)? {
        Found::Never => Ok(None),
        Found::Holds(inputs) => {
            let found = witnessed(graph, alloc, image, plan, purse, entry, inputs)?;
            Ok(Some(found))
        }
    }
}

/// Finds inputs of a held run that comes to an entry, where it has none yet; or that there is no such run.
pub(crate) fn confirm<O: Oracle>(
    graph: &Graph,
    alloc: Global,
    image: &Image,
    plan: &Plan,
    purse: &mut Purse,
    entry: Entry,
    oracle: &mut O,
) -> Result<Option<Entry>, ExploreFault>
    requires entry { IsEntry graph.now image.now plan.now entry }
    requires sound { IsSound (entry_view graph.now) (runs_of image.now plan.now) entry }
    requires few { length plan.now.kinds ≤ 16 }
    requires says { is_some entry.witness ≡ false → SaysPassing (entry_view graph.now) (runs_of image.now plan.now) entry }
    requires fresh { is_some entry.witness ≡ false → All (λ r. r.point ≢ entry.key) purse.old.reached }
    requires limit { O.limit_of oracle.old ≡ purse.old.budget.conflicts }
    requires light { total_weight graph.now ≤ 2 ^ 31 }
    ensures confirmed { IfOk result (IsConfirmed graph.now image.now plan.now purse.old purse.new entry) }
    ensures cause { IfErr result (IsCause image.now plan.now (O.is_sound oracle.old) purse.old) }
    ensures last { IfErr result (OfBadAnswer (IsLastAnswer (O.held oracle.old) (O.given oracle.old) (O.given oracle.new))) }
    ensures passed { AddsPassed image.now plan.now purse.old.reached purse.new.reached }
    ensures budget { purse.new.budget ≡ purse.old.budget }
    ensures sound { O.is_sound oracle.new ≡ O.is_sound oracle.old }
    ensures limit { O.limit_of oracle.new ≡ O.limit_of oracle.old }
    ensures held { O.held oracle.new ≡ O.held oracle.old }
    ensures tells { OnOk result (StillTells (O.held oracle.old) (O.given oracle.old) (O.given oracle.new)) }
{
    if entry.witness.is_some() {
        return Ok(Some(entry));
    }
    find(graph, alloc, image, plan, purse, entry, oracle)
}
