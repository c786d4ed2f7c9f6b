ghost use Rattle.std.specs.Prelude.{◌≡◌, ◌≢◌, ◌+◌, ◌≤◌, ◌^◌, true, is_some, Some, None, [], ◌∷◌, ◌++◌, IfOk, IfErr, OnOk, OnErr, length, slice_index_or, ◌<◌, All};
ghost use Rattle.wb_term.specs.Growth.{Grown, AddsAtMost};
ghost use Rattle.wb_point.specs.Dialogues.{dialogue_under};
ghost use Rattle.wb_explore.specs.Entries.{IsSound, Joins};
ghost use Rattle.wb_explore.specs.Plans.{runs_of};
ghost use Rattle.wb_explore.specs.Layers.{AddsPassed};
ghost use Rattle.wb_explore.specs.Pending.{entry_view, IsEntry, IsFound, ArePending, IsPut, IsPlaceOf, IsUnnoted, IsUnmet, IsUnput, IsMet, IsNotedOrNot, with_noted, either, newly};

use crate::entries::{Entry, place_of};
use crate::facts::held_laws;
use crate::faults::ExploreFault;
use crate::plan::Plan;
use crate::purse::Purse;
use crate::reached::{Reached, ReachedPoint};
use std::alloc::Global;
use wb_make::mk_orb;
use wb_point::{dialogue_of, dialogues_are_of_their_kinds, merge};
use wb_port::Point;
use wb_rom::Image;
use wb_symstep::states_stay;
use wb_term::{Graph, Inputs};
use wb_word::OutOfMemory;

/// Notes a point in the purse, with the dialogue of inputs whose held run passes it.
pub(crate) fn note(
    alloc: Global,
    plan: &Plan,
    purse: &mut Purse,
    key: &Point,
    inputs: &Inputs,
) -> Result<(), ExploreFault>
    requires few { length plan.now.kinds ≤ 16 }
    requires fresh { All (λ r. r.point ≢ key.now) purse.old.reached }
    ensures ok { OnOk result (purse.new ≡ record purse.old { reached = with_noted plan.now key.now (Some inputs.now) purse.old.reached }) }
    ensures fault { IfErr result (IsUnnoted purse.old (record { point = key.now; dialogue = dialogue_under plan.now.kinds inputs.now plan.now.power })) }
    ensures kept { OnErr result (purse.new ≡ purse.old) }
{
    let point = key.copy(alloc)?;
    let dialogue = dialogue_of(alloc, &plan.kinds, inputs, plan.power)?;
    let reached = ReachedPoint { point, dialogue };
    if purse.is_full() {
        let list = one_more(alloc, purse, reached)?;
        return Err(ExploreFault::Points(list));
    }
    purse.add(reached)?;
    Ok(())
}

/// The points of a purse, and one more.
fn one_more(alloc: Global, purse: &Purse, reached: ReachedPoint) -> Result<Reached, OutOfMemory>
    ensures { IfOk result (λ list. list ≡ purse.now.reached ++ reached ∷ []) }
{
    let mut list = purse.points().copy(alloc)?;
    list.push(reached)?;
    Ok(list)
}

/// Notes a point in the purse where the first inputs are there and the second aren't.
fn note_newly(
    alloc: Global,
    plan: &Plan,
    purse: &mut Purse,
    key: &Point,
    first: &Option<Inputs>,
    second: &Option<Inputs>,
) -> Result<(), ExploreFault>
    requires few { length plan.now.kinds ≤ 16 }
    requires fresh { is_some (newly first.now second.now) ≡ true → All (λ r. r.point ≢ key.now) purse.old.reached }
    ensures ok { OnOk result (purse.new ≡ record purse.old { reached = with_noted plan.now key.now (newly first.now second.now) purse.old.reached }) }
    ensures fault { IfErr result (IsUnmet plan.now purse.old key.now (newly first.now second.now)) }
    ensures kept { OnErr result (purse.new ≡ purse.old) }
{
    match (first, second) {
        (Some(inputs), None) => note(alloc, plan, purse, key, inputs),
        _ => Ok(()),
    }
}

/// The one entry for two of one point.
fn join(
    graph: &mut Graph,
    alloc: Global,
    image: &Image,
    plan: &Plan,
    entry: Entry,
    other: Entry,
) -> Result<Entry, OutOfMemory>
    requires entry { IsEntry graph.old image.now plan.now entry }
    requires other { IsEntry graph.old image.now plan.now other }
    requires same { other.key ≡ entry.key }
    requires room { length graph.old.nodes + 301 ≤ 2 ^ 31 }
    ensures joins { IfOk result (Joins (entry_view graph.new) entry other) }
    ensures entry { IfOk result (IsEntry graph.new image.now plan.now) }
    ensures witness { IfOk result (λ j. j.witness ≡ either entry.witness other.witness) }
    ensures grown { Grown graph.old graph.new }
    ensures adds { AddsAtMost graph.old graph.new 301 5001 }
{
    states_stay();
    let state = merge(graph, alloc, entry.cond, &entry.state, &other.state)?;
    let cond = mk_orb(graph, entry.cond, other.cond)?;
    let witness = first_of(entry.witness, other.witness);
    Ok(Entry {
        key: entry.key,
        rank: entry.rank,
        state,
        cond,
        witness,
    })
}

/// The first inputs, or else the second.
fn first_of(first: Option<Inputs>, second: Option<Inputs>) -> Option<Inputs>
    ensures { result ≡ either first second }
{
    match first {
        Some(inputs) => Some(inputs),
        None => second,
    }
}

/// Notes the point of an entry that meets another where it is newly found, and joins the two.
fn meet(
    graph: &mut Graph,
    alloc: Global,
    image: &Image,
    plan: &Plan,
    purse: &mut Purse,
    entry: Entry,
    other: Entry,
) -> Result<Entry, ExploreFault>
    requires entry { IsEntry graph.old image.now plan.now entry }
    requires other { IsEntry graph.old image.now plan.now other }
    requires same { other.key ≡ entry.key }
    requires few { length plan.now.kinds ≤ 16 }
    requires fresh { is_some (newly entry.witness other.witness) ≡ true → All (λ r. r.point ≢ entry.key) purse.old.reached }
    requires room { length graph.old.nodes + 301 ≤ 2 ^ 31 }
    ensures joins { IfOk result (Joins (entry_view graph.new) entry other) }
    ensures entry { IfOk result (IsEntry graph.new image.now plan.now) }
    ensures witness { IfOk result (λ j. j.witness ≡ either entry.witness other.witness) }
    ensures noted { OnOk result (purse.new ≡ record purse.old { reached = with_noted plan.now entry.key (newly entry.witness other.witness) purse.old.reached }) }
    ensures fault { IfErr result (IsUnmet plan.now purse.old entry.key (newly entry.witness other.witness)) }
    ensures purse { IsNotedOrNot plan.now entry.key (newly entry.witness other.witness) purse.old purse.new }
    ensures grown { Grown graph.old graph.new }
    ensures adds { AddsAtMost graph.old graph.new 301 5001 }
{
    note_newly(
        alloc,
        plan,
        purse,
        &entry.key,
        &entry.witness,
        &other.witness,
    )?;
    let joined = join(graph, alloc, image, plan, entry, other)?;
    Ok(joined)
}

/// Puts an entry at the end, and notes its point where it has inputs.
fn push_noted(
    alloc: Global,
    plan: &Plan,
    purse: &mut Purse,
    pending: &mut Vec<Entry>,
    entry: Entry,
) -> Result<(), ExploreFault>
    requires few { length plan.now.kinds ≤ 16 }
    requires fresh { is_some (newly entry.witness None) ≡ true → All (λ r. r.point ≢ entry.key) purse.old.reached }
    ensures put { OnOk result (pending.new.items ≡ pending.old.items ++ entry ∷ []) }
    ensures noted { OnOk result (purse.new ≡ record purse.old { reached = with_noted plan.now entry.key (newly entry.witness None) purse.old.reached }) }
    ensures fault { IfErr result (IsUnmet plan.now purse.old entry.key (newly entry.witness None)) }
    ensures purse { IsNotedOrNot plan.now entry.key (newly entry.witness None) purse.old purse.new }
{
    note_newly(alloc, plan, purse, &entry.key, &entry.witness, &None)?;
    pending.push(entry)?;
    Ok(())
}

/// Joins an entry with another of its point, notes the point where it is newly found, and puts the joined one at the
/// end.
#[tactic(auto, using(crate::proofs::Refusals::unmet_memory))]
fn push_joined(
    graph: &mut Graph,
    alloc: Global,
    image: &Image,
    plan: &Plan,
    purse: &mut Purse,
    pending: &mut Vec<Entry>,
    entry: Entry,
    other: Entry,
) -> Result<(), ExploreFault>
    requires entry { IsEntry graph.old image.now plan.now entry }
    requires other { IsEntry graph.old image.now plan.now other }
    requires same { other.key ≡ entry.key }
    requires few { length plan.now.kinds ≤ 16 }
    requires fresh { is_some (newly entry.witness other.witness) ≡ true → All (λ r. r.point ≢ entry.key) purse.old.reached }
    requires room { length graph.old.nodes + 301 ≤ 2 ^ 31 }
    ensures met { OnOk result (IsMet graph.new image.now plan.now entry other pending.old.items pending.new.items) }
    ensures noted { OnOk result (purse.new ≡ record purse.old { reached = with_noted plan.now entry.key (newly entry.witness other.witness) purse.old.reached }) }
    ensures fault { IfErr result (IsUnmet plan.now purse.old entry.key (newly entry.witness other.witness)) }
    ensures purse { IsNotedOrNot plan.now entry.key (newly entry.witness other.witness) purse.old purse.new }
    ensures grown { Grown graph.old graph.new }
    ensures adds { AddsAtMost graph.old graph.new 301 5001 }
{
    let joined = meet(graph, alloc, image, plan, purse, entry, other)?;
    pending.push(joined)?;
    Ok(())
}

/// Puts an entry at the end of the pending ones, none of which has its point.
fn arrive_alone(
    graph: &Graph,
    alloc: Global,
    image: &Image,
    plan: &Plan,
    purse: &mut Purse,
    pending: &mut Vec<Entry>,
    entry: Entry,
) -> Result<(), ExploreFault>
    requires pending { ArePending graph.now image.now plan.now purse.old.reached pending.old.items }
    requires entry { IsEntry graph.now image.now plan.now entry }
    requires sound { IsSound (entry_view graph.now) (runs_of image.now plan.now) entry }
    requires fresh { All (λ r. r.point ≡ entry.key → IsFound pending.old.items entry.key) purse.old.reached }
    requires few { length plan.now.kinds ≤ 16 }
    requires alone { All (λ f. f.key ≢ entry.key) pending.old.items }
    ensures put { OnOk result (IsPut image.now plan.now graph.now graph.now purse.old.reached purse.new.reached pending.old.items entry pending.new.items) }
    ensures fault { IfErr result (IsUnput image.now plan.now purse.old) }
    ensures passed { AddsPassed image.now plan.now purse.old.reached purse.new.reached }
    ensures budget { purse.new.budget ≡ purse.old.budget }
{
    held_laws();
    dialogues_are_of_their_kinds();
    states_stay();
    let _full = purse.is_full();
    push_noted(alloc, plan, purse, pending, entry)
}

/// Joins an entry with the pending one of its point.
fn arrive_met(
    graph: &mut Graph,
    alloc: Global,
    image: &Image,
    plan: &Plan,
    purse: &mut Purse,
    pending: &mut Vec<Entry>,
    place: usize,
    entry: Entry,
) -> Result<(), ExploreFault>
    requires pending { ArePending graph.old image.now plan.now purse.old.reached pending.old.items }
    requires entry { IsEntry graph.old image.now plan.now entry }
    requires sound { IsSound (entry_view graph.old) (runs_of image.now plan.now) entry }
    requires fresh { All (λ r. r.point ≡ entry.key → IsFound pending.old.items entry.key) purse.old.reached }
    requires few { length plan.now.kinds ≤ 16 }
    requires place { place < length pending.old.items }
    requires same { (slice_index_or pending.old.items place entry).key ≡ entry.key }
    requires room { length graph.old.nodes + 301 ≤ 2 ^ 31 }
    ensures put { OnOk result (IsPut image.now plan.now graph.old graph.new purse.old.reached purse.new.reached pending.old.items entry pending.new.items) }
    ensures fault { IfErr result (IsUnput image.now plan.now purse.old) }
    ensures passed { AddsPassed image.now plan.now purse.old.reached purse.new.reached }
    ensures budget { purse.new.budget ≡ purse.old.budget }
    ensures grown { Grown graph.old graph.new }
    ensures adds { AddsAtMost graph.old graph.new 301 5001 }
{
    held_laws();
    dialogues_are_of_their_kinds();
    states_stay();
    let _full = purse.is_full();
    let other = pending.remove(place);
    push_joined(graph, alloc, image, plan, purse, pending, entry, other)
}

/// Puts an entry among the pending ones: alone, or joined with that of its point. A point of which inputs are found for
/// the first time is noted in the purse.
pub(crate) fn arrive(
    graph: &mut Graph,
    alloc: Global,
    image: &Image,
    plan: &Plan,
    purse: &mut Purse,
    pending: &mut Vec<Entry>,
    entry: Entry,
) -> Result<(), ExploreFault>
    requires pending { ArePending graph.old image.now plan.now purse.old.reached pending.old.items }
    requires entry { IsEntry graph.old image.now plan.now entry }
    requires sound { IsSound (entry_view graph.old) (runs_of image.now plan.now) entry }
    requires fresh { All (λ r. r.point ≡ entry.key → IsFound pending.old.items entry.key) purse.old.reached }
    requires few { length plan.now.kinds ≤ 16 }
    requires room { length graph.old.nodes + 301 ≤ 2 ^ 31 }
    ensures put { OnOk result (IsPut image.now plan.now graph.old graph.new purse.old.reached purse.new.reached pending.old.items entry pending.new.items) }
    ensures fault { IfErr result (IsUnput image.now plan.now purse.old) }
    ensures passed { AddsPassed image.now plan.now purse.old.reached purse.new.reached }
    ensures budget { purse.new.budget ≡ purse.old.budget }
    ensures grown { Grown graph.old graph.new }
    ensures adds { AddsAtMost graph.old graph.new 301 5001 }
    ensures alone { All (λ f. f.key ≢ entry.key) pending.old.items → graph.new ≡ graph.old }
{
    match place_of(pending, &entry.key) {
        None => arrive_alone(graph, alloc, image, plan, purse, pending, entry),
        Some(place) => arrive_met(graph, alloc, image, plan, purse, pending, place, entry),
    }
}
