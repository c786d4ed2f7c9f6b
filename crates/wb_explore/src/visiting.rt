//! Visiting: what becomes of a confirmed entry, by what its chips do next.
ghost use Rattle.std.specs.Prelude.{◌≡◌, ◌≤◌, ◌<◌, ◌+◌, ◌^◌, true, is_some, IfErr, IfOk, OnOk, length};
ghost use Rattle.wb_term.specs.Terms.{table_of, table_words};
ghost use Rattle.wb_term.specs.Growth.{Grown, AddsAtMost};
ghost use Rattle.wb_explore.specs.Layers.{AddsPassed};
ghost use Rattle.wb_explore.specs.Entries.{IsSound};
ghost use Rattle.wb_explore.specs.Plans.{runs_of};
ghost use Rattle.wb_explore.specs.Explored.{KeepsRight, KeepsOlder};
ghost use Rattle.wb_explore.specs.Pending.{entry_view, IsEntry, ArePending, AreAhead, found_in};
ghost use Rattle.wb_explore.specs.Walk.{IsUp, IsUnderWay, IsDialogueOf, IsBreachOf, IsRemembered, IsDone, IsStopped, IsRequestOf, ListsRequest};

use crate::entries::Entry;
use crate::facts::held_laws;
use crate::faults::ExploreFault;
use crate::going::go_on;
use crate::layer::Request;
use crate::plan::Plan;
use crate::purse::Purse;
use std::alloc::Global;
use wb_law::{Class, class_at};
use wb_point::{dialogue_of, dialogues_are_of_their_kinds};
use wb_port::Dialogue;
use wb_rom::Image;
use wb_symstep::states_stay;
use wb_term::Graph;
use wb_word::{Addr, OutOfMemory};

/// What a walk has found so far.
#[derive(Drop)]
pub(crate) struct Findings {
    pub requests: Vec<Request>,
    /// A dialogue whose held run overruns.
    pub overrun: Option<Dialogue>,
}

/// The dialogue of an entry's inputs.
fn dialogue_at(alloc: Global, plan: &Plan, entry: &Entry) -> Result<Dialogue, OutOfMemory>
    requires few { length plan.now.kinds ≤ 16 }
    requires found { is_some entry.now.witness ≡ true }
    ensures { IfOk result (IsDialogueOf plan.now entry.now) }
{
    match &entry.witness {
        Some(inputs) => dialogue_of(alloc, &plan.kinds, inputs, plan.power),
        None => unreachable!(),
    }
}

/// The breach at an entry.
fn breach(alloc: Global, plan: &Plan, entry: &Entry) -> ExploreFault
    requires few { length plan.now.kinds ≤ 16 }
    requires found { is_some entry.now.witness ≡ true }
    requires place { entry.now.key.pc < 2048 }
    ensures { IsBreachOf plan.now entry.now result }
{
    let at = Addr {
        value: entry.key.pc,
    };
    match dialogue_at(alloc, plan, entry) {
        Ok(dialogue) => ExploreFault::Breach(dialogue, at),
        Err(OutOfMemory) => ExploreFault::OutOfMemory,
    }
}

/// Keeps an overrun at an entry, where none is kept.
fn remember(
    alloc: Global,
    plan: &Plan,
    entry: &Entry,
    overrun: &mut Option<Dialogue>,
) -> Result<(), OutOfMemory>
    requires few { length plan.now.kinds ≤ 16 }
    requires found { is_some entry.now.witness ≡ true }
    ensures { OnOk result (IsRemembered plan.now entry.now overrun.old overrun.new) }
{
    if overrun.is_none() {
        let dialogue = dialogue_at(alloc, plan, entry)?;
        *overrun = Some(dialogue);
    }
    Ok(())
}

/// Does with an entry what its class asks for.
fn pass(
    graph: &mut Graph,
    alloc: Global,
    image: &Image,
    plan: &Plan,
    purse: &mut Purse,
    pending: &mut Vec<Entry>,
    overrun: &mut Option<Dialogue>,
    entry: &Entry,
) -> Result<(), ExploreFault>
    requires pending { ArePending graph.old image.now plan.now purse.old.reached pending.old.items }
    requires ahead { AreAhead image.now plan.now purse.old.reached pending.old.items entry.now.rank }
    requires entry { IsEntry graph.old image.now plan.now entry.now }
    requires sound { IsSound (entry_view graph.old) (runs_of image.now plan.now) entry.now }
    requires found { is_some entry.now.witness ≡ true }
    requires right { KeepsRight image.now plan.now overrun.old }
    requires few { length plan.now.kinds ≤ 16 }
    requires words { table_words graph.old.tables (table_of graph.old.tables plan.now.side) ≡ image.now.drom }
    requires room { length graph.old.nodes + 1805 ≤ 2 ^ 31 }
    ensures done { OnOk result (IsDone image.now plan.now graph.old graph.new purse.old.reached purse.new.reached pending.old.items entry.now pending.new.items overrun.old overrun.new) }
    ensures fault { IfErr result (IsStopped image.now plan.now purse.old) }
    ensures passed { AddsPassed image.now plan.now purse.old.reached purse.new.reached }
    ensures budget { purse.new.budget ≡ purse.old.budget }
    ensures grown { Grown graph.old graph.new }
    ensures adds { AddsAtMost graph.old graph.new 1805 130004 }
{
    held_laws();
    dialogues_are_of_their_kinds();
    states_stay();
    match class_at(image, plan.pace, &entry.key) {
        Class::Rests => Ok(()),
        Class::Overruns => {
            remember(alloc, plan, entry, overrun)?;
            Ok(())
        }
        Class::Breaches => Err(breach(alloc, plan, entry)),
        Class::GoesOn => go_on(graph, alloc, image, plan, purse, pending, entry),
    }
}

/// The request state of an entry that has just raised a request.
fn request_of(entry: Entry) -> Option<Request>
    requires found { is_some entry.witness ≡ true }
    ensures { IsRequestOf entry result }
{
    let Entry {
        key,
        rank: _,
        state,
        cond,
        witness,
    } = entry;
    if !key.rqm || key.count != 0 {
        return None;
    }
    match witness {
        Some(inputs) => Some(Request {
            state,
            cond,
            inputs,
        }),
        None => unreachable!(),
    }
}

/// Lists the request state of an entry that has just raised a request.
fn keep_request(requests: &mut Vec<Request>, entry: Entry) -> Result<(), OutOfMemory>
    requires found { is_some entry.witness ≡ true }
    ensures { OnOk result (ListsRequest entry requests.old.items requests.new.items) }
{
    if let Some(request) = request_of(entry) {
        requests.push(request)?;
    }
    Ok(())
}

/// Visits a confirmed entry: goes on from it, or keeps how its held runs end; and lists it where it has just raised a
/// request.
pub(crate) fn visit(
    graph: &mut Graph,
    alloc: Global,
    image: &Image,
    plan: &Plan,
    purse: &mut Purse,
    pending: &mut Vec<Entry>,
    findings: &mut Findings,
    entry: Entry,
) -> Result<(), ExploreFault>
    requires up { IsUp graph.old image.now plan.now purse.old.reached entry pending.old.items findings.old.requests.items findings.old.overrun }
    requires found { is_some entry.witness ≡ true }
    requires few { length plan.now.kinds ≤ 16 }
    requires words { table_words graph.old.tables (table_of graph.old.tables plan.now.side) ≡ image.now.drom }
    requires room { length graph.old.nodes + 1805 ≤ 2 ^ 31 }
    ensures under_way { OnOk result (IsUnderWay graph.new image.now plan.now purse.new.reached pending.new.items findings.new.requests.items findings.new.overrun) }
    ensures older { OnOk result (KeepsOlder findings.old.overrun findings.new.overrun) }
    ensures count { OnOk result (length purse.old.reached + found_in pending.new.items ≤ length purse.new.reached + found_in pending.old.items) }
    ensures longer { OnOk result (length pending.new.items ≤ length pending.old.items + 2) }
    ensures fault { IfErr result (IsStopped image.now plan.now purse.old) }
    ensures passed { AddsPassed image.now plan.now purse.old.reached purse.new.reached }
    ensures budget { purse.new.budget ≡ purse.old.budget }
    ensures grown { Grown graph.old graph.new }
    ensures adds { AddsAtMost graph.old graph.new 1805 130004 }
{
    held_laws();
    dialogues_are_of_their_kinds();
    states_stay();
    pass(
        graph,
        alloc,
        image,
        plan,
        purse,
        pending,
        &mut findings.overrun,
        &entry,
    )?;
    keep_request(&mut findings.requests, entry)?;
    Ok(())
}
