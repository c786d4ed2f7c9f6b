//! The walk: entry after entry, until none is pending.
ghost use Rattle.std.specs.Prelude.{◌≡◌, ◌≤◌, ◌+◌, ◌*◌, IfOk, IfErr, OnOk, length};
ghost use Rattle.wb_term.specs.Terms.{table_of, table_words};
ghost use Rattle.wb_term.specs.Growth.{Grown};
ghost use Rattle.wb_explore.specs.Entries.{Covered};
ghost use Rattle.wb_explore.specs.Plans.{runs_of};
ghost use Rattle.wb_explore.specs.Layers.{AddsPassed};
ghost use Rattle.wb_explore.specs.Explored.{IsExplored, KeepsRight, KeepsOlder};
ghost use Rattle.wb_explore.specs.Faults.{IsCause, OfBadAnswer, IsLastAnswer, StillTells};
ghost use Rattle.wb_explore.specs.Growth.{GrowsBySteps, HasRoom};
ghost use Rattle.wb_explore.specs.Pending.{entry_view, ArePending, AreAhead, found_in};
ghost use Rattle.wb_explore.specs.Walk.{IsUp, IsUnderWay, ComesNearer, found_of};

use crate::confirming::confirm;
use crate::entries::{Entry, take_least};
use crate::facts::held_laws;
use crate::faults::ExploreFault;
use crate::layer::Layer;
use crate::plan::Plan;
use crate::purse::Purse;
use crate::visiting::{Findings, visit};
use std::alloc::Global;
use wb_point::dialogues_are_of_their_kinds;
use wb_port::Dialogue;
use wb_query::Oracle;
use wb_rom::Image;
use wb_symstep::states_stay;
use wb_term::Graph;

/// Drops the entry that is up where no held run comes to it, else visits it.
fn advance<O: Oracle>(
    graph: &mut Graph,
    alloc: Global,
    image: &Image,
    plan: &Plan,
    purse: &mut Purse,
    pending: &mut Vec<Entry>,
    findings: &mut Findings,
    entry: Entry,
    oracle: &mut O,
) -> Result<(), ExploreFault>
    requires up { IsUp graph.old image.now plan.now purse.old.reached entry pending.old.items findings.old.requests.items findings.old.overrun }
    requires few { length plan.now.kinds ≤ 16 }
    requires words { table_words graph.old.tables (table_of graph.old.tables plan.now.side) ≡ image.now.drom }
    requires limit { O.limit_of oracle.old ≡ purse.old.budget.conflicts }
    requires room { HasRoom graph.old (length purse.old.reached) purse.old.budget.points (found_in pending.old.items + found_of entry) }
    ensures under_way { OnOk result (IsUnderWay graph.new image.now plan.now purse.new.reached pending.new.items findings.new.requests.items findings.new.overrun) }
    ensures older { OnOk result (KeepsOlder findings.old.overrun findings.new.overrun) }
    ensures nearer { OnOk result (3 * (length purse.old.reached + found_in pending.new.items) + length pending.new.items ≤ 3 * (length purse.new.reached + found_in pending.old.items + found_of entry) + length pending.old.items) }
    ensures counted { OnOk result (GrowsBySteps graph.old graph.new (length purse.old.reached + found_in pending.new.items) (length purse.new.reached) (found_in pending.old.items + found_of entry)) }
    ensures cause { IfErr result (IsCause image.now plan.now (O.is_sound oracle.old) purse.old) }
    ensures last { IfErr result (OfBadAnswer (IsLastAnswer (O.held oracle.old) (O.given oracle.old) (O.given oracle.new))) }
    ensures passed { AddsPassed image.now plan.now purse.old.reached purse.new.reached }
    ensures budget { purse.new.budget ≡ purse.old.budget }
    ensures grown { Grown graph.old graph.new }
    ensures grows { GrowsBySteps graph.old graph.new (length purse.old.reached) (length purse.new.reached) (found_in pending.old.items + found_of entry) }
    ensures sound { O.is_sound oracle.new ≡ O.is_sound oracle.old }
    ensures limit { O.limit_of oracle.new ≡ O.limit_of oracle.old }
    ensures held { O.held oracle.new ≡ O.held oracle.old }
    ensures tells { OnOk result (StillTells (O.held oracle.old) (O.given oracle.old) (O.given oracle.new)) }
{
    held_laws();
    dialogues_are_of_their_kinds();
    states_stay();
    let _full = purse.is_full();
    match confirm(graph, alloc, image, plan, purse, entry, oracle)? {
        Some(entry) => {
            let _full = purse.is_full();
            visit(graph, alloc, image, plan, purse, pending, findings, entry)
        }
        None => Ok(()),
    }
}

/// One turn: an entry of the least rank is dropped or visited. Whether there was one.
fn turn<O: Oracle>(
    graph: &mut Graph,
    alloc: Global,
    image: &Image,
    plan: &Plan,
    purse: &mut Purse,
    pending: &mut Vec<Entry>,
    findings: &mut Findings,
    oracle: &mut O,
) -> Result<bool, ExploreFault>
    requires under_way { IsUnderWay graph.old image.now plan.now purse.old.reached pending.old.items findings.old.requests.items findings.old.overrun }
    requires few { length plan.now.kinds ≤ 16 }
    requires words { table_words graph.old.tables (table_of graph.old.tables plan.now.side) ≡ image.now.drom }
    requires limit { O.limit_of oracle.old ≡ purse.old.budget.conflicts }
    requires room { HasRoom graph.old (length purse.old.reached) purse.old.budget.points (found_in pending.old.items) }
    ensures under_way { OnOk result (IsUnderWay graph.new image.now plan.now purse.new.reached pending.new.items findings.new.requests.items findings.new.overrun) }
    ensures older { OnOk result (KeepsOlder findings.old.overrun findings.new.overrun) }
    ensures nearer { IfOk result (ComesNearer purse.old.budget.points purse.old.reached purse.new.reached pending.old.items pending.new.items) }
    ensures counted { OnOk result (GrowsBySteps graph.old graph.new (length purse.old.reached + found_in pending.new.items) (length purse.new.reached) (found_in pending.old.items)) }
    ensures cause { IfErr result (IsCause image.now plan.now (O.is_sound oracle.old) purse.old) }
    ensures last { IfErr result (OfBadAnswer (IsLastAnswer (O.held oracle.old) (O.given oracle.old) (O.given oracle.new))) }
    ensures passed { AddsPassed image.now plan.now purse.old.reached purse.new.reached }
    ensures budget { purse.new.budget ≡ purse.old.budget }
    ensures grown { Grown graph.old graph.new }
    ensures grows { GrowsBySteps graph.old graph.new (length purse.old.reached) (length purse.new.reached) (found_in pending.old.items) }
    ensures sound { O.is_sound oracle.new ≡ O.is_sound oracle.old }
    ensures limit { O.limit_of oracle.new ≡ O.limit_of oracle.old }
    ensures held { O.held oracle.new ≡ O.held oracle.old }
    ensures tells { OnOk result (StillTells (O.held oracle.old) (O.given oracle.old) (O.given oracle.new)) }
{
    held_laws();
    let _full = purse.is_full();
    let Some(entry) = take_least(pending) else {
        return Ok(false);
    };
    advance(
        graph, alloc, image, plan, purse, pending, findings, entry, oracle,
    )?;
    let _full = purse.is_full();
    Ok(true)
}

/// Follows the pending entries, which are those right after the last access, to where they wait or stop.
pub(crate) fn walk<O: Oracle>(
    graph: &mut Graph,
    alloc: Global,
    image: &Image,
    plan: Plan,
    pending: Vec<Entry>,
    overrun: Option<Dialogue>,
    purse: &mut Purse,
    oracle: &mut O,
) -> Result<Layer, ExploreFault>
    requires paced { 1 ≤ plan.pace }
    requires few { length plan.kinds ≤ 16 }
    requires words { table_words graph.old.tables (table_of graph.old.tables plan.side) ≡ image.now.drom }
    requires pending { ArePending graph.old image.now plan purse.old.reached pending.items }
    requires ahead { AreAhead image.now plan purse.old.reached pending.items 0 }
    requires covered { Covered (entry_view graph.old) (runs_of image.now plan) pending.items (λ _ _. ⊥) }
    requires right { KeepsRight image.now plan overrun }
    requires limit { O.limit_of oracle.old ≡ purse.old.budget.conflicts }
    requires room { HasRoom graph.old (length purse.old.reached) purse.old.budget.points (found_in pending.items) }
    ensures explored { IfOk result (IsExplored graph.new image.now purse.new.reached) }
    ensures plan { IfOk result (λ layer. layer.plan ≡ plan) }
    ensures older { IfOk result (λ layer. KeepsOlder overrun layer.overrun) }
    ensures cause { IfErr result (IsCause image.now plan (O.is_sound oracle.old) purse.old) }
    ensures last { IfErr result (OfBadAnswer (IsLastAnswer (O.held oracle.old) (O.given oracle.old) (O.given oracle.new))) }
    ensures passed { AddsPassed image.now plan purse.old.reached purse.new.reached }
    ensures budget { purse.new.budget ≡ purse.old.budget }
    ensures grown { Grown graph.old graph.new }
    ensures grows { GrowsBySteps graph.old graph.new (length purse.old.reached) (length purse.new.reached) (found_in pending.items) }
    ensures sound { O.is_sound oracle.new ≡ O.is_sound oracle.old }
    ensures limit { O.limit_of oracle.new ≡ O.limit_of oracle.old }
    ensures held { O.held oracle.new ≡ O.held oracle.old }
    ensures tells { OnOk result (StillTells (O.held oracle.old) (O.given oracle.old) (O.given oracle.new)) }
{
    held_laws();
    dialogues_are_of_their_kinds();
    let _full = purse.is_full();
    let mut pending = pending;
    let mut findings = Findings {
        requests: Vec::new(alloc),
        overrun,
    };
    'turns: while turn(
        graph,
        alloc,
        image,
        &plan,
        purse,
        &mut pending,
        &mut findings,
        oracle,
    )? {}
    Ok(Layer {
        plan,
        requests: findings.requests,
        overrun: findings.overrun,
    })
}
