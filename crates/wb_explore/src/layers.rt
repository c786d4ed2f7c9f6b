//! Layers: that of no transfers, and one transfer more.
ghost use Rattle.std.specs.Prelude.{◌≡◌, ◌≤◌, ◌<◌, IfOk, IfErr, OnOk, length, All};
ghost use Rattle.wb_term.specs.Terms.{table_of, table_words};
ghost use Rattle.wb_term.specs.Growth.{Grown};
ghost use Rattle.wb_explore.specs.Layers.{IsLayer, Knows, AddsPassed};
ghost use Rattle.wb_explore.specs.Explored.{first_plan, longer_plan, IsOfOther};
ghost use Rattle.wb_explore.specs.Faults.{IsCause, OfBadAnswer, IsLastAnswer, StillTells};
ghost use Rattle.wb_explore.specs.Growth.{IsWithin, GrowsByPoints};

use crate::facts::held_laws;
use crate::faults::ExploreFault;
use crate::layer::Layer;
use crate::plan::Plan;
use crate::purse::Purse;
use crate::reached::copy_dialogue;
use crate::starts::begin;
use crate::transfers::give_all;
use crate::walking::walk;
use std::alloc::Global;
use wb_point::{dialogues_are_of_their_kinds, dialogues_grow_at_the_end};
use wb_port::{Dialogue, Kind, Kinds, Power};
use wb_query::Oracle;
use wb_rom::Image;
use wb_term::Graph;
use wb_word::{OutOfMemory, Side};

/// The request states of no transfers: from power-up to the first request.
pub fn first<O: Oracle>(
    graph: &mut Graph,
    alloc: Global,
    image: &Image,
    side: Side,
    pace: u16,
    power: Power,
    purse: &mut Purse,
    oracle: &mut O,
) -> Result<Layer, ExploreFault>
    requires paced { 1 ≤ pace }
    requires words { table_words graph.old.tables (table_of graph.old.tables side) ≡ image.now.drom }
    requires fresh { All (IsOfOther (first_plan side pace power)) purse.old.reached }
    requires limit { O.limit_of oracle.old ≡ purse.old.budget.conflicts }
    requires within { IsWithin graph.old power (length purse.old.reached) 4000 260000 }
    ensures layer { IfOk result (IsLayer graph.new image.now) }
    ensures plan { IfOk result (λ layer. layer.plan ≡ first_plan side pace power) }
    ensures knows { IfOk result (λ next. Knows image.now next.plan purse.new.reached) }
    ensures cause { IfErr result (IsCause image.now (first_plan side pace power) (O.is_sound oracle.old) purse.old) }
    ensures last { IfErr result (OfBadAnswer (IsLastAnswer (O.held oracle.old) (O.given oracle.old) (O.given oracle.new))) }
    ensures passed { AddsPassed image.now (first_plan side pace power) purse.old.reached purse.new.reached }
    ensures budget { purse.new.budget ≡ purse.old.budget }
    ensures grown { Grown graph.old graph.new }
    ensures grows { OnOk result (GrowsByPoints graph.old graph.new (length purse.old.reached) (length purse.new.reached) 3064 201024) }
    ensures within { IsWithin graph.new power (length purse.new.reached) 4096 262144 }
    ensures sound { O.is_sound oracle.new ≡ O.is_sound oracle.old }
    ensures limit { O.limit_of oracle.new ≡ O.limit_of oracle.old }
    ensures held { O.held oracle.new ≡ O.held oracle.old }
    ensures tells { OnOk result (StillTells (O.held oracle.old) (O.given oracle.old) (O.given oracle.new)) }
{
    held_laws();
    dialogues_are_of_their_kinds();
    let plan = shortest(alloc, side, pace, power);
    let pending = begin(graph, alloc, image, &plan, purse)?;
    let _points = purse.points();
    walk(graph, alloc, image, plan, pending, None, purse, oracle)
}

/// The request states of one transfer more.
pub fn extend<O: Oracle>(
    graph: &mut Graph,
    alloc: Global,
    image: &Image,
    layer: &Layer,
    kind: Kind,
    purse: &mut Purse,
    oracle: &mut O,
) -> Result<Layer, ExploreFault>
    requires layer { IsLayer graph.old image.now layer.now }
    requires short { length layer.now.plan.kinds < 16 }
    requires knows { Knows image.now layer.now.plan purse.old.reached }
    requires words { table_words graph.old.tables (table_of graph.old.tables layer.now.plan.side) ≡ image.now.drom }
    requires fresh { All (IsOfOther (longer_plan layer.now.plan kind)) purse.old.reached }
    requires limit { O.limit_of oracle.old ≡ purse.old.budget.conflicts }
    requires within { IsWithin graph.old layer.now.plan.power (length purse.old.reached) 4000 260000 }
    ensures layer { IfOk result (IsLayer graph.new image.now) }
    ensures plan { IfOk result (λ next. next.plan ≡ longer_plan layer.now.plan kind) }
    ensures knows { IfOk result (λ next. Knows image.now next.plan purse.new.reached) }
    ensures cause { IfErr result (IsCause image.now (longer_plan layer.now.plan kind) (O.is_sound oracle.old) purse.old) }
    ensures last { IfErr result (OfBadAnswer (IsLastAnswer (O.held oracle.old) (O.given oracle.old) (O.given oracle.new))) }
    ensures passed { AddsPassed image.now (longer_plan layer.now.plan kind) purse.old.reached purse.new.reached }
    ensures budget { purse.new.budget ≡ purse.old.budget }
    ensures grown { Grown graph.old graph.new }
    ensures grows { OnOk result (GrowsByPoints graph.old graph.new (length purse.old.reached) (length purse.new.reached) 3064 201024) }
    ensures within { IsWithin graph.new layer.now.plan.power (length purse.new.reached) 4096 262144 }
    ensures sound { O.is_sound oracle.new ≡ O.is_sound oracle.old }
    ensures limit { O.limit_of oracle.new ≡ O.limit_of oracle.old }
    ensures held { O.held oracle.new ≡ O.held oracle.old }
    ensures tells { OnOk result (StillTells (O.held oracle.old) (O.given oracle.old) (O.given oracle.new)) }
{
    held_laws();
    dialogues_are_of_their_kinds();
    dialogues_grow_at_the_end();
    let (longer, overrun) = prepared(alloc, layer, kind)?;
    let pending = give_all(graph, alloc, image, layer, &longer, kind, purse)?;
    let _points = purse.points();
    walk(graph, alloc, image, longer, pending, overrun, purse, oracle)
}

/// The plan of no transfers.
fn shortest(alloc: Global, side: Side, pace: u16, power: Power) -> Plan
    ensures { result ≡ first_plan side pace power }
{
    Plan {
        side,
        pace,
        power,
        kinds: Kinds::new(alloc),
    }
}

/// The plan of one transfer more, and an overrun that a layer keeps.
fn prepared(
    alloc: Global,
    layer: &Layer,
    kind: Kind,
) -> Result<(Plan, Option<Dialogue>), OutOfMemory>
    ensures plan { IfOk result (λ r. r.0 ≡ longer_plan layer.now.plan kind) }
    ensures overrun { IfOk result (λ r. r.1 ≡ layer.now.overrun) }
{
    let plan = longer(alloc, layer.plan(), kind)?;
    let overrun = kept_overrun(alloc, layer)?;
    Ok((plan, overrun))
}

/// The plan of one transfer more.
fn longer(alloc: Global, plan: &Plan, kind: Kind) -> Result<Plan, OutOfMemory>
    ensures { IfOk result (λ p. p ≡ longer_plan plan.now kind) }
{
    let mut kinds = plan.kinds.copy(alloc)?;
    kinds.push(kind)?;
    Ok(Plan {
        side: plan.side,
        pace: plan.pace,
        power: plan.power,
        kinds,
    })
}

/// A dialogue whose held run overruns, if the layer keeps one.
fn kept_overrun(alloc: Global, layer: &Layer) -> Result<Option<Dialogue>, OutOfMemory>
    ensures { IfOk result (λ o. o ≡ layer.now.overrun) }
{
    match layer.overrun() {
        Some(dialogue) => {
            let copy = copy_dialogue(alloc, dialogue)?;
            Ok(Some(copy))
        }
        None => Ok(None),
    }
}
