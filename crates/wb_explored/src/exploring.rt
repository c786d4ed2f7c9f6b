//! An exploration of the dialogues of some kinds, from power-up on.
ghost use Rattle.std.specs.Prelude.{◌≡◌, ◌≤◌, ◌+◌, [], IfOk, IfErr, length};
ghost use Rattle.wb_term.specs.Terms.{table_of, table_words};
ghost use Rattle.wb_explore.specs.Layers.{IsLayer, Knows};
ghost use Rattle.wb_explore.specs.Explored.{first_plan};
ghost use Rattle.wb_explored.specs.Explorations.{longer_by, IsUnderWay, StopsWithin};

use std::alloc::Global;
use wb_explore::{Budget, ExploreFault, Layer, Purse, extend, first};
use wb_law::{points_are_passed_after_accesses, transfers_join_in_order};
use wb_port::{Kind, Power};
use wb_query::Oracle;
use wb_rom::Image;
use wb_term::Graph;
use wb_word::Side;

/// What is explored, and how much it may spend.
#[derive(Clone, Copy)]
pub struct Setting {
    pub side: Side,
    pub pace: u16,
    pub power: Power,
    pub budget: Budget,
}

/// What an exploration came to.
#[derive(Drop)]
pub struct Explored {
    pub graph: Graph,
    pub layer: Layer,
    /// The points of the layer's kinds and of their first ones.
    pub purse: Purse,
}

/// The layer after some transfers more.
fn extended<O: Oracle>(
    graph: &mut Graph,
    alloc: Global,
    image: &Image,
    start: Layer,
    kinds: &[Kind],
    purse: &mut Purse,
    oracle: &mut O,
) -> Result<Layer, ExploreFault>
    requires start { IsUnderWay graph.old image.now start.plan [] start purse.old.reached }
    requires few { length start.plan.kinds + length kinds.now ≤ 16 }
    requires limit { O.limit_of oracle.old ≡ purse.old.budget.conflicts }
    ensures layer { IfOk result (λ layer. IsUnderWay graph.new image.now start.plan kinds.now layer purse.new.reached) }
    ensures cause { IfErr result (StopsWithin image.now start.plan kinds.now (O.is_sound oracle.old) purse.old.budget) }
{
    points_are_passed_after_accesses();
    transfers_join_in_order();
    let mut layer = start;
    for at in 0..kinds.len() {
        match extend(graph, alloc, image, &layer, kinds[at], purse, oracle) {
            Ok(next) => layer = next,
            Err(fault) => return Err(fault),
        }
    }
    Ok(layer)
}

/// The layer of no transfers, in an empty graph.
fn begun<O: Oracle>(
    graph: &mut Graph,
    alloc: Global,
    image: &Image,
    setting: Setting,
    purse: &mut Purse,
    oracle: &mut O,
) -> Result<Layer, ExploreFault>
    requires empty { graph.old.nodes ≡ [] }
    requires words { table_words graph.old.tables (table_of graph.old.tables setting.side) ≡ image.now.drom }
    requires none { purse.old.reached ≡ [] }
    requires paced { 1 ≤ setting.pace }
    requires limit { O.limit_of oracle.old ≡ purse.old.budget.conflicts }
    ensures plan { IfOk result (λ layer. layer.plan ≡ first_plan setting.side setting.pace setting.power) }
    ensures layer { IfOk result (λ layer. IsUnderWay graph.new image.now layer.plan [] layer purse.new.reached) }
    ensures cause { IfErr result (StopsWithin image.now (first_plan setting.side setting.pace setting.power) [] (O.is_sound oracle.old) purse.old.budget) }
    ensures budget { purse.new.budget ≡ purse.old.budget }
    ensures sound { O.is_sound oracle.new ≡ O.is_sound oracle.old }
    ensures limit { O.limit_of oracle.new ≡ O.limit_of oracle.old }
{
    points_are_passed_after_accesses();
    transfers_join_in_order();
    match first(
        graph,
        alloc,
        image,
        setting.side,
        setting.pace,
        setting.power,
        purse,
        oracle,
    ) {
        Ok(layer) => Ok(layer),
        Err(fault) => Err(fault),
    }
}

/// Explores the dialogues of these kinds.
pub fn explore<O: Oracle>(
    alloc: Global,
    image: &Image,
    setting: Setting,
    kinds: &[Kind],
    oracle: &mut O,
) -> Result<Explored, ExploreFault>
    requires paced { 1 ≤ setting.pace }
    requires some { 1 ≤ setting.budget.points }
    requires most { setting.budget.points ≤ 8192 }
    requires few { length kinds.now ≤ 16 }
    requires limit { O.limit_of oracle.old ≡ setting.budget.conflicts }
    ensures layer { IfOk result (λ e. IsLayer e.graph image.now e.layer) }
    ensures plan { IfOk result (λ e. e.layer.plan ≡ longer_by (first_plan setting.side setting.pace setting.power) kinds.now) }
    ensures knows { IfOk result (λ e. Knows image.now e.layer.plan e.purse.reached) }
    ensures cause { IfErr result (StopsWithin image.now (first_plan setting.side setting.pace setting.power) kinds.now (O.is_sound oracle.old) setting.budget) }
{
    let Ok(mut graph) = Graph::new(alloc, &image.drom, &image.drom) else {
        return Err(ExploreFault::OutOfMemory);
    };
    let mut purse = Purse::new(alloc, setting.budget);
    let start = match begun(&mut graph, alloc, image, setting, &mut purse, oracle) {
        Ok(start) => start,
        Err(fault) => return Err(fault),
    };
    match extended(&mut graph, alloc, image, start, kinds, &mut purse, oracle) {
        Ok(layer) => Ok(Explored {
            graph,
            layer,
            purse,
        }),
        Err(fault) => Err(fault),
    }
}
