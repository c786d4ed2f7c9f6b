//! The circuits of the replies of both sides.
ghost use Rattle.std.specs.Prelude.{◌≡◌, ◌+◌, ◌*◌, ◌^◌, ◌≤◌, IfOk, length};
ghost use Rattle.wb_term.specs.Growth.{Grown, AddsAtMost};
ghost use Rattle.wb_compare.specs.Growing.{kinds_of};
ghost use Rattle.wb_compare.specs.Settled.{wants_read};
ghost use Rattle.wb_compare.specs.Telling.{HasLayers, AreCircuits, IsTelling};

use crate::pairs::Pair;
use crate::questions::Question;
use crate::shapes::allows_next;
use wb_explore::layers_stay;
use wb_port::{Kind, Kinds};
use wb_replies::{ReplyCircuit, circuits_stay, differ, replies};
use wb_rom::Image;
use wb_term::{BitId, Graph, OutOfMemory};

/// The circuits of the replies of both sides.
#[derive(Clone, Copy)]
pub(crate) struct Circuits {
    pub first: ReplyCircuit,
    pub second: ReplyCircuit,
}

/// The circuits of the replies at the requests of two layers.
pub(crate) fn circuits_of(
    a: &Image,
    b: &Image,
    question: &Question,
    graph: &mut Graph,
    pair: &Pair,
) -> Result<Circuits, OutOfMemory>
    requires layers { HasLayers graph.old a.now b.now question.now (kinds_of pair.now) pair.now }
    requires room { length graph.old.nodes + (35 * (length pair.now.first.requests + length pair.now.second.requests) + 4) ≤ 2 ^ 31 }
    ensures circuits { IfOk result (AreCircuits graph.new a.now b.now question.now (kinds_of pair.now)) }
    ensures grown { Grown graph.old graph.new }
    ensures adds { AddsAtMost graph.old graph.new
        (35 * (length pair.now.first.requests + length pair.now.second.requests) + 4)
        (545 * (length pair.now.first.requests + length pair.now.second.requests)) }
{
    layers_stay();
    circuits_stay();
    let first = replies(graph, &pair.first)?;
    let second = replies(graph, &pair.second)?;
    Ok(Circuits { first, second })
}

/// A bit that is true where a wanted reply differs, unless none does.
pub(crate) fn telling(
    a: &Image,
    b: &Image,
    question: &Question,
    graph: &mut Graph,
    kinds: &Kinds,
    circuits: &Circuits,
) -> Result<Option<BitId>, OutOfMemory>
    requires circuits { AreCircuits graph.old a.now b.now question.now kinds.now circuits.now }
    requires room { length graph.old.nodes + 7 ≤ 2 ^ 31 }
    ensures circuits { AreCircuits graph.new a.now b.now question.now kinds.now circuits.now }
    ensures telling { IfOk result (IsTelling graph.new question.now kinds.now circuits.now) }
    ensures grown { Grown graph.old graph.new }
    ensures adds { AddsAtMost graph.old graph.new 7 70 }
{
    circuits_stay();
    let wants_read = allows_next(&question.shape, kinds.list(), Kind::Read);
    differ(graph, &circuits.first, &circuits.second, wants_read)
}
