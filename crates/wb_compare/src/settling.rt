//! Whether both images give the same replies after the dialogues of some kinds.
ghost use Rattle.std.specs.Prelude.{◌≡◌, ◌+◌, ◌*◌, ◌^◌, ◌≤◌, IfOk, IfErr, OnOk, Some, length};
ghost use Rattle.wb_term.specs.Growth.{Grown, AddsAtMost, total_weight};
ghost use Rattle.wb_port.specs.Dialogue.{AllowsEach};
ghost use Rattle.wb_query.specs.Asking.{IsFound};
ghost use Rattle.wb_explore.specs.Faults.{StillTells};
ghost use Rattle.wb_replies.specs.Differences.{question_of_replies};
ghost use Rattle.wb_compare.specs.declared.verdicts.Verdict.TheVariants as verdict;
ghost use Rattle.wb_compare.specs.Endings.{IsEnded, EndTells, answered_by};
ghost use Rattle.wb_compare.specs.Growing.{kinds_of};
ghost use Rattle.wb_compare.specs.Questions.{IsQuestion};
ghost use Rattle.wb_compare.specs.Settled.{wants_read, IsAlike, AreAlikeBelow};
ghost use Rattle.wb_compare.specs.Telling.{HasLayers, AreCircuits, IsTelling, IsApartUnder, HasRoomFor};
ghost use Rattle.wb_compare.specs.Verdicts.{IsVerdict};

use crate::circuits::{Circuits, circuits_of, telling};
use crate::endings::{Ended, asked_ending};
use crate::facts::run_laws;
use crate::pairs::Pair;
use crate::questions::Question;
use crate::shapes::allows_next;
use crate::verdicts::Verdict;
use std::alloc::Global;
use wb_blast::{Place, gate_numbers_are_light};
use wb_law::different_values_are_no_more;
use wb_point::{Accesses, FixedBits, Query, dialogue_of};
use wb_port::{Access, Dialogue, Kind, Kinds, Points};
use wb_query::{AskFault, Found, Oracle, ask};
use wb_replies::{
    circuits_stay, differences_are_of_replies, differences_are_shown, differences_say_questions,
    differing_access,
};
use wb_rom::Image;
use wb_term::{BitId, Graph, Inputs, OutOfMemory, Scratch};

/// The question whether the answers after a dialogue of these kinds differ: to a status read or, where it is wanted,
/// to a data read.
fn question_about(alloc: Global, kinds: &Kinds, wants_read: bool) -> Result<Query, OutOfMemory>
    ensures { IfOk result (λ query. query ≡ question_of_replies kinds.now wants_read) }
{
    let kinds = kinds.copy(alloc)?;
    let mut last = Accesses::new(alloc);
    last.push(Access::Status)?;
    if wants_read {
        last.push(Access::Read)?;
    }
    Ok(Query {
        kinds,
        marks: Points::new(alloc),
        fixed: FixedBits::new(alloc),
        last,
    })
}

/// What is found, or what the fault of asking comes to.
fn answer_of(query: Query, found: Result<Found, AskFault>) -> Result<Found, Ended>
    ensures { result ≡ answered_by query found }
{
    match found {
        Ok(found) => Ok(found),
        Err(fault) => Err(asked_ending(query, fault)),
    }
}

/// Asks under which inputs a wanted reply differs.
fn ask_apart<O: Oracle>(
    alloc: Global,
    a: &Image,
    b: &Image,
    question: &Question,
    graph: &Graph,
    kinds: &Kinds,
    circuits: &Circuits,
    bit: BitId,
    oracle: &mut O,
) -> Result<Found, Ended>
    requires question { IsQuestion question.now }
    requires limit { O.limit_of oracle.old ≡ question.now.budget.conflicts }
    requires allowed { AllowsEach question.now.shape kinds.now }
    requires circuits { AreCircuits graph.now a.now b.now question.now kinds.now circuits.now }
    requires telling { IsTelling graph.now question.now kinds.now circuits.now (Some bit) }
    requires light { total_weight graph.now ≤ 2 ^ 31 }
    ensures found { IfOk result (IsFound graph.now bit) }
    ensures ended { IfErr result (IsEnded a.now b.now question.now (O.is_sound oracle.old)) }
    ensures last { IfErr result (EndTells (O.held oracle.old) (O.given oracle.old) (O.given oracle.new)) }
    ensures sound { O.is_sound oracle.new ≡ O.is_sound oracle.old }
    ensures limit { O.limit_of oracle.new ≡ O.limit_of oracle.old }
    ensures held { O.held oracle.new ≡ O.held oracle.old }
    ensures tells { OnOk result (StillTells (O.held oracle.old) (O.given oracle.old) (O.given oracle.new)) }
{
    run_laws();
    differences_say_questions();
    different_values_are_no_more::<Place>();
    gate_numbers_are_light();
    let _nodes = graph.len();
    let wants_read = allows_next(&question.shape, kinds.list(), Kind::Read);
    let query = question_about(alloc, kinds, wants_read)?;
    let found = ask(alloc, graph, bit, oracle);
    answer_of(query, found)
}

/// The dialogue in whose last answer both images differ under these inputs.
fn differing(
    alloc: Global,
    a: &Image,
    b: &Image,
    question: &Question,
    graph: &Graph,
    kinds: &Kinds,
    circuits: &Circuits,
    inputs: &Inputs,
) -> Result<Dialogue, OutOfMemory>
    requires question { IsQuestion question.now }
    requires allowed { AllowsEach question.now.shape kinds.now }
    requires circuits { AreCircuits graph.now a.now b.now question.now kinds.now circuits.now }
    requires apart { IsApartUnder graph.now question.now kinds.now circuits.now inputs.now }
    requires below { AreAlikeBelow a.now b.now question.now (length kinds.now) }
    ensures { IfOk result (λ d. IsVerdict a.now b.now question.now (verdict.Different d)) }
{
    run_laws();
    differences_are_shown();
    let mut scratch = Scratch::for_graph(alloc, graph)?;
    let access = differing_access(
        graph,
        &circuits.first,
        &circuits.second,
        inputs,
        &mut scratch,
    );
    let mut dialogue = dialogue_of(alloc, kinds, inputs, question.power)?;
    dialogue.push(access)?;
    Ok(dialogue)
}

/// Asks whether a wanted reply differs, and ends with the dialogue where one does.
fn tell<O: Oracle>(
    alloc: Global,
    a: &Image,
    b: &Image,
    question: &Question,
    graph: &Graph,
    kinds: &Kinds,
    circuits: &Circuits,
    bit: BitId,
    oracle: &mut O,
) -> Result<(), Ended>
    requires question { IsQuestion question.now }
    requires limit { O.limit_of oracle.old ≡ question.now.budget.conflicts }
    requires allowed { AllowsEach question.now.shape kinds.now }
    requires circuits { AreCircuits graph.now a.now b.now question.now kinds.now circuits.now }
    requires telling { IsTelling graph.now question.now kinds.now circuits.now (Some bit) }
    requires light { total_weight graph.now ≤ 2 ^ 31 }
    requires below { AreAlikeBelow a.now b.now question.now (length kinds.now) }
    ensures alike { OnOk result (IsAlike a.now b.now question.now kinds.now) }
    ensures ended { IfErr result (IsEnded a.now b.now question.now (O.is_sound oracle.old)) }
    ensures last { IfErr result (EndTells (O.held oracle.old) (O.given oracle.old) (O.given oracle.new)) }
    ensures sound { O.is_sound oracle.new ≡ O.is_sound oracle.old }
    ensures limit { O.limit_of oracle.new ≡ O.limit_of oracle.old }
    ensures held { O.held oracle.new ≡ O.held oracle.old }
    ensures tells { OnOk result (StillTells (O.held oracle.old) (O.given oracle.old) (O.given oracle.new)) }
{
    differences_are_of_replies();
    let found = ask_apart(alloc, a, b, question, graph, kinds, circuits, bit, oracle)?;
    match found {
        Found::Never => Ok(()),
        Found::Holds(inputs) => {
            let dialogue = differing(alloc, a, b, question, graph, kinds, circuits, &inputs)?;
            Err(Ended::Shown(Verdict::Different(dialogue)))
        }
    }
}

/// Whether both images give the same replies after the dialogues of two layers, or where they differ.
pub(crate) fn settle<O: Oracle>(
    alloc: Global,
    a: &Image,
    b: &Image,
    question: &Question,
    graph: &mut Graph,
    pair: &Pair,
    oracle: &mut O,
) -> Result<(), Ended>
    requires question { IsQuestion question.now }
    requires limit { O.limit_of oracle.old ≡ question.now.budget.conflicts }
    requires layers { HasLayers graph.old a.now b.now question.now (kinds_of pair.now) pair.now }
    requires room { HasRoomFor graph.old (length pair.now.first.requests + length pair.now.second.requests) }
    requires below { AreAlikeBelow a.now b.now question.now (length (kinds_of pair.now)) }
    ensures alike { OnOk result (IsAlike a.now b.now question.now (kinds_of pair.now)) }
    ensures grown { Grown graph.old graph.new }
    ensures adds { AddsAtMost graph.old graph.new
        (936 * (length pair.now.first.requests + length pair.now.second.requests))
        (58976 * (length pair.now.first.requests + length pair.now.second.requests)) }
    ensures ended { IfErr result (IsEnded a.now b.now question.now (O.is_sound oracle.old)) }
    ensures last { IfErr result (EndTells (O.held oracle.old) (O.given oracle.old) (O.given oracle.new)) }
    ensures sound { O.is_sound oracle.new ≡ O.is_sound oracle.old }
    ensures limit { O.limit_of oracle.new ≡ O.limit_of oracle.old }
    ensures held { O.held oracle.new ≡ O.held oracle.old }
    ensures tells { OnOk result (StillTells (O.held oracle.old) (O.given oracle.old) (O.given oracle.new)) }
{
    circuits_stay();
    differences_are_of_replies();
    if pair.first.len() == 0 || pair.second.len() == 0 {
        return Ok(());
    }
    let circuits = circuits_of(a, b, question, graph, pair)?;
    let kinds = &pair.first.plan().kinds;
    match telling(a, b, question, graph, kinds, &circuits)? {
        None => Ok(()),
        Some(bit) => tell(alloc, a, b, question, graph, kinds, &circuits, bit, oracle),
    }
}
