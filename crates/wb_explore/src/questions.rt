ghost use Rattle.std.specs.Prelude.{◌≡◌, ◌≤◌, ◌^◌, ℕ, [], ◌∷◌, IfOk, IfErr};
ghost use Rattle.wb_blast.specs.Number.{IsGateNumber};
ghost use Rattle.wb_query.specs.Asking.{IsFound, IsAskFault};
ghost use Rattle.wb_query.specs.Oracles.{AnswersNext, GivesAtMostOneMore};
ghost use Rattle.wb_explore.specs.Entries.{SaysPassing};
ghost use Rattle.wb_explore.specs.Plans.{runs_of};
ghost use Rattle.wb_explore.specs.Purses.{Holding};
ghost use Rattle.wb_explore.specs.Faults.{IsCause, OfBadAnswer};
ghost use Rattle.wb_explore.specs.Pending.{entry_view, IsEntry, question_of, asked_by, answered_by};

use crate::entries::Entry;
use crate::facts::held_laws;
use crate::faults::{Asked, ExploreFault};
use crate::plan::Plan;
use std::alloc::Global;
use wb_point::{Accesses, FixedBits, Query, dialogues_are_of_their_kinds};
use wb_port::{Point, Points};
use wb_query::{AskFault, Found, Oracle, ask};
use wb_rom::Image;
use wb_symstep::states_stay;
use wb_term::Graph;
use wb_word::OutOfMemory;

/// The question under which inputs the held run passes a point.
fn question(alloc: Global, plan: &Plan, key: &Point) -> Result<Query, OutOfMemory>
    ensures { IfOk result (λ q. q ≡ question_of plan.now key.now) }
{
    let kinds = plan.kinds.copy(alloc)?;
    let mut marks = Points::new(alloc);
    let key = key.copy(alloc)?;
    marks.push(key)?;
    Ok(Query {
        kinds,
        marks,
        fixed: FixedBits::new(alloc),
        last: Accesses::new(alloc),
    })
}

/// A fault of asking, with its question.
fn with_question(query: Query, fault: AskFault) -> ExploreFault
    ensures { result ≡ asked_by query fault }
{
    match fault {
        AskFault::Spent(blasted, derivation) => ExploreFault::Conflicts(
            Asked { query, blasted },
            derivation,
        ),
        AskFault::BadAnswer(blasted, answer) => ExploreFault::BadAnswer(
            Asked { query, blasted },
            answer,
        ),
        AskFault::OutOfMemory => ExploreFault::OutOfMemory,
    }
}

/// What is found, with the question where nothing is.
fn answer_of(query: Query, found: Result<Found, AskFault>) -> Result<Found, ExploreFault>
    ensures { result ≡ answered_by query found }
{
    match found {
        Ok(found) => Ok(found),
        Err(fault) => Err(with_question(query, fault)),
    }
}

/// Asks under which inputs the held run passes the point of an entry.
pub(crate) fn ask_point<O: Oracle>(
    graph: &Graph,
    alloc: Global,
    image: &Image,
    plan: &Plan,
    entry: &Entry,
    oracle: &mut O,
) -> Result<Found, ExploreFault>
    requires entry { IsEntry graph.now image.now plan.now entry.now }
    requires says { SaysPassing (entry_view graph.now) (runs_of image.now plan.now) entry.now }
    requires light { (n : ℕ) → IsGateNumber graph.now (entry.now.cond ∷ []) n → n ≤ 2 ^ 31 }
    ensures found { IfOk result (IsFound graph.now entry.now.cond) }
    ensures fault { IfErr result (λ f. (before : Holding) → before.budget.conflicts ≡ O.limit_of oracle.old → IsCause image.now plan.now (O.is_sound oracle.old) before f) }
    ensures last { IfErr result (OfBadAnswer (λ c answer. AnswersNext c (O.held oracle.old) (O.given oracle.old) (O.given oracle.new) answer)) }
    ensures next { IfOk result (λ _. GivesAtMostOneMore (O.held oracle.old) (O.given oracle.old) (O.given oracle.new)) }
    ensures sound { O.is_sound oracle.new ≡ O.is_sound oracle.old }
    ensures limit { O.limit_of oracle.new ≡ O.limit_of oracle.old }
    ensures held { O.held oracle.new ≡ O.held oracle.old }
{
    held_laws();
    dialogues_are_of_their_kinds();
    states_stay();
    let _nodes = graph.len();
    let query = question(alloc, plan, &entry.key)?;
    let found = ask(alloc, graph, entry.cond, oracle);
    answer_of(query, found)
}
