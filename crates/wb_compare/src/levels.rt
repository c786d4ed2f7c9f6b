//! All dialogues, level by level: those of no transfers, then one transfer more, reads before writes.
ghost use Rattle.std.specs.Prelude.{◌≡◌, ◌+◌, ◌<◌, ◌≤◌, true, [], ◌∷◌, ◌++◌, IfOk, IfErr, OnOk, length};
ghost use Rattle.wb_port.specs.Dialogue.{AllowsEach};
ghost use Rattle.wb_explore.specs.Faults.{StillTells};
ghost use Rattle.wb_compare.specs.Endings.{IsEnded, EndTells};
ghost use Rattle.wb_compare.specs.Growing.{kinds_of, is_silent, next_if, nexts_of};
ghost use Rattle.wb_compare.specs.Questions.{IsQuestion};
ghost use Rattle.wb_compare.specs.Settled.{AreAlikeBelow};
ghost use Rattle.wb_compare.specs.Working.{IsWork, HasSpare, IsPair, Settles, AreFresh, Visits, IsLevel, IsWhole};

use crate::endings::Ended;
use crate::facts::run_laws;
use crate::pairs::{Level, Pair};
use crate::questions::Question;
use crate::settling::settle;
use crate::shapes::allows_next;
use crate::sides::{begin_side, extend_side};
use crate::working::Work;
use std::alloc::Global;
use wb_explore::layers_stay;
use wb_port::Kind;
use wb_query::Oracle;
use wb_rom::Image;
use wb_word::Side;

/// Follows both sides from power-up, and settles the dialogue of no transfers.
fn begin<O: Oracle>(
    alloc: Global,
    a: &Image,
    b: &Image,
    question: &Question,
    work: &mut Work,
    oracle: &mut O,
) -> Result<Pair, Ended>
    requires question { IsQuestion question.now }
    requires limit { O.limit_of oracle.old ≡ question.now.budget.conflicts }
    requires work { IsWork a.now b.now question.now work.old }
    requires spare { HasSpare question.now work.old 0 }
    requires fresh { AreFresh work.old.purse.reached ([] ∷ []) }
    ensures settles { IfOk result (Settles a.now b.now question.now [] work.old work.new) }
    ensures ended { IfErr result (IsEnded a.now b.now question.now (O.is_sound oracle.old)) }
    ensures last { IfErr result (EndTells (O.held oracle.old) (O.given oracle.old) (O.given oracle.new)) }
    ensures sound { O.is_sound oracle.new ≡ O.is_sound oracle.old }
    ensures limit { O.limit_of oracle.new ≡ O.limit_of oracle.old }
    ensures held { O.held oracle.new ≡ O.held oracle.old }
    ensures tells { OnOk result (StillTells (O.held oracle.old) (O.given oracle.old) (O.given oracle.new)) }
{
    run_laws();
    layers_stay();
    let first = begin_side(alloc, a, b, question, Side::A, work, oracle)?;
    let second = begin_side(alloc, a, b, question, Side::B, work, oracle)?;
    let pair = Pair { first, second };
    let _points = work.purse.points();
    settle(alloc, a, b, question, &mut work.graph, &pair, oracle)?;
    Ok(pair)
}

/// Follows both sides through one transfer more, and settles its dialogues.
fn grow<O: Oracle>(
    alloc: Global,
    a: &Image,
    b: &Image,
    question: &Question,
    pair: &Pair,
    kind: Kind,
    work: &mut Work,
    oracle: &mut O,
) -> Result<Pair, Ended>
    requires question { IsQuestion question.now }
    requires limit { O.limit_of oracle.old ≡ question.now.budget.conflicts }
    requires work { IsWork a.now b.now question.now work.old }
    requires spare { HasSpare question.now work.old 0 }
    requires pair { IsPair a.now b.now question.now work.old (kinds_of pair.now) pair.now }
    requires allowed { AllowsEach question.now.shape (kinds_of pair.now ++ kind ∷ []) }
    requires fresh { AreFresh work.old.purse.reached ((kinds_of pair.now ++ kind ∷ []) ∷ []) }
    requires below { AreAlikeBelow a.now b.now question.now (length (kinds_of pair.now) + 1) }
    ensures settles { IfOk result (Settles a.now b.now question.now (kinds_of pair.now ++ kind ∷ []) work.old work.new) }
    ensures ended { IfErr result (IsEnded a.now b.now question.now (O.is_sound oracle.old)) }
    ensures last { IfErr result (EndTells (O.held oracle.old) (O.given oracle.old) (O.given oracle.new)) }
    ensures sound { O.is_sound oracle.new ≡ O.is_sound oracle.old }
    ensures limit { O.limit_of oracle.new ≡ O.limit_of oracle.old }
    ensures held { O.held oracle.new ≡ O.held oracle.old }
    ensures tells { OnOk result (StillTells (O.held oracle.old) (O.given oracle.old) (O.given oracle.new)) }
{
    run_laws();
    layers_stay();
    let first = extend_side(alloc, a, b, question, &pair.first, kind, work, oracle)?;
    let second = extend_side(alloc, a, b, question, &pair.second, kind, work, oracle)?;
    let longer = Pair { first, second };
    let _points = work.purse.points();
    settle(alloc, a, b, question, &mut work.graph, &longer, oracle)?;
    Ok(longer)
}

/// Visits the kinds of a pair with one more after them, where the shape allows it.
fn visit_next<O: Oracle>(
    alloc: Global,
    a: &Image,
    b: &Image,
    question: &Question,
    pair: &Pair,
    kind: Kind,
    work: &mut Work,
    next: &mut Vec<Pair>,
    oracle: &mut O,
) -> Result<(), Ended>
    requires question { IsQuestion question.now }
    requires limit { O.limit_of oracle.old ≡ question.now.budget.conflicts }
    requires work { IsWork a.now b.now question.now work.old }
    requires spare { HasSpare question.now work.old 0 }
    requires pair { IsPair a.now b.now question.now work.old (kinds_of pair.now) pair.now }
    requires fresh { AreFresh work.old.purse.reached (next_if question.now.shape (kinds_of pair.now) kind) }
    requires below { AreAlikeBelow a.now b.now question.now (length (kinds_of pair.now) + 1) }
    ensures visits { OnOk result (Visits a.now b.now question.now (length (kinds_of pair.now)) (next_if question.now.shape (kinds_of pair.now) kind) work.old work.new next.old.items next.new.items) }
    ensures ended { IfErr result (IsEnded a.now b.now question.now (O.is_sound oracle.old)) }
    ensures last { IfErr result (EndTells (O.held oracle.old) (O.given oracle.old) (O.given oracle.new)) }
    ensures sound { O.is_sound oracle.new ≡ O.is_sound oracle.old }
    ensures limit { O.limit_of oracle.new ≡ O.limit_of oracle.old }
    ensures held { O.held oracle.new ≡ O.held oracle.old }
    ensures tells { OnOk result (StillTells (O.held oracle.old) (O.given oracle.old) (O.given oracle.new)) }
{
    if !allows_next(&question.shape, pair.first.kinds(), kind) {
        return Ok(());
    }
    let longer = grow(alloc, a, b, question, pair, kind, work, oracle)?;
    next.push(longer)?;
    Ok(())
}

/// Whether no request follows on either side.
fn is_silent(pair: &Pair) -> bool
    ensures { result ≡ is_silent pair.now }
{
    pair.first.len() == 0 && pair.second.len() == 0
}

/// Visits what the shape allows after the kinds of a pair: a read, then a write.
fn visit<O: Oracle>(
    alloc: Global,
    a: &Image,
    b: &Image,
    question: &Question,
    pair: &Pair,
    work: &mut Work,
    next: &mut Vec<Pair>,
    oracle: &mut O,
) -> Result<(), Ended>
    requires question { IsQuestion question.now }
    requires limit { O.limit_of oracle.old ≡ question.now.budget.conflicts }
    requires work { IsWork a.now b.now question.now work.old }
    requires spare { HasSpare question.now work.old 0 }
    requires pair { IsPair a.now b.now question.now work.old (kinds_of pair.now) pair.now }
    requires fresh { AreFresh work.old.purse.reached (nexts_of question.now.shape pair.now) }
    requires below { AreAlikeBelow a.now b.now question.now (length (kinds_of pair.now) + 1) }
    ensures visits { OnOk result (Visits a.now b.now question.now (length (kinds_of pair.now)) (nexts_of question.now.shape pair.now) work.old work.new next.old.items next.new.items) }
    ensures ended { IfErr result (IsEnded a.now b.now question.now (O.is_sound oracle.old)) }
    ensures last { IfErr result (EndTells (O.held oracle.old) (O.given oracle.old) (O.given oracle.new)) }
    ensures sound { O.is_sound oracle.new ≡ O.is_sound oracle.old }
    ensures limit { O.limit_of oracle.new ≡ O.limit_of oracle.old }
    ensures held { O.held oracle.new ≡ O.held oracle.old }
    ensures tells { OnOk result (StillTells (O.held oracle.old) (O.given oracle.old) (O.given oracle.new)) }
{
    layers_stay();
    if is_silent(pair) {
        return Ok(());
    }
    visit_next(alloc, a, b, question, pair, Kind::Read, work, next, oracle)?;
    visit_next(alloc, a, b, question, pair, Kind::Write, work, next, oracle)
}

/// The level of one transfer more.
fn next_level<O: Oracle>(
    alloc: Global,
    a: &Image,
    b: &Image,
    question: &Question,
    level: &Level,
    work: &mut Work,
    oracle: &mut O,
) -> Result<Level, Ended>
    requires question { IsQuestion question.now }
    requires limit { O.limit_of oracle.old ≡ question.now.budget.conflicts }
    requires work { IsWork a.now b.now question.now work.old }
    requires spare { HasSpare question.now work.old 0 }
    requires level { IsLevel a.now b.now question.now work.old level.now }
    requires short { level.now.depth < question.now.n }
    ensures level { IfOk result (IsLevel a.now b.now question.now work.new) }
    ensures depth { IfOk result (λ next. next.depth ≡ level.now.depth + 1) }
    ensures work { OnOk result (IsWork a.now b.now question.now work.new) }
    ensures spare { OnOk result (HasSpare question.now work.new 0) }
    ensures ended { IfErr result (IsEnded a.now b.now question.now (O.is_sound oracle.old)) }
    ensures last { IfErr result (EndTells (O.held oracle.old) (O.given oracle.old) (O.given oracle.new)) }
    ensures sound { O.is_sound oracle.new ≡ O.is_sound oracle.old }
    ensures limit { O.limit_of oracle.new ≡ O.limit_of oracle.old }
    ensures held { O.held oracle.new ≡ O.held oracle.old }
    ensures tells { OnOk result (StillTells (O.held oracle.old) (O.given oracle.old) (O.given oracle.new)) }
{
    run_laws();
    layers_stay();
    let mut pairs = Vec::new(alloc);
    for at in 0..level.pairs.len() {
        visit(
            alloc,
            a,
            b,
            question,
            &level.pairs[at],
            work,
            &mut pairs,
            oracle,
        )?;
    }
    Ok(Level {
        depth: level.depth + 1,
        pairs,
    })
}

/// The level of no transfers.
fn first_level<O: Oracle>(
    alloc: Global,
    a: &Image,
    b: &Image,
    question: &Question,
    work: &mut Work,
    oracle: &mut O,
) -> Result<Level, Ended>
    requires question { IsQuestion question.now }
    requires limit { O.limit_of oracle.old ≡ question.now.budget.conflicts }
    requires work { IsWork a.now b.now question.now work.old }
    requires spare { HasSpare question.now work.old 0 }
    requires fresh { work.old.purse.reached ≡ [] }
    ensures level { IfOk result (IsLevel a.now b.now question.now work.new) }
    ensures depth { IfOk result (λ level. level.depth ≡ 0) }
    ensures work { OnOk result (IsWork a.now b.now question.now work.new) }
    ensures spare { OnOk result (HasSpare question.now work.new 0) }
    ensures ended { IfErr result (IsEnded a.now b.now question.now (O.is_sound oracle.old)) }
    ensures last { IfErr result (EndTells (O.held oracle.old) (O.given oracle.old) (O.given oracle.new)) }
    ensures sound { O.is_sound oracle.new ≡ O.is_sound oracle.old }
    ensures limit { O.limit_of oracle.new ≡ O.limit_of oracle.old }
    ensures held { O.held oracle.new ≡ O.held oracle.old }
    ensures tells { OnOk result (StillTells (O.held oracle.old) (O.given oracle.old) (O.given oracle.new)) }
{
    let pair = begin(alloc, a, b, question, work, oracle)?;
    let mut pairs = Vec::new(alloc);
    pairs.push(pair)?;
    Ok(Level { depth: 0, pairs })
}

/// Settles every dialogue of the question.
pub(crate) fn settle_all<O: Oracle>(
    alloc: Global,
    a: &Image,
    b: &Image,
    question: &Question,
    work: &mut Work,
    oracle: &mut O,
) -> Result<(), Ended>
    requires question { IsQuestion question.now }
    requires limit { O.limit_of oracle.old ≡ question.now.budget.conflicts }
    requires work { IsWork a.now b.now question.now work.old }
    requires spare { HasSpare question.now work.old 0 }
    requires fresh { work.old.purse.reached ≡ [] }
    ensures whole { OnOk result (IsWhole a.now b.now question.now work.new) }
    ensures ended { IfErr result (IsEnded a.now b.now question.now (O.is_sound oracle.old)) }
    ensures last { IfErr result (EndTells (O.held oracle.old) (O.given oracle.old) (O.given oracle.new)) }
    ensures sound { O.is_sound oracle.new ≡ O.is_sound oracle.old }
    ensures limit { O.limit_of oracle.new ≡ O.limit_of oracle.old }
    ensures held { O.held oracle.new ≡ O.held oracle.old }
    ensures tells { OnOk result (StillTells (O.held oracle.old) (O.given oracle.old) (O.given oracle.new)) }
{
    let mut level = first_level(alloc, a, b, question, work, oracle)?;
    'levels: while level.depth < question.n {
        level = next_level(alloc, a, b, question, &level, work, oracle)?;
    }
    Ok(())
}
