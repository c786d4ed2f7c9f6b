//! The comparison of two images.
ghost use Rattle.std.specs.Prelude.{◌≡◌, [], IfOk, IfErr, length, ◌≤◌};
ghost use Rattle.wb_explore.specs.Faults.{IsLastAnswer, StillTells};
ghost use Rattle.wb_compare.specs.Questions.{IsQuestion};
ghost use Rattle.wb_compare.specs.Verdicts.{IsVerdict, IsCause, OfBadAnswer, OfAnswered, AreEqual, IsPace};
ghost use Rattle.wb_compare.specs.Working.{IsWork, HasSpare, IsWhole};

use crate::endings::Ended;
use crate::facts::run_laws;
use crate::levels::settle_all;
use crate::questions::Question;
use crate::verdicts::{CompareFault, Pace, Verdict};
use crate::working::Work;
use std::alloc::Global;
use wb_explore::Purse;
use wb_query::Oracle;
use wb_rom::Image;
use wb_term::Graph;
use wb_word::{OutOfMemory, Side};

/// A comparison that hasn't begun.
fn new_work(alloc: Global, a: &Image, b: &Image, question: &Question) -> Result<Work, OutOfMemory>
    requires question { IsQuestion question.now }
    ensures work { IfOk result (IsWork a.now b.now question.now) }
    ensures spare { IfOk result (λ work. HasSpare question.now work 0) }
    ensures fresh { IfOk result (λ work. work.purse.reached ≡ []) }
{
    let graph = Graph::new(alloc, &a.drom, &b.drom)?;
    let purse = Purse::new(alloc, question.budget);
    Ok(Work {
        graph,
        purse,
        first_overrun: None,
        second_overrun: None,
    })
}

/// The verdict where every dialogue was settled.
fn equal(a: &Image, b: &Image, question: &Question, work: Work) -> Verdict
    requires question { IsQuestion question.now }
    requires whole { IsWhole a.now b.now question.now work }
    ensures { IsVerdict a.now b.now question.now result }
{
    run_laws();
    let _points = work.purse.points();
    match (work.first_overrun, work.second_overrun) {
        (Some(dialogue), _) => Verdict::Equal(Pace::Overrun(Side::A, dialogue)),
        (None, Some(dialogue)) => Verdict::Equal(Pace::Overrun(Side::B, dialogue)),
        (None, None) => Verdict::Equal(Pace::Kept),
    }
}

/// Compares two images over every dialogue of the question.
pub fn compare<O: Oracle>(
    alloc: Global,
    a: &Image,
    b: &Image,
    question: &Question,
    oracle: &mut O,
) -> Result<Verdict, CompareFault>
    requires question { IsQuestion question.now }
    requires limit { O.limit_of oracle.old ≡ question.now.budget.conflicts }
    ensures verdict { IfOk result (IsVerdict a.now b.now question.now) }
    ensures cause { IfErr result (IsCause a.now b.now question.now (O.is_sound oracle.old)) }
    ensures last { IfErr result (OfBadAnswer (IsLastAnswer (O.held oracle.old) (O.given oracle.old) (O.given oracle.new))) }
    ensures sound { O.is_sound oracle.new ≡ O.is_sound oracle.old }
    ensures limit { O.limit_of oracle.new ≡ O.limit_of oracle.old }
    ensures held { O.held oracle.new ≡ O.held oracle.old }
    ensures tells { IfOk result (OfAnswered (StillTells (O.held oracle.old) (O.given oracle.old) (O.given oracle.new))) }
{
    let mut work = new_work(alloc, a, b, question)?;
    match settle_all(alloc, a, b, question, &mut work, oracle) {
        Ok(()) => Ok(equal(a, b, question, work)),
        Err(Ended::Shown(verdict)) => Ok(verdict),
        Err(Ended::Failed(fault)) => Err(fault),
    }
}
