//! Oracles that spend, and oracles that lie.
ghost use Rattle.std.specs.Prelude.{◌≡◌};
ghost use Rattle.wb_word.specs.declared.sides.Side.TheVariants as sides;
ghost use Rattle.wb_port.specs.declared.accesses.Power.TheVariants as powers;

use super::cases::Row;
use super::enumeration::image_of;
use crate::{Explored, Setting, explore};
use std::alloc::Global;
use std::process::Abort;
use std::test::Fail;
use wb_derive::{Clause, Derivation, Step};
use wb_explore::{Asked, Budget, ExploreFault};
use wb_gate::Formula;
use wb_port::{Kind, Power};
use wb_query::{Oracle, SolverOracle};
use wb_rom::Image;
use wb_solve::{Answer, Values};
use wb_word::{OutOfMemory, Side};

/// How an oracle lies.
#[derive(Clone, Copy)]
pub(super) enum Lie {
    /// All values are false.
    Falsehoods,
    /// There is no value.
    NoValues,
    /// A derivation without a step.
    NoStep,
    /// The empty clause follows from nothing.
    EmptyStep,
    /// Nothing is known.
    Spent,
}

/// Who answers.
#[derive(Clone, Copy)]
pub(super) enum Answers {
    /// The search, with so many steps.
    Search(u64),
    Lies(Lie),
}

/// What comes of an exploration.
#[derive(Clone, Copy, PartialEq, Eq, Debug)]
pub(super) enum Comes {
    Layer,
    Spent,
    BadAnswer,
    Other,
}

#[derive(Drop)]
struct Liar {
    lie: Lie,
}

impl Oracle for Liar {
    ghost use Rattle.std.specs.Prelude.{false, None};

    ghost is_sound = { λ _. false };

    ghost limit_of = { λ _. 0 };

    ghost held = { λ _. None };

    ghost given = { λ _. None };

    fn sound(&self) -> bool {
        false
    }

    fn limit(&self) -> u64 {
        0
    }

    fn answer(&mut self, alloc: Global, formula: &Formula) -> Result<Answer, OutOfMemory> {
        match self.lie {
            Lie::Falsehoods => {
                let values = vec![in alloc; false; formula.variables() as usize]?;
                Ok(Answer::Sat(Values::new(alloc, values.as_slice())?))
            }
            Lie::NoValues => Ok(Answer::Sat(Values::new(alloc, &[])?)),
            Lie::NoStep => Ok(Answer::Unsat(Derivation::new(alloc))),
            Lie::EmptyStep => Ok(Answer::Unsat(empty_step(alloc)?)),
            Lie::Spent => Ok(Answer::Spent(Derivation::new(alloc))),
        }
    }
}

fn empty_step(alloc: Global) -> Result<Derivation, OutOfMemory> {
    let mut derivation = Derivation::new(alloc);
    if let Some(clause) = Clause::new(alloc, &[])? {
        derivation.push(Step::new(alloc, clause, &[])?)?;
    }
    Ok(derivation)
}

/// What is explored, with so many conflicts.
fn setting(conflicts: u64) -> Setting
    ensures { result ≡ record { side = sides.A; pace = 16; power = powers.Zero; budget = record { points = 4096; conflicts = conflicts } } }
{
    Setting {
        side: Side::A,
        pace: 16,
        power: Power::Zero,
        budget: Budget {
            points: 4096,
            conflicts,
        },
    }
}

/// An exploration with this oracle.
fn explored(
    alloc: Global,
    image: &Image,
    kinds: &[Kind],
    answers: Answers,
) -> Result<Explored, ExploreFault> {
    if kinds.len() > 16 {
        return Err(ExploreFault::OutOfMemory);
    }
    match answers {
        Answers::Search(limit) => {
            let mut oracle = SolverOracle::new(limit);
            explore(alloc, image, setting(limit), kinds, &mut oracle)
        }
        Answers::Lies(lie) => {
            let mut oracle = Liar { lie };
            explore(alloc, image, setting(0), kinds, &mut oracle)
        }
    }
}

/// The question is about the kinds of the dialogues, and about one point.
fn check_asked(rt: &impl Abort, asked: &Asked, kinds: &[Kind]) {
    assert_eq!(rt; asked.query.kinds.list(), kinds);
    assert_eq!(rt; asked.query.marks.len(), 1);
    assert_eq!(rt; asked.query.last.len(), 0);
}

/// What came of an exploration.
fn outcome(rt: &impl Abort, kinds: &[Kind], found: &Result<Explored, ExploreFault>) -> Comes {
    match found {
        Ok(_) => Comes::Layer,
        Err(ExploreFault::Conflicts(asked, _)) => {
            check_asked(rt, asked, kinds);
            Comes::Spent
        }
        Err(ExploreFault::BadAnswer(asked, _)) => {
            check_asked(rt, asked, kinds);
            Comes::BadAnswer
        }
        Err(_) => Comes::Other,
    }
}

pub(super) fn check_rows(rt: &impl Abort, alloc: Global, rows: &[Row]) -> Result<(), Fail> {
    for (at, (words, kinds, answers, comes)) in rows.iter().enumerate() {
        let image = image_of(alloc, words)?;
        let found = explored(alloc, &image, kinds, *answers);
        assert_eq!(rt; outcome(rt, kinds, &found), *comes, "row {at}");
    }
    Ok(())
}
