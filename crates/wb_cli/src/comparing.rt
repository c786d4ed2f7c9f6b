//! Two images are compared.
ghost use Rattle.std.specs.Prelude.{◌≡◌, IfOk};
ghost use Rattle.wb_port.specs.declared.accesses.Letter.TheVariants as letter;
ghost use Rattle.wb_cli.specs.Comparison.{IsComparison, IsDemonstration, demo_question};
ghost use Rattle.wb_cli.specs.Report.{IsTextOf, verdict_ending};

use crate::statuses::Ending;
use std::alloc::Global;
use wb_compare::{CompareFault, Question, Verdict, compare};
use wb_explore::Budget;
use wb_gen::make_pair;
use wb_options::Comparison;
use wb_port::{Letter, Power, Shape};
use wb_query::SolverOracle;
use wb_report::verdict_text;
use wb_rom::Image;
use wb_word::OutOfMemory;

/// Two images that were compared, by which question and with which verdict.
#[derive(Drop)]
pub struct Compared {
    pub first: Image,
    pub second: Image,
    pub comparison: Comparison,
    pub verdict: Verdict,
}

impl Compared {
    /// The text of the verdict.
    pub fn text(&self, alloc: Global) -> Result<Vec<u8>, OutOfMemory>
        ensures { IfOk result (λ text. IsTextOf self.now text.items) }
    {
        verdict_text(
            alloc,
            &self.first,
            &self.second,
            &self.comparison.question,
            &self.verdict,
        )
    }

    /// How a call ends that tells the verdict.
    pub fn into_ending(self) -> Ending
        ensures { result ≡ verdict_ending self.verdict }
    {
        let Compared {
            first: _,
            second: _,
            comparison: _,
            verdict,
        } = self;
        ending_of(verdict)
    }
}

/// How a call ends that tells this verdict.
fn ending_of(verdict: Verdict) -> Ending
    ensures { result ≡ verdict_ending verdict }
{
    match verdict {
        Verdict::Equal(_) => Ending::Fine,
        Verdict::Different(_) => Ending::Shown,
        Verdict::Breach(_, _, _) => Ending::Breach,
        Verdict::Unknown(spent) => Ending::Unknown(spent),
    }
}

/// Compares two images, with the search as the oracle.
pub fn compare_images(
    alloc: Global,
    first: Image,
    second: Image,
    comparison: Comparison,
) -> Result<Compared, OutOfMemory>
    ensures { IfOk result (IsComparison first second comparison.question) }
{
    let question = &comparison.question;
    let mut oracle = SolverOracle::new(question.budget.conflicts);
    match compare(alloc, &first, &second, question, &mut oracle) {
        Ok(verdict) => Ok(Compared {
            first,
            second,
            comparison,
            verdict,
        }),
        Err(CompareFault::BadAnswer(_, _)) => unreachable!(),
        Err(CompareFault::OutOfMemory) => Err(OutOfMemory),
    }
}

/// What the demo asks of its pair.
fn demo_comparison() -> Comparison
    ensures { result.question ≡ demo_question }
{
    Comparison {
        question: Question {
            n: 4,
            k: 101,
            shape: Shape::of(&[Letter::W, Letter::R, Letter::W, Letter::R]),
            power: Power::Zero,
            budget: Budget {
                points: 4096,
                conflicts: 100_000,
            },
        },
    }
}

/// Makes the demo pair of a number, and compares it.
pub fn demonstrate(alloc: Global, number: u64) -> Result<Compared, OutOfMemory>
    ensures { IfOk result (IsDemonstration number) }
{
    let (first, second) = make_pair(alloc, number)?;
    compare_images(alloc, first, second, demo_comparison())
}
