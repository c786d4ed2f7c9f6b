//! The question whether a bit is true under some inputs.
ghost use Rattle.std.specs.Prelude.{◌≡◌, ◌≤◌, ◌^◌, [], ◌∷◌, ℕ, true, IfOk, IfErr};
ghost use Rattle.wb_term.specs.Terms.{HasBit};
ghost use Rattle.wb_blast.specs.Number.{IsGateNumber};
ghost use Rattle.wb_derive.specs.Verdict.{IsVerdict};
ghost use Rattle.wb_query.specs.Asking.{IsFound, IsAskFault, IsFormulaOf, AreSatisfying, OfBadAnswer};
ghost use Rattle.wb_query.specs.Oracles.{AnswersNext, GivesAtMostOneMore};

use crate::oracles::Oracle;
use crate::trying::{try_likely, try_values};
use std::alloc::Global;
use wb_blast::{Blasted, blast};
use wb_derive::{Check, CheckScratch, Derivation, check, verdicts_are_sound};
use wb_gate::GateFault;
use wb_solve::{Answer, Values};
use wb_term::{BitId, Graph, Inputs};
use wb_word::OutOfMemory;

/// What is known of a bit.
#[derive(Drop)]
pub enum Found {
    /// It is true under these inputs.
    Holds(Inputs),
    /// It is false under all inputs.
    Never,
}

/// Why nothing is known of a bit.
#[derive(Drop)]
pub enum AskFault {
    /// The search made as many steps as it may.
    Spent(Blasted, Derivation),
    /// An oracle that isn't sound gave a wrong answer, or none.
    BadAnswer(Blasted, Answer),
    OutOfMemory,
}

impl From<OutOfMemory> for AskFault {
    ghost use Rattle.std.specs.Prelude.{◌≡◌};
    ghost use Rattle.wb_query.specs.declared.asking.AskFault.{AskFault};

    ghost from_gives = { λ _ fault. fault ≡ AskFault.OutOfMemory };

    fn from(_: OutOfMemory) -> Self {
        AskFault::OutOfMemory
    }
}

/// What the values come to that are said to satisfy the formula.
fn judge_values(
    alloc: Global,
    graph: &Graph,
    bit: BitId,
    sound: bool,
    blasted: Blasted,
    values: Values,
) -> Result<Found, AskFault>
    requires formula { IsFormulaOf graph.now bit blasted }
    requires right { sound ≡ true → AreSatisfying blasted.formula values }
    ensures found { IfOk result (IsFound graph.now bit) }
    ensures fault { IfErr result (λ fault. (limit : ℕ) → IsAskFault graph.now bit sound limit fault) }
    ensures carried { IfErr result (OfBadAnswer (λ c answer. (c ≡ blasted.formula) × (answer ≡ Answer.Sat values))) }
{
    match try_values(alloc, graph, bit, &blasted, values.list())? {
        Some(found) => Ok(found),
        None => Err(AskFault::BadAnswer(blasted, Answer::Sat(values))),
    }
}

/// What a derivation comes to that is said to refute the formula.
fn judge_derivation(
    alloc: Global,
    graph: &Graph,
    bit: BitId,
    sound: bool,
    blasted: Blasted,
    derivation: Derivation,
) -> Result<Found, AskFault>
    requires formula { IsFormulaOf graph.now bit blasted }
    requires right { sound ≡ true → IsVerdict blasted.formula derivation Check.Yes }
    ensures found { IfOk result (IsFound graph.now bit) }
    ensures fault { IfErr result (λ fault. (limit : ℕ) → IsAskFault graph.now bit sound limit fault) }
    ensures carried { IfErr result (OfBadAnswer (λ c answer. (c ≡ blasted.formula) × (answer ≡ Answer.Unsat derivation))) }
{
    verdicts_are_sound();
    let mut scratch = CheckScratch::for_formula(alloc, &blasted.formula)?;
    match check(&blasted.formula, &derivation, &mut scratch) {
        Check::Yes => Ok(Found::Never),
        Check::No(_) => Err(AskFault::BadAnswer(blasted, Answer::Unsat(derivation))),
    }
}

/// Whether the bit is true under some inputs. What is found is right for every oracle, which isn't asked where likely
/// values make the bit true.
pub fn ask<O: Oracle>(
    alloc: Global,
    graph: &Graph,
    bit: BitId,
    oracle: &mut O,
) -> Result<Found, AskFault>
    requires there { HasBit graph.now bit }
    requires light { (number : ℕ) → IsGateNumber graph.now (bit ∷ []) number → number ≤ 2 ^ 31 }
    ensures found { IfOk result (IsFound graph.now bit) }
    ensures fault { IfErr result (IsAskFault graph.now bit (O.is_sound oracle.old) (O.limit_of oracle.old)) }
    ensures last { IfErr result (OfBadAnswer (λ c answer. AnswersNext c (O.held oracle.old) (O.given oracle.old) (O.given oracle.new) answer)) }
    ensures next { IfOk result (λ _. GivesAtMostOneMore (O.held oracle.old) (O.given oracle.old) (O.given oracle.new)) }
    ensures sound { O.is_sound oracle.new ≡ O.is_sound oracle.old }
    ensures limit { O.limit_of oracle.new ≡ O.limit_of oracle.old }
    ensures held { O.held oracle.new ≡ O.held oracle.old }
{
    let blasted = match blast(alloc, graph, bit, 1 << 31) {
        Ok(blasted) => blasted,
        Err(GateFault::OutOfMemory) => return Err(AskFault::OutOfMemory),
        Err(GateFault::Full) => unreachable!(),
    };
    if let Some(found) = try_likely(alloc, graph, bit, &blasted)? {
        return Ok(found);
    }
    let sound = oracle.sound();
    match oracle.answer(alloc, &blasted.formula)? {
        Answer::Sat(values) => judge_values(alloc, graph, bit, sound, blasted, values),
        Answer::Unsat(derivation) => {
            judge_derivation(alloc, graph, bit, sound, blasted, derivation)
        }
        Answer::Spent(derivation) if sound => Err(AskFault::Spent(blasted, derivation)),
        Answer::Spent(derivation) => {
            Err(AskFault::BadAnswer(blasted, Answer::Spent(derivation)))
        }
    }
}
