//! The search.
ghost use Rattle.std.specs.Prelude.{◌≡◌, ◌==◌, IfOk, length};
ghost use Rattle.wb_solve.specs.Answers.{IsAnswer};
ghost use Rattle.wb_solve.specs.Search.{clauses_in};
ghost use Rattle.wb_solve.specs.Turns.{IsSearching};
ghost use Rattle.wb_solve.specs.Halting.{IsHalted};

use crate::answers::begin;
use crate::decisions::{Descents, Halt};
use crate::laws::stable_values_satisfy;
use crate::values::Values;
use std::alloc::Global;
use wb_derive::{Derivation, Step};
use wb_gate::Formula;
use wb_word::OutOfMemory;

/// What a search comes to.
#[derive(Drop)]
pub enum Answer {
    /// These values satisfy the formula.
    Sat(Values),
    /// No assignment satisfies the formula, as the checker will say of this derivation.
    Unsat(Derivation),
    /// The search has made as many steps as it may. They are all lawful.
    Spent(Derivation),
}

/// Whether the clause of a step is empty.
fn is_empty(step: &Step) -> bool
    ensures { result ≡ (length step.now.clause == 0) }
{
    step.clause.lits().is_empty()
}

/// The answer after the last step that may be kept, where the next descent ended so.
fn last_answer(
    alloc: Global,
    formula: &Formula,
    limit: u64,
    derivation: Derivation,
    descents: Descents,
    halt: Halt,
) -> Result<Answer, OutOfMemory>
    requires searching { IsSearching formula.now derivation }
    requires count { length derivation ≡ limit }
    requires halted { IsHalted formula.now (clauses_in derivation) descents halt }
    ensures { IfOk result (λ answer. IsAnswer formula.now limit answer) }
{
    stable_values_satisfy();
    let _gates = formula.gates();
    let mut descents = descents;
    let number = match halt {
        Halt::Values => {
            let values = descents.end_values(alloc, formula, derivation.steps())?;
            return Ok(Answer::Sat(values));
        }
        Halt::Conflict(number) => number,
    };
    let step = descents.conflict_step(alloc, formula, derivation.steps(), number)?;
    if !is_empty(&step) {
        return Ok(Answer::Spent(derivation));
    }
    let mut whole = derivation;
    whole.push(step)?;
    Ok(Answer::Unsat(whole))
}

/// Searches for values that satisfy the formula, or for a derivation of the empty clause, with at most so many steps.
pub fn solve(alloc: Global, formula: &Formula, limit: u64) -> Result<Answer, OutOfMemory>
    ensures { IfOk result (λ answer. IsAnswer formula.now limit answer) }
{
    stable_values_satisfy();
    let _gates = formula.gates();
    let mut derivation = Derivation::new(alloc);
    let (mut descents, mut halt) = begin(alloc, formula, derivation.steps())?;
    for _count in 0..limit {
        let number = match halt {
            Halt::Values => {
                let values = descents.end_values(alloc, formula, derivation.steps())?;
                return Ok(Answer::Sat(values));
            }
            Halt::Conflict(number) => number,
        };
        let step = descents.conflict_step(alloc, formula, derivation.steps(), number)?;
        let is_last = is_empty(&step);
        derivation.push(step)?;
        if is_last {
            return Ok(Answer::Unsat(derivation));
        }
        halt = descents.resume(formula, derivation.steps())?;
    }
    last_answer(alloc, formula, limit, derivation, descents, halt)
}
