//! What descents over one trail give: steps and values.
ghost use Rattle.std.specs.Prelude.{◌≡◌, [], true, IfOk};
ghost use Rattle.wb_derive.specs.Clause.{rises};
ghost use Rattle.wb_solve.specs.Course.{known_to};
ghost use Rattle.wb_solve.specs.Search.{clauses_in, AreSteps};
ghost use Rattle.wb_solve.specs.Turns.{IsConflict, AreEndValues};
ghost use Rattle.wb_solve.specs.Halting.{IsHalted, IsBegun};
ghost use Rattle.wb_solve.specs.declared.decisions.Halt.TheVariants as halt;

use crate::decisions::{Descents, Halt};
use crate::hints::write_hints;
use crate::marks::Marks;
use crate::propagation::Propagation;
use crate::values::Values;
use std::alloc::Global;
use wb_derive::{Clause, Step};
use wb_gate::{Formula, Lit};
use wb_word::OutOfMemory;

/// A step of this clause with these hints.
fn make_step(alloc: Global, lits: &[Lit], hints: &[u64]) -> Result<Step, OutOfMemory>
    requires { rises lits.now ≡ true }
    ensures clause { IfOk result (λ step. step.clause ≡ lits.now) }
    ensures hints { IfOk result (λ step. step.hints ≡ hints.now) }
{
    match Clause::new(alloc, lits)? {
        Some(clause) => Step::new(alloc, clause, hints),
        None => unreachable!(),
    }
}

impl Descents {
    /// Begins the first descent.
    fn new(alloc: Global, formula: &Formula) -> Result<Descents, OutOfMemory>
        ensures { IfOk result (IsBegun formula.now) }
    {
        let propagation = Propagation::new(alloc, formula)?;
        let marks = Marks::new(alloc, formula.variables())?;
        Ok(Descents {
            propagation,
            marks,
            hints: Vec::new(alloc),
            assumed: Vec::new(alloc),
            next: 0,
        })
    }

    /// The first descent.
    fn start(&mut self, formula: &Formula, steps: &[Step]) -> Result<Halt, OutOfMemory>
        requires none { steps.now ≡ [] }
        requires begun { IsBegun formula.now self.old }
        ensures { IfOk result (IsHalted formula.now (clauses_in steps.now) self.new) }
    {
        match self.propagation.assert_goal(formula)? {
            Some(number) => Ok(Halt::Conflict(number)),
            None => self.run(formula, steps, 0),
        }
    }

    /// The step of a conflict: the clause of the negated assumptions, with hints.
    pub fn conflict_step(
        &mut self,
        alloc: Global,
        formula: &Formula,
        steps: &[Step],
        number: u64,
    ) -> Result<Step, OutOfMemory>
        requires steps { AreSteps formula.now (clauses_in steps.now) }
        requires halted { IsHalted formula.now (clauses_in steps.now) self.old (halt.Conflict number) }
        ensures conflict { IfOk result (IsConflict formula.now (known_to formula.now steps.now)) }
        ensures clause { IfOk result (λ step. step.clause ≡ self.new.assumed.items) }
        ensures halted { IsHalted formula.now (clauses_in steps.now) self.new (halt.Conflict number) }
    {
        write_hints(
            formula,
            steps,
            &self.propagation.trail,
            &mut self.marks,
            &mut self.hints,
            number,
        )?;
        make_step(alloc, self.assumed.as_slice(), self.hints.as_slice())
    }

    /// The values with which a descent ended.
    pub fn end_values(
        &self,
        alloc: Global,
        formula: &Formula,
        steps: &[Step],
    ) -> Result<Values, OutOfMemory>
        requires steps { AreSteps formula.now (clauses_in steps.now) }
        requires halted { IsHalted formula.now (clauses_in steps.now) self.now halt.Values }
        ensures { IfOk result (λ values. AreEndValues formula.now (known_to formula.now steps.now) values) }
    {
        Values::of_descent(alloc, self.propagation.trail.values())
    }
}

/// Begins the search with the first descent.
pub fn begin(
    alloc: Global,
    formula: &Formula,
    steps: &[Step],
) -> Result<(Descents, Halt), OutOfMemory>
    requires { steps.now ≡ [] }
    ensures { IfOk result (λ begun. IsHalted formula.now (clauses_in steps.now) begun.0 begun.1) }
{
    let mut descents = Descents::new(alloc, formula)?;
    let halt = descents.start(formula, steps)?;
    Ok((descents, halt))
}
