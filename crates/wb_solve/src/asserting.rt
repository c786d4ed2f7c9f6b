//! The start of a search: the clause of the goal.
ghost use Rattle.std.specs.Prelude.{◌≡◌, IfOk};
ghost use Rattle.wb_solve.specs.Starting.{IsFresh, IsStarted};

use crate::links::link_gates;
use crate::propagation::Propagation;
use crate::trail::{Reason, Trail};
use std::alloc::Global;
use wb_gate::{Formula, Goal};
use wb_word::OutOfMemory;

impl Propagation {
    /// The gates of a formula are linked, and nothing was made true.
    pub fn new(alloc: Global, formula: &Formula) -> Result<Propagation, OutOfMemory>
        ensures { IfOk result (IsFresh formula.now) }
    {
        let _gates = formula.gates();
        let links = link_gates(alloc, formula)?;
        let trail = Trail::new(alloc, formula.variables())?;
        Ok(Propagation { links, trail })
    }

    /// Makes the literal of the goal true. Where the goal's clause is falsified, gives its number.
    pub fn assert_goal(&mut self, formula: &Formula) -> Result<Option<u64>, OutOfMemory>
        requires { IsFresh formula.now self.old }
        ensures { IfOk result (IsStarted formula.now self.new) }
    {
        match formula.goal() {
            Goal::Always => Ok(None),
            Goal::Never => Ok(Some(formula.clauses() - 1)),
            Goal::Lit(lit) => {
                self.trail.push(lit, Reason::Clause(formula.clauses() - 1))?;
                Ok(None)
            }
        }
    }
}
