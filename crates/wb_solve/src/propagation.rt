//! Propagation from gate to gate.
ghost use Rattle.std.specs.Prelude.{◌≡◌, ◌<◌, ◌≤◌, ◌+◌, IfOk, OnOk, length};
ghost use Rattle.wb_gate.specs.Circuit.{variables};
ghost use Rattle.wb_solve.specs.Trails.{made};
ghost use Rattle.wb_solve.specs.Search.{clauses_in};
ghost use Rattle.wb_solve.specs.Propagating.{IsRunningAt, IsVisit, IsOwnVisit, AreVisits, IsDoneTo, IsPassed, Grows};

use crate::judging::{Found, judge};
use crate::links::Links;
use crate::trail::{Reason, Trail};
use wb_derive::Step;
use wb_gate::{Formula, Lit};
use wb_word::OutOfMemory;

/// How the gates of a formula hang together, and the literals that were made true.
#[derive(Drop)]
pub struct Propagation {
    pub links: Links,
    pub trail: Trail,
}

impl Propagation {
    /// Makes the open literals of unit clauses of a gate true, until none is unit. Where a clause is falsified, gives
    /// its number.
    fn visit(
        &mut self,
        formula: &Formula,
        steps: &[Step],
        number: u32,
    ) -> Result<Option<u64>, OutOfMemory>
        requires running { IsRunningAt formula.now (clauses_in steps.now) self.old }
        requires number { number < length formula.now.gates }
        ensures visit { IfOk result (IsVisit formula.now (clauses_in steps.now) self.new number) }
        ensures grows { OnOk result (Grows self.old.trail.entries self.new.trail.entries) }
    {
        let _gates = formula.gates();
        let gate = formula.gate_at(u64::from(number));
        let lit = Lit {
            var: formula.inputs() + number,
            neg: false,
        };
        loop {
            match judge(&self.trail, lit, gate) {
                Found::Nothing => return Ok(None),
                Found::Falsified(place) => {
                    return Ok(Some(self.links.clause(formula, number) + place));
                }
                Found::Unit(place, open) => {
                    let clause = self.links.clause(formula, number) + place;
                    self.trail.push(open, Reason::Clause(clause))?;
                }
            }
        }
    }

    /// Visits the gate that has this variable, where one has.
    fn visit_own(
        &mut self,
        formula: &Formula,
        steps: &[Step],
        var: u32,
    ) -> Result<Option<u64>, OutOfMemory>
        requires running { IsRunningAt formula.now (clauses_in steps.now) self.old }
        requires var { var < variables formula.now }
        ensures visit { IfOk result (IsOwnVisit formula.now (clauses_in steps.now) self.new var) }
        ensures grows { OnOk result (Grows self.old.trail.entries self.new.trail.entries) }
    {
        let inputs = formula.inputs();
        if var < inputs {
            return Ok(None);
        }
        self.visit(formula, steps, var - inputs)
    }

    /// Visits the gates that name this variable, the last one first.
    fn visit_users(
        &mut self,
        formula: &Formula,
        steps: &[Step],
        var: u32,
    ) -> Result<Option<u64>, OutOfMemory>
        requires running { IsRunningAt formula.now (clauses_in steps.now) self.old }
        requires var { var < variables formula.now }
        ensures visits { IfOk result (AreVisits formula.now (clauses_in steps.now) (made self.old.trail.entries) self.new var) }
        ensures grows { OnOk result (Grows self.old.trail.entries self.new.trail.entries) }
    {
        let mut end = self.links.end(formula, var);
        while end > 0 {
            let number = end - 1;
            if let Some(clause) = self.visit(formula, steps, number)? {
                return Ok(Some(clause));
            }
            end = self.links.before(formula, number, var);
        }
        Ok(None)
    }

    /// Visits the gates whose clauses have the variable of the entry at the head. Where a clause is falsified, gives
    /// its number.
    fn visit_all(
        &mut self,
        formula: &Formula,
        steps: &[Step],
        head: usize,
    ) -> Result<Option<u64>, OutOfMemory>
        requires done { IsDoneTo formula.now (clauses_in steps.now) self.old head }
        requires head { head < length self.old.trail.entries }
        ensures passed { IfOk result (IsPassed formula.now (clauses_in steps.now) self.new (head + 1)) }
        ensures grows { OnOk result (Grows self.old.trail.entries self.new.trail.entries) }
    {
        let var = self.trail.entry(head).lit.var;
        if let Some(clause) = self.visit_own(formula, steps, var)? {
            return Ok(Some(clause));
        }
        self.visit_users(formula, steps, var)
    }

    /// Visits the gates for the entries from the head on, and for those that come. Where a clause is falsified, gives
    /// its number.
    pub fn propagate(
        &mut self,
        formula: &Formula,
        steps: &[Step],
        head: usize,
    ) -> Result<Option<u64>, OutOfMemory>
        requires done { IsDoneTo formula.now (clauses_in steps.now) self.old head }
        requires head { head ≤ length self.old.trail.entries }
        ensures passed { IfOk result (IsPassed formula.now (clauses_in steps.now) self.new (length self.new.trail.entries)) }
        ensures grows { OnOk result (Grows self.old.trail.entries self.new.trail.entries) }
    {
        let mut next = head;
        while next < self.trail.len() {
            if let Some(number) = self.visit_all(formula, steps, next)? {
                return Ok(Some(number));
            }
            next += 1;
        }
        Ok(None)
    }
}
