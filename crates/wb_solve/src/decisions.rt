//! Assumptions, and going back from the last one.
ghost use Rattle.std.specs.Prelude.{◌≡◌, ◌<◌, ◌≤◌, [], None, IfOk, OnOk, length};
ghost use Rattle.wb_solve.specs.Descent.{IsFirstOpen, AreValued};
ghost use Rattle.wb_solve.specs.Course.{known_to};
ghost use Rattle.wb_solve.specs.Search.{clauses_in};
ghost use Rattle.wb_solve.specs.Turns.{FirstOpen};
ghost use Rattle.wb_solve.specs.Trails.{made, assumed_in};
ghost use Rattle.wb_solve.specs.Halting.{IsReady, IsDecided, IsTakenBack, IsResumable, IsHalted};

use crate::marks::Marks;
use crate::propagation::Propagation;
use crate::trail::{Reason, Trail};
use std::alloc::Global;
use wb_derive::Step;
use wb_gate::{Formula, Lit};
use wb_word::OutOfMemory;

/// Descents over one trail.
#[derive(Drop)]
pub struct Descents {
    pub propagation: Propagation,
    pub marks: Marks,
    /// The hints of the last step.
    pub hints: Vec<u64>,
    /// The clause of the negated assumptions.
    pub assumed: Vec<Lit>,
    /// The inputs before this one have values.
    pub next: u32,
}

/// How a descent ends.
#[derive(Clone, Copy)]
pub enum Halt {
    /// The clause of this number is falsified.
    Conflict(u64),
    /// All inputs have values, and no clause is falsified or unit.
    Values,
}

/// How many clauses a descent knows.
fn count_known(formula: &Formula, steps: &[Step]) -> u64
    ensures { result ≡ length (known_to formula.now steps.now) }
{
    let _gates = formula.gates();
    formula.clauses() + steps.len() as u64
}

/// Takes back what was made true since the last assumption, and that too. Gives its variable.
fn take_back(trail: &mut Trail) -> u32
    requires { assumed_in trail.old.entries ≡ [] → ⊥ }
    ensures { IsTakenBack trail.old trail.new result }
{
    loop {
        match trail.pop() {
            Some(entry) => if let Reason::Assumed = entry.reason {
                return entry.lit.var;
            },
            None => unreachable!(),
        }
    }
}

impl Descents {
    /// The first input without a value.
    fn first_open(&self, formula: &Formula) -> Option<u32>
        requires { AreValued self.now.next (made self.now.propagation.trail.entries) }
        ensures { FirstOpen formula.now.inputs (made self.now.propagation.trail.entries) result }
    {
        let inputs = formula.inputs();
        for var in self.next..inputs {
            match self.propagation.trail.value(var) {
                None => return Some(var),
                Some(_) => {}
            }
        }
        None
    }

    /// Assumes a variable false.
    fn assume(&mut self, formula: &Formula, steps: &[Step], var: u32) -> Result<(), OutOfMemory>
        requires ready { IsReady formula.now (clauses_in steps.now) (length self.old.propagation.trail.entries) self.old }
        requires first { IsFirstOpen formula.now.inputs (made self.old.propagation.trail.entries) var }
        ensures { OnOk result (IsDecided formula.now (clauses_in steps.now) self.old self.new) }
    {
        self.assumed.push(Lit { var, neg: false })?;
        self.propagation
            .trail
            .push(Lit { var, neg: true }, Reason::Assumed)?;
        self.next = var;
        Ok(())
    }

    /// The rest of a descent, in which the entries before the head are done.
    pub fn run(
        &mut self,
        formula: &Formula,
        steps: &[Step],
        head: usize,
    ) -> Result<Halt, OutOfMemory>
        requires { IsReady formula.now (clauses_in steps.now) head self.old }
        ensures { IfOk result (IsHalted formula.now (clauses_in steps.now) self.new) }
    {
        let mut next = head;
        loop {
            if let Some(number) = self.propagation.propagate(formula, steps, next)? {
                return Ok(Halt::Conflict(number));
            }
            match self.first_open(formula) {
                None => return Ok(Halt::Values),
                Some(var) => {
                    next = self.propagation.trail.len();
                    self.assume(formula, steps, var)?;
                }
            }
        }
    }

    /// Goes back from the last assumption, which the last step makes false. Gives the place of that entry.
    fn go_back(&mut self, formula: &Formula, steps: &[Step]) -> Result<usize, OutOfMemory>
        requires { IsResumable formula.now steps.now self.old }
        ensures { IfOk result (λ head. IsReady formula.now (clauses_in steps.now) head self.new) }
    {
        let number = count_known(formula, steps) - 1;
        let var = take_back(&mut self.propagation.trail);
        self.assumed.pop();
        let head = self.propagation.trail.len();
        self.propagation
            .trail
            .push(Lit { var, neg: false }, Reason::Clause(number))?;
        self.next = var;
        Ok(head)
    }

    /// The next descent, which has the last step too. It goes on where it first differs from the one before.
    pub fn resume(&mut self, formula: &Formula, steps: &[Step]) -> Result<Halt, OutOfMemory>
        requires { IsResumable formula.now steps.now self.old }
        ensures { IfOk result (IsHalted formula.now (clauses_in steps.now) self.new) }
    {
        let head = self.go_back(formula, steps)?;
        self.run(formula, steps, head)
    }
}
