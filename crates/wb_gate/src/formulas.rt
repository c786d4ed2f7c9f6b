//! Formulas.
use crate::clauses::{GateClause, clause_count, gate_clause, goal_clause, goal_count};
use crate::gates::{Gate, Goal, Lit};
use crate::rows::Row;
use std::alloc::{AllocFailed, Global};
use std::marker::Model;

/// Why a gate wasn't added.
#[derive(Clone, Copy, PartialEq, Eq, Debug)]
pub enum GateFault {
    /// The formula has as many gates as its limit.
    Full,
    /// Memory was refused.
    OutOfMemory,
}

impl<T: Drop> From<AllocFailed<T>> for GateFault {
    ghost use Rattle.std.specs.Prelude.{◌≡◌};
    ghost use Rattle.wb_gate.specs.declared.formulas.GateFault.{GateFault};

    ghost from_gives = { λ _ fault. fault ≡ GateFault.OutOfMemory };

    fn from(_: AllocFailed<T>) -> Self {
        GateFault::OutOfMemory
    }
}

/// Gates over input variables, and a goal. The variables 0, 1, .. are the inputs, and those after them the gates.
#[derive(Drop)]
pub struct Formula {
    inputs: u32,
    limit: u64,
    rows: Vec<Row>,
    goal: Goal,
}

impl Model for Formula {
    ghost use Rattle.wb_gate.specs.Circuit.{Circuit};

    ghost Value = { Circuit };

    ghost use Rattle.wb_gate.specs.Rows.{circuit_of, IsFormula};

    ghost view = { λ f. circuit_of f.inputs f.limit f.rows.items f.goal };

    ghost invariant = { λ f. IsFormula f.inputs f.limit f.rows.items f.goal };
}

impl Formula {
    ghost use Rattle.std.specs.Prelude.{◌≡◌, ◌↔◌, ◌≤◌, ◌<◌, ◌+◌, ◌*◌, ◌^◌, [], IfOk, IfErr, OnOk, OnErr, Err, Some, length, slice_get};
    ghost use Rattle.wb_gate.specs.Circuit.{IsCircuit, NamesBelow, GoalBelow, variables, variable, gate_value};
    ghost use Rattle.wb_gate.specs.Clauses.{gate_clauses, clauses_of, clauses_before, IsClauseAt, NamesOnly};
    ghost use Rattle.wb_gate.specs.Growth.{with_gate, Extends, IsLit};

    /// A formula without gates, whose goal is never met. It takes no memory.
    pub fn new(alloc: Global, inputs: u32, limit: u64) -> Formula
        requires few_inputs { inputs ≤ 8192 }
        requires few_gates { limit ≤ 2 ^ 31 }
        ensures { result ≡ record { inputs = inputs; limit = limit; gates = []; goal = Goal.Never } }
    {
        Formula {
            inputs,
            limit,
            rows: Vec::new(alloc),
            goal: Goal::Never,
        }
    }

    /// Adds a gate, and gives its variable as a literal.
    #[tactic(auto, using(crate::proofs::Counts::pushed_means, crate::proofs::Counts::pushed_extends))]
    pub fn add(&mut self, gate: Gate) -> Result<Lit, GateFault>
        requires { NamesBelow (variables self.old) gate }
        ensures variable { IfOk result (λ lit. lit ≡ variable (variables self.old)) }
        ensures added { IfOk result (λ _. self.new ≡ with_gate self.old gate) }
        ensures means { IfOk result (λ lit. IsLit self.new lit (λ v. gate_value v gate)) }
        ensures extends { Extends self.old self.new 1 }
        ensures full { (result ≡ Err GateFault.Full) ↔ (length self.old.gates ≡ self.old.limit) }
        ensures err { OnErr result (self.new ≡ self.old) }
        ensures circuit { IsCircuit self.new }
    {
        if self.gates() >= self.limit {
            return Err(GateFault::Full);
        }
        let lit = self.next_variable();
        let end = self.clause_end() + clause_count(gate);
        self.append(Row { gate, end })?;
        Ok(lit)
    }

    /// Appends a gate with the number of clauses up to it.
    fn append(&mut self, row: Row) -> Result<(), GateFault>
        requires below { NamesBelow (variables self.old) row.gate }
        requires room { length self.old.gates < self.old.limit }
        requires end { row.end ≡ clauses_before self.old (length self.old.gates) + length (gate_clauses (variable (variables self.old)) row.gate) }
        ensures ok { OnOk result (self.new ≡ with_gate self.old row.gate) }
        ensures err { IfErr result (λ fault. (fault ≡ GateFault.OutOfMemory) × (self.new ≡ self.old)) }
        ensures circuit { IsCircuit self.new }
    {
        self.rows.push(row)?;
        Ok(())
    }

    /// Sets the goal.
    pub fn set_goal(&mut self, goal: Goal)
        requires { GoalBelow (variables self.old) goal }
        ensures goal { self.new ≡ record self.old { goal = goal } }
        ensures circuit { IsCircuit self.new }
    {
        self.goal = goal;
    }

    /// How many input variables there are.
    pub fn inputs(&self) -> u32
        ensures value { result ≡ self.now.inputs }
        ensures few { result ≤ 8192 }
    {
        self.inputs
    }

    /// How many variables there are: the inputs, then the gates.
    pub fn variables(&self) -> u32
        ensures { result ≡ variables self.now }
    {
        self.inputs + self.rows.len() as u32
    }

    /// How many gates there are.
    pub fn gates(&self) -> u64
        ensures value { result ≡ length self.now.gates }
        ensures few { result ≤ 2 ^ 31 }
        ensures circuit { IsCircuit self.now }
    {
        self.rows.len() as u64
    }

    pub fn goal(&self) -> Goal
        ensures { result ≡ self.now.goal }
    {
        self.goal
    }

    /// The gate of a number, counted from 0.
    pub fn gate_at(&self, number: u64) -> Gate
        requires { number < length self.now.gates }
        ensures gate { slice_get self.now.gates number ≡ Some result }
        ensures below { NamesBelow (self.now.inputs + number) result }
    {
        self.rows[number as usize].gate
    }

    /// How many clauses the gates up to a place have.
    fn clauses_to(&self, place: usize) -> u64
        requires { place < length self.now.gates }
        ensures value { result ≡ clauses_before self.now (place + 1) }
        ensures few { result ≤ 6 * (place + 1) }
        ensures length { length self.now.gates ≤ 2 ^ 31 }
    {
        self.rows[place].end
    }

    /// How many clauses the gates before a place have.
    fn clauses_before(&self, place: usize) -> u64
        requires { place ≤ length self.now.gates }
        ensures value { result ≡ clauses_before self.now place }
        ensures few { result ≤ 6 * place }
    {
        if place == 0 {
            0
        } else {
            self.clauses_to(place - 1)
        }
    }

    /// How many clauses the gates have.
    fn clause_end(&self) -> u64
        ensures value { result ≡ clauses_before self.now (length self.now.gates) }
        ensures few { result ≤ 6 * 2 ^ 31 }
    {
        self.clauses_before(self.rows.len())
    }

    /// The place of the gate that has the clause of a number, or that past the last gate where none has.
    fn gate_of_clause(&self, number: u64) -> usize
        ensures place { result ≤ length self.now.gates }
        ensures before { clauses_before self.now result ≤ number }
        ensures within { result < length self.now.gates → number < clauses_before self.now (result + 1) }
    {
        let mut low = 0;
        let mut high = self.rows.len();
        while low < high {
            let middle = low + (high - low) / 2;
            if self.clauses_to(middle) <= number {
                low = middle + 1;
            } else {
                high = middle;
            }
        }
        low
    }

    /// How many clauses there are.
    pub fn clauses(&self) -> u64
        ensures { result ≡ length (clauses_of self.now) }
    {
        self.clause_end() + goal_count(self.goal())
    }

    /// A clause, counted from 0: first those of the gates in order, then that of the goal. The gate is found by
    /// halves, and no memory is taken.
    pub fn clause_at(&self, number: u64) -> Option<GateClause>
        ensures clause { IsClauseAt (clauses_of self.now) number result }
        ensures below { NamesOnly (variables self.now) result }
    {
        let place = self.gate_of_clause(number);
        let rest = number - self.clauses_before(place);
        if (place as u64) < self.gates() {
            gate_clause(self.variable(place), self.gate_at(place as u64), rest)
        } else {
            goal_clause(self.goal(), rest)
        }
    }

    /// The variable of the gate at a place.
    fn variable(&self, place: usize) -> Lit
        requires { place ≤ length self.now.gates }
        ensures { result ≡ variable (self.now.inputs + place) }
    {
        Lit {
            var: self.inputs + place as u32,
            neg: false,
        }
    }

    /// The variable of the next gate.
    fn next_variable(&self) -> Lit
        ensures { result ≡ variable (variables self.now) }
    {
        Lit {
            var: self.variables(),
            neg: false,
        }
    }
}
