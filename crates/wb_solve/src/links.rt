//! Which gates name a variable, and where the clauses of a gate begin.
ghost use Rattle.std.specs.Prelude.{ℕ, ◌≡◌, ◌<◌, ◌≤◌, ◌+◌, ◌*◌, ◌^◌, Some, IfOk, OnOk, length};
ghost use Rattle.std.specs.List.{slice_get};
ghost use Rattle.wb_gate.specs.declared.gates.Lit.{Lit};
ghost use Rattle.wb_gate.specs.Circuit.{NamesBelow, variables};
ghost use Rattle.wb_gate.specs.Clauses.{gate_clauses, clauses_before};
ghost use Rattle.wb_solve.specs.Linking.{operands, AreBelow, IsFree, AreLinked, IsLink, IsEnd};

use std::alloc::Global;
use wb_gate::{Formula, Gate, Lit};
use wb_word::OutOfMemory;

/// The literals of a gate. One of two has its second twice.
#[derive(Clone, Copy)]
pub struct Operands {
    pub first: Lit,
    pub second: Lit,
    pub third: Lit,
}

/// What is kept of a gate.
#[derive(Clone, Copy)]
pub struct Link {
    /// The number of its first clause.
    pub clause: u64,
    /// How many gates there are up to the last one before it that names the variable of its first literal.
    pub first: u32,
    pub second: u32,
    pub third: u32,
}

/// From a variable to the last gate that names it, and from each gate to the last one before it.
#[derive(Drop)]
pub struct Links {
    /// How many gates there are up to the last one that names a variable.
    pub ends: Vec<u32>,
    pub gates: Vec<Link>,
    /// How many clauses these gates have.
    pub clauses: u64,
}

/// The literals of a gate.
pub fn named_by(gate: Gate) -> Operands
    ensures operands { result ≡ operands gate }
    ensures below { (n : ℕ) → NamesBelow n gate → AreBelow n result }
{
    match gate {
        Gate::And(x, y) | Gate::Xor(x, y) => Operands {
            first: x,
            second: y,
            third: y,
        },
        Gate::Mux(x, y, z) | Gate::Maj(x, y, z) => Operands {
            first: x,
            second: y,
            third: z,
        },
    }
}

/// How many clauses a gate has.
fn clause_count(gate: Gate) -> u64
    ensures value { (g : Lit) → result ≡ length (gate_clauses g gate) }
    ensures few { result ≤ 6 }
{
    match gate {
        Gate::And(..) => 3,
        Gate::Xor(..) => 4,
        Gate::Mux(..) => 4,
        Gate::Maj(..) => 6,
    }
}

impl Links {
    /// How many gates there are up to the last one that names a variable.
    pub fn end(&self, formula: &Formula, var: u32) -> u32
        requires linked { AreLinked formula.now (length formula.now.gates) self.now }
        requires var { var < variables formula.now }
        ensures { IsFree formula.now.gates var result (length formula.now.gates) }
    {
        self.ends[var as usize]
    }

    /// How many gates there are up to the last one before this one that names a variable.
    pub fn before(&self, formula: &Formula, number: u32, var: u32) -> u32
        requires linked { AreLinked formula.now (length formula.now.gates) self.now }
        requires number { number < length formula.now.gates }
        ensures { IsFree formula.now.gates var result number }
    {
        let named = named_by(formula.gate_at(u64::from(number)));
        let link = self.gates[number as usize];
        if named.first.var == var {
            return link.first;
        }
        if named.second.var == var {
            return link.second;
        }
        if named.third.var == var {
            return link.third;
        }
        number
    }

    /// The number of the first clause of a gate.
    pub fn clause(&self, formula: &Formula, number: u32) -> u64
        requires linked { AreLinked formula.now (length formula.now.gates) self.now }
        requires number { number < length formula.now.gates }
        ensures value { result ≡ clauses_before formula.now number }
        ensures few { result ≤ 6 * number }
    {
        self.gates[number as usize].clause
    }

    /// What is to be kept of the next gate.
    fn next_link(&self, formula: &Formula, named: Operands) -> Link
        requires linked { AreLinked formula.now (length self.now.gates.items) self.now }
        requires below { AreBelow (variables formula.now) named }
        ensures { IsLink formula.now (length self.now.gates.items) named result }
    {
        Link {
            clause: self.clauses,
            first: self.ends[named.first.var as usize],
            second: self.ends[named.second.var as usize],
            third: self.ends[named.third.var as usize],
        }
    }

    /// The next gate is the last one that names these variables.
    fn name(&mut self, named: Operands, end: u32)
        requires { AreBelow (length self.old.ends.items) named }
        ensures ends { IsEnd self.old.ends.items self.new.ends.items named end }
        ensures gates { self.new.gates ≡ self.old.gates }
        ensures clauses { self.new.clauses ≡ self.old.clauses }
    {
        self.ends[named.first.var as usize] = end;
        self.ends[named.second.var as usize] = end;
        self.ends[named.third.var as usize] = end;
    }

    /// Links the gate of a number.
    fn add(&mut self, formula: &Formula, number: u32) -> Result<(), OutOfMemory>
        requires linked { AreLinked formula.now number self.old }
        requires number { number < length formula.now.gates }
        ensures { OnOk result (AreLinked formula.now (number + 1) self.new) }
    {
        let _gates = formula.gates();
        let gate = formula.gate_at(u64::from(number));
        let named = named_by(gate);
        let link = self.next_link(formula, named);
        self.gates.push(link)?;
        self.name(named, number + 1);
        self.clauses += clause_count(gate);
        Ok(())
    }
}

/// Links the gates of a formula.
pub fn link_gates(alloc: Global, formula: &Formula) -> Result<Links, OutOfMemory>
    ensures { IfOk result (AreLinked formula.now (length formula.now.gates)) }
{
    let ends = vec![in alloc; 0; formula.variables() as usize]?;
    let mut links = Links {
        ends,
        gates: Vec::new(alloc),
        clauses: 0,
    };
    let end = formula.gates() as u32;
    for number in 0..end {
        links.add(formula, number)?;
    }
    Ok(links)
}
