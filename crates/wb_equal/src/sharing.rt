//! Formulas in which equal gates and equal functions are one.
ghost use Rattle.std.specs.Prelude.{◌≡◌, ◌≤◌, ◌+◌, IfOk, length};
ghost use Rattle.wb_gate.specs.Circuit.{NamesBelow, variables, variable, gate_value};
ghost use Rattle.wb_gate.specs.Growth.{Extends, IsLit};

use crate::entries::Entry;
use crate::functions::Functions;
use crate::rooms::Rooms;
use indexmap::IndexMap;
use std::alloc::Global;
use std::marker::Model;
use wb_gate::{Formula, Gate, GateFault, Lit};
use wb_word::OutOfMemory;

/// A formula in the making, with the number of each gate and the functions of its variables.
#[derive(Drop)]
pub struct Sharing {
    formula: Formula,
    numbers: IndexMap<Gate, u64>,
    pub(crate) functions: Functions,
}

impl Model for Sharing {
    ghost use Rattle.wb_gate.specs.Circuit.{Circuit};
    ghost use Rattle.wb_equal.specs.Functions.{AreOf};

    ghost Value = { Circuit };

    ghost view = { λ sharing. sharing.formula };

    ghost invariant = { λ sharing. AreOf sharing.formula sharing.functions };
}

/// Adds a gate to a formula that has room for it.
fn append(formula: &mut Formula, gate: Gate) -> Result<Lit, OutOfMemory>
    requires there { NamesBelow (variables formula.old) gate }
    requires room { length formula.old.gates + 1 ≤ formula.old.limit }
    ensures variable { IfOk result (λ lit. lit ≡ variable (variables formula.old)) }
    ensures means { IfOk result (λ lit. IsLit formula.new lit (λ v. gate_value v gate)) }
    ensures extends { Extends formula.old formula.new 1 }
{
    match formula.add(gate) {
        Ok(lit) => Ok(lit),
        Err(GateFault::OutOfMemory) => Err(OutOfMemory),
        Err(GateFault::Full) => unreachable!(),
    }
}

impl Sharing {
    ghost use Rattle.std.specs.Prelude.{◌^◌, [], IfSome};
    ghost use Rattle.wb_gate.specs.declared.gates.Goal.{Goal};
    ghost use Rattle.wb_equal.specs.Entries.{IsEntry};

    /// A formula without gates, whose diagrams take what comparisons of firmware do well with. They ask for the inputs
    /// in an order, which may be any list: an input that it leaves out or names twice has no diagram.
    pub fn new(
        alloc: Global,
        inputs: u32,
        limit: u64,
        order: &[u32],
    ) -> Result<Sharing, OutOfMemory>
        requires few_inputs { inputs ≤ 8192 }
        requires few_gates { limit ≤ 2 ^ 31 }
        ensures { IfOk result (λ formula. formula ≡ record { inputs = inputs; limit = limit; gates = []; goal = Goal.Never }) }
    {
        Sharing::within(alloc, inputs, limit, order, Rooms::default())
    }

    /// A formula without gates, and what its diagrams may take.
    pub fn within(
        alloc: Global,
        inputs: u32,
        limit: u64,
        order: &[u32],
        rooms: Rooms,
    ) -> Result<Sharing, OutOfMemory>
        requires few_inputs { inputs ≤ 8192 }
        requires few_gates { limit ≤ 2 ^ 31 }
        ensures { IfOk result (λ formula. formula ≡ record { inputs = inputs; limit = limit; gates = []; goal = Goal.Never }) }
    {
        let functions = Functions::of_inputs(alloc, inputs, order, rooms)?;
        Ok(Sharing {
            formula: Formula::new(alloc, inputs, limit),
            numbers: IndexMap::new(alloc),
            functions,
        })
    }

    /// From here on the diagrams of gates aren't looked for but for the smallest, or are again.
    pub fn set_plain(&mut self, plain: bool)
        ensures { self.new ≡ self.old }
    {
        self.functions.set_plain(plain);
    }

    /// The formula.
    pub fn into_formula(self) -> Formula
        ensures { result ≡ self }
    {
        let Sharing {
            formula,
            numbers: _,
            functions: _,
        } = self;
        formula
    }

    /// How many inputs there are.
    pub(crate) fn inputs(&self) -> u32
        ensures { result ≡ self.now.inputs }
    {
        self.formula.inputs()
    }

    /// The variable of an equal gate that was added before.
    fn find(&self, gate: Gate) -> Option<Lit>
        ensures { IfSome result (λ lit. IsLit self.now lit (λ v. gate_value v gate)) }
    {
        let number = *self.numbers.get(&gate)?;
        if number < self.formula.gates() && self.formula.gate_at(number) == gate {
            Some(Lit {
                var: self.formula.inputs() + number as u32,
                neg: false,
            })
        } else {
            None
        }
    }

    /// The entry of a gate. It is added to the formula, which has room for it, where nothing that stands is equal.
    pub fn gate(&mut self, gate: Gate) -> Result<Entry, OutOfMemory>
        requires there { NamesBelow (variables self.old) gate }
        requires room { length self.old.gates + 1 ≤ self.old.limit }
        ensures means { IfOk result (λ entry. IsEntry self.new entry (λ v. gate_value v gate)) }
        ensures extends { IfOk result (λ _. Extends self.old self.new 1) }
    {
        if let Some(lit) = self.find(gate) {
            return Ok(Entry::Lit(lit));
        }
        let function = self.functions.function_of(gate);
        if let Some(entry) = self.functions.entry_of(function) {
            return Ok(entry);
        }
        let number = self.formula.gates();
        let lit = append(&mut self.formula, gate)?;
        self.functions.enter(lit.var, function)?;
        let Ok(_) = self.numbers.insert(gate, number) else {
            return Err(OutOfMemory);
        };
        Ok(Entry::Lit(lit))
    }
}
