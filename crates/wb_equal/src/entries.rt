//! Entries and the gates over them. A constant, and a literal that is met twice, make no gate.
ghost use Rattle.std.specs.Prelude.{◌≡◌, ◌+◌, ◌≤◌, ◌<◌, ℕ, Bool, not, ◌&&◌, ◌||◌, if◌then◌else◌, IfOk, length};
ghost use Rattle.wb_gate.specs.Circuit.{Assignment, NamesBelow, variables, gate_value, xor, lit_value, minus};
ghost use Rattle.wb_gate.specs.Growth.{Extends};
ghost use Rattle.wb_equal.specs.Entries.{entry_value, EntryBelow, IsEntry};

use crate::sharing::Sharing;
use wb_gate::{Gate, Lit};
use wb_word::OutOfMemory;

/// What a bit is in a formula: always true, always false, or a literal.
#[derive(Clone, Copy, PartialEq, Eq, Debug)]
pub enum Entry {
    T,
    F,
    Lit(Lit),
}

pub(crate) fn minus(lit: Lit) -> Lit
    ensures { result ≡ minus lit }
{
    Lit {
        var: lit.var,
        neg: !lit.neg,
    }
}

/// The entry that is true where this one is false.
pub fn negation(x: Entry) -> Entry
    ensures value { (v : Assignment) → entry_value v result ≡ not (entry_value v x) }
    ensures there { (n : ℕ) → EntryBelow n x → EntryBelow n result }
{
    match x {
        Entry::T => Entry::F,
        Entry::F => Entry::T,
        Entry::Lit(lit) => Entry::Lit(minus(lit)),
    }
}

/// Both.
pub fn and(formula: &mut Sharing, x: Entry, y: Entry) -> Result<Entry, OutOfMemory>
    requires x_there { EntryBelow (variables formula.old) x }
    requires y_there { EntryBelow (variables formula.old) y }
    requires room { length formula.old.gates + 1 ≤ formula.old.limit }
    ensures means { IfOk result (λ e. IsEntry formula.new e (λ v. entry_value v x && entry_value v y)) }
    ensures extends { IfOk result (λ _. Extends formula.old formula.new 1) }
{
    match (x, y) {
        (Entry::F, _) | (_, Entry::F) => Ok(Entry::F),
        (Entry::T, other) | (other, Entry::T) => Ok(other),
        (Entry::Lit(a), Entry::Lit(b)) => and_literals(formula, a, b),
    }
}

fn and_literals(formula: &mut Sharing, a: Lit, b: Lit) -> Result<Entry, OutOfMemory>
    requires a_there { a.var < variables formula.old }
    requires b_there { b.var < variables formula.old }
    requires room { length formula.old.gates + 1 ≤ formula.old.limit }
    ensures means { IfOk result (λ e. IsEntry formula.new e (λ v. lit_value v a && lit_value v b)) }
    ensures extends { IfOk result (λ _. Extends formula.old formula.new 1) }
{
    if a.var < b.var {
        formula.gate(Gate::And(a, b))
    } else if b.var < a.var {
        formula.gate(Gate::And(b, a))
    } else if a.neg == b.neg {
        Ok(Entry::Lit(a))
    } else {
        Ok(Entry::F)
    }
}

/// Either.
pub fn or(formula: &mut Sharing, x: Entry, y: Entry) -> Result<Entry, OutOfMemory>
    requires x_there { EntryBelow (variables formula.old) x }
    requires y_there { EntryBelow (variables formula.old) y }
    requires room { length formula.old.gates + 1 ≤ formula.old.limit }
    ensures means { IfOk result (λ e. IsEntry formula.new e (λ v. entry_value v x || entry_value v y)) }
    ensures extends { IfOk result (λ _. Extends formula.old formula.new 1) }
{
    let neither = and(formula, negation(x), negation(y))?;
    Ok(negation(neither))
}

/// Just one of the two.
pub fn xor(formula: &mut Sharing, x: Entry, y: Entry) -> Result<Entry, OutOfMemory>
    requires x_there { EntryBelow (variables formula.old) x }
    requires y_there { EntryBelow (variables formula.old) y }
    requires room { length formula.old.gates + 1 ≤ formula.old.limit }
    ensures means { IfOk result (λ e. IsEntry formula.new e (λ v. xor (entry_value v x) (entry_value v y))) }
    ensures extends { IfOk result (λ _. Extends formula.old formula.new 1) }
{
    match (x, y) {
        (Entry::F, other) | (other, Entry::F) => Ok(other),
        (Entry::T, _) => Ok(negation(y)),
        (_, Entry::T) => Ok(negation(x)),
        (Entry::Lit(a), Entry::Lit(b)) => xor_literals(formula, a, b),
    }
}

fn xor_literals(formula: &mut Sharing, a: Lit, b: Lit) -> Result<Entry, OutOfMemory>
    requires a_there { a.var < variables formula.old }
    requires b_there { b.var < variables formula.old }
    requires room { length formula.old.gates + 1 ≤ formula.old.limit }
    ensures means { IfOk result (λ e. IsEntry formula.new e (λ v. xor (lit_value v a) (lit_value v b))) }
    ensures extends { IfOk result (λ _. Extends formula.old formula.new 1) }
{
    let differs = a.neg != b.neg;
    let base = xor_variables(formula, a.var, b.var)?;
    if differs {
        Ok(negation(base))
    } else {
        Ok(base)
    }
}

/// Just one of two variables.
fn xor_variables(formula: &mut Sharing, a: u32, b: u32) -> Result<Entry, OutOfMemory>
    requires a_there { a < variables formula.old }
    requires b_there { b < variables formula.old }
    requires room { length formula.old.gates + 1 ≤ formula.old.limit }
    ensures means { IfOk result (λ e. IsEntry formula.new e (λ v. xor (v a) (v b))) }
    ensures extends { IfOk result (λ _. Extends formula.old formula.new 1) }
{
    if a < b {
        formula.gate(Gate::Xor(variable(a), variable(b)))
    } else if b < a {
        formula.gate(Gate::Xor(variable(b), variable(a)))
    } else {
        Ok(Entry::F)
    }
}

fn variable(var: u32) -> Lit
    ensures value { (v : Assignment) → lit_value v result ≡ v var }
    ensures var { result.var ≡ var }
{
    Lit { var, neg: false }
}

/// The second where the first holds, else the third.
pub fn mux(formula: &mut Sharing, c: Entry, x: Entry, y: Entry) -> Result<Entry, OutOfMemory>
    requires c_there { EntryBelow (variables formula.old) c }
    requires x_there { EntryBelow (variables formula.old) x }
    requires y_there { EntryBelow (variables formula.old) y }
    requires room { length formula.old.gates + 1 ≤ formula.old.limit }
    ensures means { IfOk result (λ e. IsEntry formula.new e (λ v. if entry_value v c then entry_value v x else entry_value v y)) }
    ensures extends { IfOk result (λ _. Extends formula.old formula.new 1) }
{
    match (c, x, y) {
        (Entry::T, _, _) => Ok(x),
        (Entry::F, _, _) => Ok(y),
        (_, Entry::T, _) => or(formula, c, y),
        (_, Entry::F, _) => and(formula, negation(c), y),
        (_, _, Entry::T) => or(formula, negation(c), x),
        (_, _, Entry::F) => and(formula, c, x),
        (Entry::Lit(c), Entry::Lit(x), Entry::Lit(y)) => mux_literals(formula, c, x, y),
    }
}

fn mux_literals(formula: &mut Sharing, c: Lit, x: Lit, y: Lit) -> Result<Entry, OutOfMemory>
    requires c_there { c.var < variables formula.old }
    requires x_there { x.var < variables formula.old }
    requires y_there { y.var < variables formula.old }
    requires room { length formula.old.gates + 1 ≤ formula.old.limit }
    ensures means { IfOk result (λ e. IsEntry formula.new e (λ v. if lit_value v c then lit_value v x else lit_value v y)) }
    ensures extends { IfOk result (λ _. Extends formula.old formula.new 1) }
{
    if x.var == y.var {
        if x.neg == y.neg {
            Ok(Entry::Lit(x))
        } else {
            xor_literals(formula, c, y)
        }
    } else if c.neg {
        mux_gate(formula, minus(c), y, x)
    } else {
        mux_gate(formula, c, x, y)
    }
}

/// The gate of a choice whose first literal isn't negated.
fn mux_gate(formula: &mut Sharing, c: Lit, x: Lit, y: Lit) -> Result<Entry, OutOfMemory>
    requires c_there { c.var < variables formula.old }
    requires x_there { x.var < variables formula.old }
    requires y_there { y.var < variables formula.old }
    requires room { length formula.old.gates + 1 ≤ formula.old.limit }
    ensures means { IfOk result (λ e. IsEntry formula.new e (λ v. if lit_value v c then lit_value v x else lit_value v y)) }
    ensures extends { IfOk result (λ _. Extends formula.old formula.new 1) }
{
    if x.neg {
        let base = formula.gate(Gate::Mux(c, minus(x), minus(y)))?;
        Ok(negation(base))
    } else {
        formula.gate(Gate::Mux(c, x, y))
    }
}

/// Two of the three at least.
pub fn majority(formula: &mut Sharing, x: Entry, y: Entry, z: Entry) -> Result<Entry, OutOfMemory>
    requires x_there { EntryBelow (variables formula.old) x }
    requires y_there { EntryBelow (variables formula.old) y }
    requires z_there { EntryBelow (variables formula.old) z }
    requires room { length formula.old.gates + 1 ≤ formula.old.limit }
    ensures means { IfOk result (λ e. IsEntry formula.new e (λ v.
        (entry_value v x && entry_value v y) || (entry_value v x && entry_value v z) || (entry_value v y && entry_value v z))) }
    ensures extends { IfOk result (λ _. Extends formula.old formula.new 1) }
{
    match (x, y, z) {
        (Entry::T, a, b) | (a, Entry::T, b) | (a, b, Entry::T) => or(formula, a, b),
        (Entry::F, a, b) | (a, Entry::F, b) | (a, b, Entry::F) => and(formula, a, b),
        (Entry::Lit(a), Entry::Lit(b), Entry::Lit(c)) => majority_literals(formula, a, b, c),
    }
}

fn majority_literals(formula: &mut Sharing, a: Lit, b: Lit, c: Lit) -> Result<Entry, OutOfMemory>
    requires a_there { a.var < variables formula.old }
    requires b_there { b.var < variables formula.old }
    requires c_there { c.var < variables formula.old }
    requires room { length formula.old.gates + 1 ≤ formula.old.limit }
    ensures means { IfOk result (λ e. IsEntry formula.new e (λ v.
        (lit_value v a && lit_value v b) || (lit_value v a && lit_value v c) || (lit_value v b && lit_value v c))) }
    ensures extends { IfOk result (λ _. Extends formula.old formula.new 1) }
{
    if a.var == b.var {
        Ok(Entry::Lit(if a.neg == b.neg { a } else { c }))
    } else if a.var == c.var {
        Ok(Entry::Lit(if a.neg == c.neg { a } else { b }))
    } else if b.var == c.var {
        Ok(Entry::Lit(if b.neg == c.neg { b } else { a }))
    } else {
        majority_gate(formula, a, b, c)
    }
}

/// Two literals, the one with the smaller variable first.
fn in_order(a: Lit, b: Lit) -> (Lit, Lit)
    ensures both { (v : Assignment) → (lit_value v result.0 && lit_value v result.1) ≡ (lit_value v a && lit_value v b) }
    ensures either { (v : Assignment) → (lit_value v result.0 || lit_value v result.1) ≡ (lit_value v a || lit_value v b) }
    ensures there { (n : ℕ) → a.var < n → b.var < n → (result.0.var < n) × (result.1.var < n) }
{
    if b.var < a.var { (b, a) } else { (a, b) }
}

/// The gate of the literals in order.
fn majority_gate(formula: &mut Sharing, a: Lit, b: Lit, c: Lit) -> Result<Entry, OutOfMemory>
    requires a_there { a.var < variables formula.old }
    requires b_there { b.var < variables formula.old }
    requires c_there { c.var < variables formula.old }
    requires room { length formula.old.gates + 1 ≤ formula.old.limit }
    ensures means { IfOk result (λ e. IsEntry formula.new e (λ v.
        (lit_value v a && lit_value v b) || (lit_value v a && lit_value v c) || (lit_value v b && lit_value v c))) }
    ensures extends { IfOk result (λ _. Extends formula.old formula.new 1) }
{
    let (first, last) = in_order(a, b);
    let (middle, last) = in_order(last, c);
    let (first, middle) = in_order(first, middle);
    let entry = formula.gate(Gate::Maj(first, middle, last))?;
    Ok(entry)
}
