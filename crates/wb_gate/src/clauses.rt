//! The clauses of one gate.
ghost use Rattle.std.specs.Prelude.{◌≡◌, ◌≤◌, [], ◌∷◌, length};
ghost use Rattle.wb_gate.specs.Circuit.{minus};
ghost use Rattle.wb_gate.specs.Clauses.{gate_clauses, goal_clauses, IsClauseAt};

use crate::gates::{Gate, Goal, Lit};
use arrayvec::ArrayVec;

/// A clause of a formula: some literal of it has to be true. The longest have three.
pub type GateClause = ArrayVec<Lit, 4>;

/// The literal that is true where this one is false.
fn minus(lit: Lit) -> Lit
    ensures { result ≡ minus lit }
{
    Lit {
        var: lit.var,
        neg: !lit.neg,
    }
}

fn one(x: Lit) -> GateClause
    ensures { result.items ≡ x ∷ [] }
{
    let mut clause = ArrayVec::new();
    clause.push(x);
    clause
}

fn two(x: Lit, y: Lit) -> GateClause
    ensures { result.items ≡ x ∷ y ∷ [] }
{
    let mut clause = ArrayVec::new();
    clause.push(x);
    clause.push(y);
    clause
}

fn three(x: Lit, y: Lit, z: Lit) -> GateClause
    ensures { result.items ≡ x ∷ y ∷ z ∷ [] }
{
    let mut clause = ArrayVec::new();
    clause.push(x);
    clause.push(y);
    clause.push(z);
    clause
}

/// How many clauses a gate has.
pub fn clause_count(gate: Gate) -> u64
    ensures value { (g : Lit) → result ≡ length (gate_clauses g gate) }
    ensures few { result ≤ 6 }
{
    match gate {
        Gate::And(..) => 3,
        Gate::Xor(..) => 4,
        Gate::Mux(..) => 4,
        Gate::Maj(..) => 6,
    }
}

/// A clause of a gate with this variable.
pub fn gate_clause(g: Lit, gate: Gate, number: u64) -> Option<GateClause>
    ensures { IsClauseAt (gate_clauses g gate) number result }
{
    match gate {
        Gate::And(x, y) => and_clause(g, x, y, number),
        Gate::Xor(x, y) => xor_clause(g, x, y, number),
        Gate::Mux(c, x, y) => mux_clause(g, c, x, y, number),
        Gate::Maj(x, y, z) => maj_clause(g, x, y, z, number),
    }
}

fn and_clause(g: Lit, x: Lit, y: Lit, number: u64) -> Option<GateClause>
    ensures { IsClauseAt (gate_clauses g (Gate.And x y)) number result }
{
    match number {
        0 => Some(two(minus(g), x)),
        1 => Some(two(minus(g), y)),
        2 => Some(three(g, minus(x), minus(y))),
        _ => None,
    }
}

fn xor_clause(g: Lit, x: Lit, y: Lit, number: u64) -> Option<GateClause>
    ensures { IsClauseAt (gate_clauses g (Gate.Xor x y)) number result }
{
    match number {
        0 => Some(three(minus(g), x, y)),
        1 => Some(three(minus(g), minus(x), minus(y))),
        2 => Some(three(g, minus(x), y)),
        3 => Some(three(g, x, minus(y))),
        _ => None,
    }
}

fn mux_clause(g: Lit, c: Lit, x: Lit, y: Lit, number: u64) -> Option<GateClause>
    ensures { IsClauseAt (gate_clauses g (Gate.Mux c x y)) number result }
{
    match number {
        0 => Some(three(minus(g), minus(c), x)),
        1 => Some(three(g, minus(c), minus(x))),
        2 => Some(three(minus(g), c, y)),
        3 => Some(three(g, c, minus(y))),
        _ => None,
    }
}

fn maj_clause(g: Lit, x: Lit, y: Lit, z: Lit, number: u64) -> Option<GateClause>
    ensures { IsClauseAt (gate_clauses g (Gate.Maj x y z)) number result }
{
    match number {
        0 => Some(three(minus(g), x, y)),
        1 => Some(three(minus(g), x, z)),
        2 => Some(three(minus(g), y, z)),
        3 => Some(three(g, minus(x), minus(y))),
        4 => Some(three(g, minus(x), minus(z))),
        5 => Some(three(g, minus(y), minus(z))),
        _ => None,
    }
}

/// The clause of a goal that has this number.
pub fn goal_clause(goal: Goal, number: u64) -> Option<GateClause>
    ensures { IsClauseAt (goal_clauses goal) number result }
{
    match (goal, number) {
        (Goal::Lit(lit), 0) => Some(one(lit)),
        (Goal::Never, 0) => Some(ArrayVec::new()),
        _ => None,
    }
}

/// How many clauses a goal has.
pub fn goal_count(goal: Goal) -> u64
    ensures value { result ≡ length (goal_clauses goal) }
    ensures few { result ≤ 1 }
{
    match goal {
        Goal::Always => 0,
        _ => 1,
    }
}
