//! What the clauses of a gate come to under the values of a trail.
ghost use Rattle.std.specs.Prelude.{◌≡◌, ◌≤◌, ◌+◌, ◌↔◌, IsTrue, List, [], ◌∷◌};
ghost use Rattle.wb_gate.specs.declared.gates.Lit.{Lit};
ghost use Rattle.wb_gate.specs.declared.gates.Gate.TheVariants.{And, Xor, Mux, Maj};
ghost use Rattle.wb_gate.specs.Circuit.{minus};
ghost use Rattle.wb_gate.specs.Clauses.{gate_clauses};
ghost use Rattle.wb_derive.specs.Partial.{Partial};
ghost use Rattle.wb_solve.specs.Trails.{made};
ghost use Rattle.wb_solve.specs.Judging.{IsTruth, IsSeen, IsNext, IsFound};

use crate::trail::Trail;
use wb_gate::{Gate, Lit};

/// What a literal is under the values of a trail.
#[derive(Clone, Copy)]
pub enum Truth {
    True,
    False,
    /// Its variable has no value.
    Open,
}

/// A literal, and what it is.
#[derive(Clone, Copy)]
pub struct Seen {
    pub lit: Lit,
    pub truth: Truth,
}

/// What a clause comes to.
#[derive(Clone, Copy)]
pub enum Next {
    /// It isn't falsified, and not unit.
    Stays,
    /// It is unit, and this is its open literal.
    Makes(Lit),
    Falsified,
}

/// What the clauses of a gate come to, which have numbers in order.
#[derive(Clone, Copy)]
pub enum Found {
    /// None is falsified or unit.
    Nothing,
    /// The clause of this number is unit, and this is its open literal.
    Unit(u64, Lit),
    /// The clause of this number is falsified.
    Falsified(u64),
}

/// What a literal is.
fn truth_of(trail: &Trail, lit: Lit) -> Truth
    ensures { IsTruth (made trail.now.entries) lit result }
{
    match trail.value(lit.var) {
        None => Truth::Open,
        Some(value) => if value == lit.neg {
            Truth::False
        } else {
            Truth::True
        },
    }
}

/// A literal with what it is.
fn see(trail: &Trail, lit: Lit) -> Seen
    ensures lit { result.lit ≡ lit }
    ensures seen { IsSeen (made trail.now.entries) result }
{
    Seen {
        lit,
        truth: truth_of(trail, lit),
    }
}

/// Whether two literals are the same.
fn is_same(x: Lit, y: Lit) -> bool
    ensures { IsTrue result ↔ (x ≡ y) }
{
    x == y
}

/// What the negation of a literal is that is this.
fn opposite(truth: Truth) -> Truth
    ensures { (p : Partial) (l : Lit) → IsTruth p l truth → IsTruth p (minus l) result }
{
    match truth {
        Truth::True => Truth::False,
        Truth::False => Truth::True,
        Truth::Open => Truth::Open,
    }
}

impl Seen {
    /// The literal that is true where this one is false.
    fn minus(self) -> Seen
        ensures lit { result.lit ≡ minus self.lit }
        ensures seen { (p : Partial) → IsSeen p self → IsSeen p result }
    {
        Seen {
            lit: Lit {
                var: self.lit.var,
                neg: !self.lit.neg,
            },
            truth: opposite(self.truth),
        }
    }
}

/// What a clause comes to of which one literal is this, and the others come to that.
fn joined(first: Seen, rest: Next) -> Next
    ensures { (p : Partial) (clause : List Lit) → IsSeen p first → IsNext p clause rest → IsNext p (first.lit ∷ clause) result }
{
    match first.truth {
        Truth::True => Next::Stays,
        Truth::False => rest,
        Truth::Open => match rest {
            Next::Stays => Next::Stays,
            Next::Falsified => Next::Makes(first.lit),
            Next::Makes(other) => if is_same(first.lit, other) {
                rest
            } else {
                Next::Stays
            },
        },
    }
}

/// What a clause of two literals comes to.
fn two(x: Seen, y: Seen) -> Next
    ensures { (p : Partial) → IsSeen p x → IsSeen p y → IsNext p (x.lit ∷ y.lit ∷ []) result }
{
    if let Truth::True = x.truth {
        return Next::Stays;
    }
    joined(x, joined(y, Next::Falsified))
}

/// What a clause of three literals comes to.
fn three(x: Seen, y: Seen, z: Seen) -> Next
    ensures { (p : Partial) → IsSeen p x → IsSeen p y → IsSeen p z → IsNext p (x.lit ∷ y.lit ∷ z.lit ∷ []) result }
{
    if let Truth::True = x.truth {
        return Next::Stays;
    }
    joined(x, two(y, z))
}

/// What clauses come to of which the first has this number and comes to this.
fn first(number: u64, next: Next, later: Found) -> Found
    ensures { (p : Partial) (clause : List Lit) (clauses : List (List Lit)) → IsNext p clause next → IsFound p (number + 1) clauses later → IsFound p number (clause ∷ clauses) result }
{
    match next {
        Next::Stays => later,
        Next::Makes(lit) => Found::Unit(number, lit),
        Next::Falsified => Found::Falsified(number),
    }
}

/// What the clauses of a conjunction come to.
fn judge_and(g: Seen, x: Seen, y: Seen) -> Found
    ensures { (p : Partial) → IsSeen p g → IsSeen p x → IsSeen p y → IsFound p 0 (gate_clauses g.lit (And x.lit y.lit)) result }
{
    let (not_g, not_x, not_y) = (g.minus(), x.minus(), y.minus());
    let last = first(2, three(g, not_x, not_y), Found::Nothing);
    let later = first(1, two(not_g, y), last);
    first(0, two(not_g, x), later)
}

/// What the clauses of an exclusive or come to.
fn judge_xor(g: Seen, x: Seen, y: Seen) -> Found
    ensures { (p : Partial) → IsSeen p g → IsSeen p x → IsSeen p y → IsFound p 0 (gate_clauses g.lit (Xor x.lit y.lit)) result }
{
    let (not_g, not_x, not_y) = (g.minus(), x.minus(), y.minus());
    let last = first(3, three(g, x, not_y), Found::Nothing);
    let third = first(2, three(g, not_x, y), last);
    let second = first(1, three(not_g, not_x, not_y), third);
    first(0, three(not_g, x, y), second)
}

/// What the clauses of a choice come to.
fn judge_mux(g: Seen, c: Seen, x: Seen, y: Seen) -> Found
    ensures { (p : Partial) → IsSeen p g → IsSeen p c → IsSeen p x → IsSeen p y → IsFound p 0 (gate_clauses g.lit (Mux c.lit x.lit y.lit)) result }
{
    let (not_g, not_c) = (g.minus(), c.minus());
    let last = first(3, three(g, c, y.minus()), Found::Nothing);
    let third = first(2, three(not_g, c, y), last);
    let second = first(1, three(g, not_c, x.minus()), third);
    first(0, three(not_g, not_c, x), second)
}

/// What three clauses come to that each have this literal and two others.
fn judge_pairs(number: u64, g: Seen, x: Seen, y: Seen, z: Seen, later: Found) -> Found
    requires { number ≤ 3 }
    ensures { (p : Partial) (clauses : List (List Lit)) → IsSeen p g → IsSeen p x → IsSeen p y → IsSeen p z → IsFound p (number + 3) clauses later → IsFound p number ((g.lit ∷ x.lit ∷ y.lit ∷ []) ∷ (g.lit ∷ x.lit ∷ z.lit ∷ []) ∷ (g.lit ∷ y.lit ∷ z.lit ∷ []) ∷ clauses) result }
{
    let last = first(number + 2, three(g, y, z), later);
    let second = first(number + 1, three(g, x, z), last);
    first(number, three(g, x, y), second)
}

/// What the clauses of a majority come to.
fn judge_maj(g: Seen, x: Seen, y: Seen, z: Seen) -> Found
    ensures { (p : Partial) → IsSeen p g → IsSeen p x → IsSeen p y → IsSeen p z → IsFound p 0 (gate_clauses g.lit (Maj x.lit y.lit z.lit)) result }
{
    let later = judge_pairs(3, g, x.minus(), y.minus(), z.minus(), Found::Nothing);
    judge_pairs(0, g.minus(), x, y, z, later)
}

/// What the clauses of a gate come to.
pub fn judge(trail: &Trail, g: Lit, gate: Gate) -> Found
    ensures { IsFound (made trail.now.entries) 0 (gate_clauses g gate) result }
{
    let g = see(trail, g);
    match gate {
        Gate::And(x, y) => judge_and(g, see(trail, x), see(trail, y)),
        Gate::Xor(x, y) => judge_xor(g, see(trail, x), see(trail, y)),
        Gate::Mux(c, x, y) => judge_mux(g, see(trail, c), see(trail, x), see(trail, y)),
        Gate::Maj(x, y, z) => judge_maj(g, see(trail, x), see(trail, y), see(trail, z)),
    }
}
