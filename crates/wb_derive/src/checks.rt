//! The checker.
ghost use Rattle.std.specs.Prelude.{◌≡◌, ◌≤◌, ◌<◌, ◌+◌, ℕ, true, length, vec_len, slice_get, IsTrue, ◌↔◌};
ghost use Rattle.std.specs.Option.{option_map};
ghost use Rattle.wb_gate.specs.Circuit.{Assignment, variables, minus};
ghost use Rattle.wb_gate.specs.Clauses.{clauses_of, names_only, Satisfies};
ghost use Rattle.wb_derive.specs.Partial.{nothing, refute};
ghost use Rattle.wb_derive.specs.Verdict.{EndsEmpty, IsVerdict};
ghost use Rattle.wb_derive.specs.Course.{partial_of, with_open, with_lit, agrees, is_same, status, run, is_lawful, known_from, StampsWithin, NameOnly, UnitWithin};

use crate::laws::verdicts_are_sound;
use crate::scratch::{CheckScratch, Mark, clear, set_true, value_of};
use crate::steps::{Derivation, Step};
use crate::verdicts::Check;
use wb_gate::{Formula, Lit};

/// What a clause is under the assignment of a step.
#[derive(Clone, Copy)]
pub enum Status {
    /// All its literals are false.
    Falsified,
    /// This literal is open, and all others are false.
    Unit(Lit),
    /// A literal is true, or two are open.
    Other,
}

fn agree(value: bool, other: bool) -> bool
    ensures { result ≡ agrees value other }
{
    if other { value } else { !value }
}

fn is_same(lit: Lit, other: Lit) -> bool
    ensures { result ≡ is_same lit other }
{
    lit.var == other.var && agree(lit.neg, other.neg)
}

/// A clause with one more literal, which is open.
fn with_open(status: Status, lit: Lit) -> Status
    ensures { result ≡ with_open status lit }
{
    match status {
        Status::Falsified => Status::Unit(lit),
        Status::Unit(first) => if is_same(first, lit) {
            status
        } else {
            Status::Other
        },
        Status::Other => Status::Other,
    }
}

/// A clause with one more literal, whose variable has this value.
fn with_lit(status: Status, lit: Lit, value: Option<bool>) -> Status
    ensures { result ≡ with_lit status lit value }
{
    match value {
        None => with_open(status, lit),
        Some(value) => if agree(value, lit.neg) {
            status
        } else {
            Status::Other
        },
    }
}

/// What a clause is under a stamp.
fn status_of(marks: &Vec<Mark>, stamp: u64, clause: &[Lit]) -> Status
    ensures { result ≡ status (partial_of marks.now.items stamp) clause.now }
{
    let mut so_far = Status::Falsified;
    for lit in clause {
        so_far = with_lit(so_far, *lit, value_of(marks, stamp, lit.var));
    }
    so_far
}

/// What the clause of an earlier step is under a stamp.
fn status_of_step(earlier: &[Step], place: u64, marks: &Vec<Mark>, stamp: u64) -> Option<Status>
    ensures { result ≡ option_map (λ step. status (partial_of marks.now.items stamp) step.clause) (slice_get earlier.now place) }
{
    match earlier.get(place as usize) {
        Some(step) => Some(status_of(marks, stamp, step.clause.lits())),
        None => None,
    }
}

/// What the clause of a number is under a stamp: first those of the formula, then those of earlier steps.
fn status_by_number(
    formula: &Formula,
    earlier: &[Step],
    marks: &Vec<Mark>,
    stamp: u64,
    number: u64,
) -> Option<Status>
    requires { NameOnly (variables formula.now) earlier.now }
    ensures status { result ≡ option_map (status (partial_of marks.now.items stamp)) (slice_get (known_from (clauses_of formula.now) earlier.now) number) }
    ensures within { UnitWithin (variables formula.now) result }
{
    match formula.clause_at(number) {
        Some(clause) => Some(status_of(marks, stamp, clause.as_slice())),
        None => status_of_step(earlier, number - formula.clauses(), marks, stamp),
    }
}

/// Whether a clause names only variables below a number.
fn names_only(clause: &[Lit], variables: u32) -> bool
    ensures { result ≡ names_only variables clause.now }
{
    clause.iter().all(|lit| lit.var < variables)
}

/// Makes all literals of a clause false under a stamp.
fn refute(marks: &mut Vec<Mark>, stamp: u64, clause: &[Lit])
    requires { names_only (vec_len marks.old) clause.now ≡ true }
    ensures partial { partial_of marks.new.items stamp ≡ refute clause.now (partial_of marks.old.items stamp) }
    ensures stamps { StampsWithin stamp marks.old.items → StampsWithin stamp marks.new.items }
    ensures length { vec_len marks.new ≡ vec_len marks.old }
{
    for lit in clause {
        set_true(
            marks,
            stamp,
            Lit {
                var: lit.var,
                neg: !lit.neg,
            },
        );
    }
}

/// Whether hints refute what is assumed under a stamp.
fn follow(
    formula: &Formula,
    earlier: &[Step],
    hints: &[u64],
    marks: &mut Vec<Mark>,
    stamp: u64,
) -> bool
    requires named { NameOnly (variables formula.now) earlier.now }
    requires covers { variables formula.now ≤ vec_len marks.old }
    ensures value { result ≡ run (known_from (clauses_of formula.now) earlier.now) hints.now (partial_of marks.old.items stamp) }
    ensures stamps { StampsWithin stamp marks.old.items → StampsWithin stamp marks.new.items }
    ensures length { vec_len marks.new ≡ vec_len marks.old }
{
    for (place, hint) in hints.iter().enumerate() {
        match status_by_number(formula, earlier, marks, stamp, *hint) {
            Some(Status::Falsified) => return place + 1 == hints.len(),
            Some(Status::Unit(lit)) => set_true(marks, stamp, lit),
            _ => return false,
        }
    }
    false
}

/// Whether a step is lawful after earlier ones. The stamp is above all that were used before.
fn is_lawful(
    formula: &Formula,
    earlier: &[Step],
    step: &Step,
    marks: &mut Vec<Mark>,
    stamp: u64,
) -> bool
    requires named { NameOnly (variables formula.now) earlier.now }
    requires covers { variables formula.now ≤ vec_len marks.old }
    requires fresh { (last : ℕ) × (stamp ≡ last + 1) × StampsWithin last marks.old.items }
    ensures value { result ≡ is_lawful (variables formula.now) (known_from (clauses_of formula.now) earlier.now) step.now }
    ensures stamps { StampsWithin stamp marks.new.items }
    ensures length { vec_len marks.new ≡ vec_len marks.old }
{
    let lits = step.clause.lits();
    if !names_only(lits, formula.variables()) {
        return false;
    }
    refute(marks, stamp, lits);
    follow(formula, earlier, step.hints.numbers(), marks, stamp)
}

/// Whether there is a last step, and its clause is empty.
fn ends_empty(steps: &[Step]) -> bool
    ensures { IsTrue result ↔ EndsEmpty steps.now }
{
    match steps.last() {
        Some(step) => step.clause.lits().is_empty(),
        None => false,
    }
}

/// The verdict on steps, with marks that were cleared.
fn judge(formula: &Formula, steps: &[Step], marks: &mut Vec<Mark>) -> Check
    requires covers { variables formula.now ≤ vec_len marks.old }
    requires cleared { StampsWithin 0 marks.old.items }
    ensures verdict { IsVerdict formula.now steps.now result }
    ensures length { vec_len marks.new ≡ vec_len marks.old }
{
    for place in 0..steps.len() {
        let number = place as u64 + 1;
        if !is_lawful(formula, &steps[..place], &steps[place], marks, number) {
            return Check::No(number);
        }
    }
    if ends_empty(steps) {
        Check::Yes
    } else {
        Check::No(steps.len() as u64 + 1)
    }
}

/// Checks a derivation of the empty clause from a formula. A step costs what its hints cost, and no memory is taken.
pub fn check(formula: &Formula, derivation: &Derivation, scratch: &mut CheckScratch) -> Check
    requires { variables formula.now ≤ scratch.old }
    ensures verdict { IsVerdict formula.now derivation.now result }
    ensures sound { result ≡ Check.Yes → (v : Assignment) → Satisfies v formula.now → ⊥ }
    ensures scratch { scratch.new ≡ scratch.old }
{
    verdicts_are_sound();
    clear(&mut scratch.marks);
    judge(formula, derivation.steps(), &mut scratch.marks)
}
