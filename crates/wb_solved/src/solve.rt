//! Searches that were made by hand.
ghost use Rattle.std.specs.Prelude.{◌≡◌};

use crate::draws::Draws;
use std::alloc::Global;
use std::process::Abort;
use std::test::Fail;
use wb_derive::{Check, CheckScratch, Derivation, check};
use wb_gate::{Formula, Gate, Goal, Lit};
use wb_solve::{Answer, Values, solve};

const ALL: u64 = u64::MAX;

fn lit(var: u32) -> Lit
    ensures { result.var ≡ var }
{
    Lit { var, neg: false }
}

/// Two inputs, 2 and 3 say that they differ, and 4 says that 2 holds and 3 doesn't. The goal is 4, or else 2.
fn example(alloc: Global, is_last: bool) -> Result<Formula, Fail> {
    let mut formula = Formula::new(alloc, 2, 3);
    let first = formula.add(Gate::Xor(lit(0), lit(1)))?;
    let second = formula.add(Gate::Xor(lit(0), lit(1)))?;
    let other = Lit {
        var: second.var,
        neg: true,
    };
    let third = formula.add(Gate::And(first, other))?;
    if is_last {
        formula.set_goal(Goal::Lit(third));
    } else {
        formula.set_goal(Goal::Lit(first));
    }
    Ok(formula)
}

fn expect_values(rt: &impl Abort, answer: Answer, want: &[bool]) {
    match answer {
        Answer::Sat(values) => assert_eq!(rt; values.list(), want),
        Answer::Unsat(_) | Answer::Spent(_) => assert!(rt; false, "no values"),
    }
}

/// The clauses of the steps, each as the variables that it names.
fn expect_steps(rt: &impl Abort, steps: &Derivation, want: &[&[u32]]) {
    assert_eq!(rt; steps.steps().len(), want.len());
    for (step, want) in steps.steps().iter().zip(want) {
        assert_eq!(rt; step.clause.lits().len(), want.len());
        for (lit, want) in step.clause.lits().iter().zip(*want) {
            assert_eq!(rt; lit.var, *want);
            assert!(rt; !lit.neg);
        }
    }
}

fn expect_unsat(rt: &impl Abort, answer: Answer, want: &[&[u32]]) {
    match answer {
        Answer::Unsat(steps) => expect_steps(rt, &steps, want),
        Answer::Sat(_) | Answer::Spent(_) => assert!(rt; false, "no refutation"),
    }
}

fn expect_spent(rt: &impl Abort, answer: Answer, want: &[&[u32]]) {
    match answer {
        Answer::Spent(steps) => expect_steps(rt, &steps, want),
        Answer::Sat(_) | Answer::Unsat(_) => assert!(rt; false, "an answer"),
    }
}

#[test]
fn equal_gates_do_not_differ(rt: HostRuntime) -> Result<(), Fail> {
    let formula = example(rt.alloc(), true)?;
    let spent = solve(rt.alloc(), &formula, 0)?;
    expect_spent(&rt, spent, &[]);
    for limit in [1, 2, 3, ALL] {
        let answer = solve(rt.alloc(), &formula, limit)?;
        expect_unsat(&rt, answer, &[&[0], &[]]);
    }
    let satisfied = example(rt.alloc(), false)?;
    let answer = solve(rt.alloc(), &satisfied, 0)?;
    expect_values(&rt, answer, &[false, true, true, true, false]);
    Ok(())
}

#[test]
fn goals_alone_decide(rt: HostRuntime) -> Result<(), Fail> {
    let mut formula = Formula::new(rt.alloc(), 0, 0);
    let refuted = solve(rt.alloc(), &formula, 0)?;
    expect_unsat(&rt, refuted, &[&[]]);
    formula.set_goal(Goal::Always);
    let answer = solve(rt.alloc(), &formula, 0)?;
    expect_values(&rt, answer, &[]);
    let made = Values::new(rt.alloc(), &[true, false])?;
    assert_eq!(rt; made.list(), [true, false].as_slice());
    Ok(())
}

fn truth(values: &[bool], lit: Lit) -> bool {
    match values.get(lit.var as usize) {
        Some(value) => *value != lit.neg,
        None => false,
    }
}

fn gate_truth(values: &[bool], gate: Gate) -> bool {
    match gate {
        Gate::And(x, y) => truth(values, x) && truth(values, y),
        Gate::Xor(x, y) => truth(values, x) != truth(values, y),
        Gate::Mux(c, x, y) => if truth(values, c) {
            truth(values, x)
        } else {
            truth(values, y)
        },
        Gate::Maj(x, y, z) => if truth(values, x) {
            truth(values, y) || truth(values, z)
        } else {
            truth(values, y) && truth(values, z)
        },
    }
}

/// The values of all variables where those of the inputs are the bits of a number.
fn values_of(alloc: Global, formula: &Formula, inputs: u32) -> Result<Vec<bool>, Fail> {
    let mut values = Vec::new(alloc);
    let mut rest = inputs;
    for _input in 0..formula.inputs() {
        values.push(rest % 2 == 1)?;
        rest /= 2;
    }
    for place in 0..formula.gates() {
        let value = gate_truth(values.as_slice(), formula.gate_at(place));
        values.push(value)?;
    }
    Ok(values)
}

fn meets(formula: &Formula, values: &[bool]) -> bool {
    match formula.goal() {
        Goal::Lit(lit) => truth(values, lit),
        Goal::Always => true,
        Goal::Never => false,
    }
}

/// The first values in order of the inputs that meet the goal.
fn some_values(alloc: Global, formula: &Formula) -> Result<Option<Vec<bool>>, Fail> {
    for inputs in 0..32 {
        let values = values_of(alloc, formula, inputs)?;
        if meets(formula, values.as_slice()) {
            return Ok(Some(values));
        }
    }
    Ok(None)
}

/// The search answers as a plain enumeration does, and stops at a limit that is too small.
fn expect_answer(rt: &impl Abort, alloc: Global, formula: &Formula) -> Result<(), Fail> {
    let known = some_values(alloc, formula)?;
    let answer = solve(alloc, formula, ALL)?;
    match &answer {
        Answer::Sat(values) => {
            assert!(rt; known.is_some());
            assert!(rt; meets(formula, values.list()));
        }
        Answer::Unsat(steps) => {
            assert!(rt; known.is_none());
            let count = steps.steps().len() as u64;
            let mut scratch = CheckScratch::for_formula(alloc, formula)?;
            assert_eq!(rt; check(formula, steps, &mut scratch), Check::Yes);
            let again = solve(alloc, formula, count.saturating_sub(1))?;
            expect_count(rt, &again, true, count);
            if count > 1 {
                let spent = solve(alloc, formula, count - 2)?;
                expect_count(rt, &spent, false, count - 2);
            }
        }
        Answer::Spent(_) => assert!(rt; false, "spent"),
    }
    Ok(())
}

fn expect_count(rt: &impl Abort, answer: &Answer, is_refuted: bool, count: u64) {
    match answer {
        Answer::Unsat(steps) => {
            assert!(rt; is_refuted);
            assert_eq!(rt; steps.steps().len() as u64, count);
        }
        Answer::Spent(steps) => {
            assert!(rt; !is_refuted);
            assert_eq!(rt; steps.steps().len() as u64, count);
        }
        Answer::Sat(_) => assert!(rt; false, "values"),
    }
}

#[test]
fn small_formulas_are_as_enumerated(rt: HostRuntime) -> Result<(), Fail> {
    let mut draws = Draws { state: 7725 };
    for _count in 0..300 {
        let formula = draws.formula(rt.alloc())?;
        expect_answer(&rt, rt.alloc(), &formula)?;
    }
    Ok(())
}
