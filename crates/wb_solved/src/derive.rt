//! Derivations that were worked by hand.
use std::alloc::Global;
use std::process::Abort;
use std::test::Fail;
use wb_derive::{Check, CheckScratch, Clause, Derivation, Step, check};
use wb_gate::{Formula, Gate, Goal, Lit};

const X: Lit = Lit { var: 0, neg: false };

const Y: Lit = Lit { var: 1, neg: false };

/// A literal by its number: that of the variable plus one, below zero where it is negated.
const fn lit(number: i16) -> Lit {
    if number < 0 {
        Lit {
            var: (number.unsigned_abs() as u32).saturating_sub(1),
            neg: true,
        }
    } else {
        Lit {
            var: (number.unsigned_abs() as u32).saturating_sub(1),
            neg: false,
        }
    }
}

/// Two inputs, twice their difference, and as the goal that the two differ. The clauses are
/// 0 (-3 1 2), 1 (-3 -1 -2), 2 (3 -1 2), 3 (3 1 -2); 4 (-4 1 2), 5 (-4 -1 -2), 6 (4 -1 2), 7 (4 1 -2);
/// 8 (-5 3), 9 (-5 -4), 10 (5 -3 4); and 11 (5), the goal.
fn two_differences(alloc: Global) -> Result<Formula, Fail> {
    let mut formula = Formula::new(alloc, 2, 9);
    let first = formula.add(Gate::Xor(X, Y))?;
    let second = formula.add(Gate::Xor(X, Y))?;
    let not_second = Lit {
        var: second.var,
        neg: true,
    };
    let both = formula.add(Gate::And(first, not_second))?;
    formula.set_goal(Goal::Lit(both));
    Ok(formula)
}

/// The literals of these numbers.
fn literals(alloc: Global, numbers: &[i16]) -> Result<Vec<Lit>, Fail> {
    let mut lits = Vec::new(alloc);
    for number in numbers {
        lits.push(lit(*number))?;
    }
    Ok(lits)
}

/// A step with these literals and hints.
fn step_of(alloc: Global, numbers: &[i16], hints: &[u64]) -> Result<Step, Fail> {
    let lits = literals(alloc, numbers)?;
    let clause = Clause::new(alloc, lits.as_slice())?;
    let clause = clause.ok_or("no clause")?;
    Ok(Step::new(alloc, clause, hints)?)
}

/// A derivation of these clauses, each with its hints.
fn derivation_of(alloc: Global, steps: &[(&[i16], &[u64])]) -> Result<Derivation, Fail> {
    let mut derivation = Derivation::new(alloc);
    for (numbers, hints) in steps {
        derivation.push(step_of(alloc, numbers, hints)?)?;
    }
    Ok(derivation)
}

/// The verdict on a derivation, which is the same in memory that was used before.
fn verdict_on(
    rt: &impl Abort,
    alloc: Global,
    formula: &Formula,
    steps: &[(&[i16], &[u64])],
) -> Result<Check, Fail> {
    let derivation = derivation_of(alloc, steps)?;
    let mut scratch = CheckScratch::for_formula(alloc, formula)?;
    let verdict = check(formula, &derivation, &mut scratch);
    assert_eq!(rt; check(formula, &derivation, &mut scratch), verdict);
    Ok(verdict)
}

/// A clause and its hints.
type Stated = (&'static [i16], &'static [u64]);

/// Steps, and the verdict on them.
type Judged = (&'static [Stated], Check);

/// The goal makes 5 true, so 3 and not 4. With 1 assumed, clause 1 makes 2 false, and clause 6 is falsified.
const FIRST: Stated = (&[-1], &[11, 8, 9, 1, 6]);

/// Without 1, clause 0 makes 2 true, and clause 7 is falsified. The first step has the number 12.
const LAST: Stated = (&[], &[11, 8, 9, 12, 0, 7]);

const DERIVATIONS: [Judged; 24] = [
    (&[FIRST, LAST], Check::Yes),
    (&[], Check::No(1)),
    (&[(&[], &[])], Check::No(1)),
    (&[FIRST], Check::No(2)),
    (&[FIRST, FIRST, LAST], Check::Yes),
    (&[LAST], Check::No(1)),
    (&[LAST, FIRST], Check::No(1)),
    // A hint that isn't unit: first, in the middle, last.
    (&[(&[-1], &[0, 11, 8, 9, 1, 6])], Check::No(1)),
    (&[(&[-1], &[11, 8, 7, 9, 1, 6])], Check::No(1)),
    (&[(&[-1], &[11, 8, 9, 1, 1])], Check::No(1)),
    // A clause that holds already is no unit clause.
    (&[(&[-1], &[11, 11, 8, 9, 1, 6])], Check::No(1)),
    // No hint falsified.
    (&[(&[-1], &[11, 8, 9, 1])], Check::No(1)),
    // A hint after the falsified one.
    (&[(&[-1], &[11, 8, 9, 1, 6, 6])], Check::No(1)),
    (&[FIRST, (&[], &[11, 8, 9, 12, 0, 7, 7])], Check::No(2)),
    // A hint that names nothing: itself, a later step, past all.
    (&[FIRST, (&[], &[11, 8, 9, 13, 0, 7])], Check::No(2)),
    (&[(&[-1], &[11, 8, 9, 1, 12])], Check::No(1)),
    (&[(&[-1], &[11, 8, 9, 1, u64::MAX])], Check::No(1)),
    // A variable that the formula doesn't have.
    (&[(&[-1, 6], &[11, 8, 9, 1, 6])], Check::No(1)),
    (&[(&[-1, 5], &[11, 8, 9, 1, 6])], Check::No(1)),
    // With more literals in the clause, a clause that holds already is unlawful as a hint, and the rest may serve.
    (&[(&[-1, 2], &[11, 8, 9, 1])], Check::No(1)),
    (&[(&[-1, 2], &[11, 8, 9, 6])], Check::No(2)),
    (&[(&[-1, -3], &[11, 8, 9, 1, 6])], Check::No(1)),
    (&[(&[-1, -3], &[11, 9, 1, 6]), LAST], Check::Yes),
    (&[FIRST, LAST, FIRST], Check::No(4)),
];

fn expect_verdicts(rt: &impl Abort, alloc: Global, rows: &[Judged]) -> Result<(), Fail> {
    let formula = two_differences(alloc)?;
    for (steps, want) in rows {
        let verdict = verdict_on(rt, alloc, &formula, steps)?;
        assert_eq!(rt; verdict, *want, "at {steps:?}");
    }
    Ok(())
}

#[test]
fn steps_are_lawful_or_not(rt: HostRuntime) -> Result<(), Fail> {
    expect_verdicts(&rt, rt.alloc(), &DERIVATIONS)
}

/// Literals, and whether they rise.
type Rising = (&'static [i16], bool);

const CLAUSES: [Rising; 7] = [
    (&[], true),
    (&[-9], true),
    (&[1, -2, 4], true),
    (&[1, 1], false),
    (&[1, -1], false),
    (&[2, 1], false),
    (&[1, 3, 2], false),
];

/// The clause of literals, if they rise, has them.
fn expect_clause(rt: &impl Abort, alloc: Global, numbers: &[i16], want: bool) -> Result<(), Fail> {
    let lits = literals(alloc, numbers)?;
    let clause = Clause::new(alloc, lits.as_slice())?;
    assert_eq!(rt; clause.is_some(), want, "at {numbers:?}");
    if let Some(clause) = clause {
        assert_eq!(rt; clause.lits(), lits.as_slice());
    }
    Ok(())
}

fn expect_clauses(rt: &impl Abort, alloc: Global, rows: &[Rising]) -> Result<(), Fail> {
    for (numbers, want) in rows {
        expect_clause(rt, alloc, numbers, *want)?;
    }
    Ok(())
}

#[test]
fn clauses_rise(rt: HostRuntime) -> Result<(), Fail> {
    expect_clauses(&rt, rt.alloc(), &CLAUSES)
}

/// The verdict on the empty clause by the first clause of a formula with the goal that is always met, or never.
fn verdict_on_goal(rt: &impl Abort, alloc: Global, always: bool) -> Result<Check, Fail> {
    let mut formula = Formula::new(alloc, 0, 0);
    if always {
        formula.set_goal(Goal::Always);
    }
    verdict_on(rt, alloc, &formula, &[(&[], &[0])])
}

#[test]
fn the_empty_clause_refutes_itself(rt: HostRuntime) -> Result<(), Fail> {
    // The goal that is never met is the empty clause, number 0; the one that always is has none.
    assert_eq!(rt; verdict_on_goal(&rt, rt.alloc(), false)?, Check::Yes);
    assert_eq!(rt; verdict_on_goal(&rt, rt.alloc(), true)?, Check::No(1));
    Ok(())
}
