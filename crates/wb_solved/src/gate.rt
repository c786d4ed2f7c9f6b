//! The clauses of every gate, written out by hand and held against truth tables.
use std::process::Abort;
use std::test::Fail;
use wb_gate::{Formula, Gate, GateClause, GateFault, Goal, Lit};

const X: Lit = Lit { var: 0, neg: false };

const Y: Lit = Lit { var: 1, neg: false };

const Z: Lit = Lit { var: 2, neg: false };

/// A literal as a number: that of its variable plus one, below zero where it is negated.
fn number(lit: &Lit) -> i64 {
    let value = i64::from(lit.var) + 1;
    if lit.neg { -value } else { value }
}

fn expect_clause(rt: &impl Abort, clause: &GateClause, want: &[i64]) {
    assert_eq!(rt; clause.len(), want.len());
    for (lit, want) in clause.iter().zip(want) {
        assert_eq!(rt; number(lit), *want);
    }
}

/// Whether the values, one for each variable, make a literal of the clause true.
fn holds(clause: &GateClause, values: &[bool]) -> bool {
    for lit in clause.iter() {
        if values.get(lit.var as usize) == Some(&!lit.neg) {
            return true;
        }
    }
    false
}

#[test]
fn clauses_are_those_of_the_table(rt: HostRuntime) -> Result<(), Fail> {
    // Each with its clauses, and with its value by the inputs x + 2 y + 4 z, the lowest bit for 0.
    let cases: [(Gate, &[&[i64]], u32); 4] = [
        (Gate::And(X, Y), &[&[-4, 1], &[-4, 2], &[4, -1, -2]], 0x88),
        (
            Gate::Xor(X, Y),
            &[&[-4, 1, 2], &[-4, -1, -2], &[4, -1, 2], &[4, 1, -2]],
            0x66,
        ),
        (
            Gate::Mux(X, Y, Z),
            &[&[-4, -1, 2], &[4, -1, -2], &[-4, 1, 3], &[4, 1, -3]],
            0xD8,
        ),
        (
            Gate::Maj(X, Y, Z),
            &[
                &[-4, 1, 2],
                &[-4, 1, 3],
                &[-4, 2, 3],
                &[4, -1, -2],
                &[4, -1, -3],
                &[4, -2, -3],
            ],
            0xE8,
        ),
    ];
    for (gate, want, table) in cases {
        let mut formula = Formula::new(rt.alloc(), 3, 1);
        assert_eq!(rt; formula.add(gate).map(|lit| lit.var), Ok(3));
        formula.set_goal(Goal::Always);
        for (place, want) in want.iter().enumerate() {
            let clause = formula.clause_at(place as u64).ok_or("a clause")?;
            expect_clause(&rt, &clause, want);
        }
        assert!(rt; formula.clause_at(want.len() as u64).is_none());
        for inputs in 0..8u32 {
            for value in [false, true] {
                let values = [
                    inputs & 1 == 1,
                    inputs >> 1 & 1 == 1,
                    inputs >> 2 & 1 == 1,
                    value,
                ];
                let mut all = true;
                for place in 0..want.len() {
                    let clause = formula.clause_at(place as u64).ok_or("a clause")?;
                    all = all && holds(&clause, &values);
                }
                assert_eq!(rt;
                    all,
                    value == (table >> inputs & 1 == 1),
                    "{gate:?} at {values:?}"
                );
            }
        }
    }
    Ok(())
}

#[test]
fn goals_are_the_last_clauses(rt: HostRuntime) -> Result<(), Fail> {
    let mut empty = Formula::new(rt.alloc(), 0, 0);
    assert_eq!(rt; empty.goal(), Goal::Never);
    assert_eq!(rt; empty.clause_at(0).ok_or("the empty clause")?.len(), 0);
    assert!(rt; empty.clause_at(1).is_none());
    empty.set_goal(Goal::Always);
    assert!(rt; empty.clause_at(0).is_none());

    Ok(())
}

#[test]
fn clauses_are_numbered_through(rt: HostRuntime) -> Result<(), Fail> {
    let mut formula = Formula::new(rt.alloc(), 3, 3);
    formula.set_goal(Goal::Lit(Lit { var: 2, neg: true }));
    expect_clause(&rt, &formula.clause_at(0).ok_or("the goal")?, &[-3]);
    let both = formula.add(Gate::And(X, Y))?;
    assert_eq!(rt; both.var, 3);
    let most = formula.add(Gate::Maj(X, Y, Z))?;
    assert_eq!(rt; most.var, 4);
    assert_eq!(rt; formula.gates(), 2);
    assert_eq!(rt; formula.inputs(), 3);
    assert_eq!(rt; formula.gate_at(1), Gate::Maj(X, Y, Z));
    let other = formula.add(Gate::Xor(both, most))?;
    assert_eq!(rt; number(&other), 6);
    assert_eq!(rt; formula.add(Gate::And(X, X)), Err(GateFault::Full));
    // Three clauses of the first gate, six of the second, four of the third, and the goal.
    for (place, want) in [
        (0, [-4, 1].as_slice()),
        (2, &[4, -1, -2]),
        (3, &[-5, 1, 2]),
        (8, &[5, -2, -3]),
        (9, &[-6, 4, 5]),
        (12, &[6, 4, -5]),
        (13, &[-3]),
    ] {
        let clause = formula.clause_at(place).ok_or("a clause")?;
        expect_clause(&rt, &clause, want);
    }
    assert_eq!(rt; formula.clauses(), 14);
    assert!(rt; formula.clause_at(14).is_none());
    assert!(rt; formula.clause_at(u64::MAX).is_none());
    Ok(())
}
