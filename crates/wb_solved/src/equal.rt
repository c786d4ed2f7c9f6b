//! Gates that are equal up to order and signs, and likely values by hand.
use std::test::Fail;
use wb_equal::{Entry, Sharing, xor};
use wb_gate::Lit;

#[test]
fn equal_gates_are_one(rt: HostRuntime) -> Result<(), Fail> {
    let mut formula = Sharing::new(rt.alloc(), 2, 2, &[1, 0])?;
    let x = Entry::Lit(Lit { var: 0, neg: false });
    let y = Entry::Lit(Lit { var: 1, neg: false });
    let other = Entry::Lit(Lit { var: 0, neg: true });
    let apart = xor(&mut formula, other, y)?;
    assert_eq!(rt; apart, Entry::Lit(Lit { var: 2, neg: true }));
    // Equal up to order and signs.
    let again = xor(&mut formula, y, x)?;
    assert_eq!(rt; again, Entry::Lit(Lit { var: 2, neg: false }));
    assert_eq!(rt; formula.into_formula().gates(), 1);
    Ok(())
}

#[test]
fn likely_values_go_low_where_they_can(rt: HostRuntime) -> Result<(), Fail> {
    // The last input is asked for first.
    let mut formula = Sharing::new(rt.alloc(), 3, 1, &[2, 1, 0])?;
    let x = Entry::Lit(Lit { var: 0, neg: false });
    let z = Entry::Lit(Lit { var: 2, neg: false });
    let apart = xor(&mut formula, x, z)?;
    let likely = formula
        .likely(rt.alloc(), apart)?
        .ok_or("nothing is likely")?;
    assert_eq!(rt; likely.as_slice(), [true, false, false].as_slice());
    assert!(rt; formula.likely(rt.alloc(), Entry::F)?.is_none());
    Ok(())
}
