//! What no clause says: that the calls succeed, that constants take no steps, and what few steps leave untold.
ghost use Rattle.wb_diagram.specs.Forest.{Forest};
ghost use Rattle.wb_vector.specs.Vectors.{AreThere};
ghost use Rattle.wb_vector.specs.Operations.{OperationThere};

use super::*;
use std::alloc::Global;
use std::process::Abort;
use std::test::Fail;
use wb_diagram::{Diagrams, Refused};

/// The number of a word where the variables have these values.
fn number_at(diagrams: &Diagrams, x: &Vector, values: &[bool]) -> u32
    requires { AreThere diagrams.now x.now }
{
    let mut number = 0;
    for at in 0..16 {
        if diagrams.value_at(x[at], values) {
            number |= 1u32 << at;
        }
    }
    number
}

/// Two numbers combined without a step.
fn combined(alloc: Global, operation: Operation, x: u16, y: u16) -> Result<Option<u16>, Fail>
    requires { (f : Forest) → OperationThere f operation }
{
    let mut diagrams = Diagrams::new(alloc, 64, 64)?;
    let x = constant_word(&diagrams, x);
    let y = constant_word(&diagrams, y);
    let word = combine_words(&mut diagrams, operation, &x, &y, &mut 0)?;
    Ok(known_word(&diagrams, &word))
}

#[test]
fn constants_take_no_steps(rt: HostRuntime) -> Result<(), Fail> {
    let alloc = rt.alloc();
    assert_eq!(rt;
        combined(alloc, Operation::And, 0xC3A5, 0x0FF0)?,
        Some(0x03A0)
    );
    assert_eq!(rt;
        combined(alloc, Operation::Or, 0xC3A5, 0x0FF0)?,
        Some(0xCFF5)
    );
    assert_eq!(rt;
        combined(alloc, Operation::Xor, 0xC3A5, 0x0FF0)?,
        Some(0xCC55)
    );
    let diagrams = Diagrams::new(alloc, 64, 64)?;
    let x = constant_word(&diagrams, 0xC3A5);
    assert_eq!(rt;
        known_word(&diagrams, &shifted_left(&diagrams, &x, 3)),
        Some(0x1D28)
    );
    assert_eq!(rt;
        known_word(&diagrams, &shifted_right(&diagrams, &x, 3)),
        Some(0x1874)
    );
    assert_eq!(rt; known_bit(&diagrams, picked(&diagrams, &x, 5)), Some(true));
    Ok(())
}

/// What is looked up and chosen at a place of four bits, and what the lowest bit tells of them.
#[test]
fn variables_are_looked_up(rt: HostRuntime) -> Result<(), Fail> {
    let mut words = [0x8000; 1024];
    for at in 0..16u16 {
        words[usize::from(at)] = 1000 * at + 7;
    }
    let mut diagrams = Diagrams::new(rt.alloc(), 4096, 64)?;
    let mut steps = 10_000;
    let x = variables(&mut diagrams, &[0, 1, 2, 3])?;
    let word = look(&mut diagrams, &words, &x, &mut steps)?;
    let opposite = inverted(&mut diagrams, &word, &mut steps)?;
    assert_eq!(rt;
        number_at(&diagrams, &opposite, &[true, false, true, true]),
        65535 - 13007
    );
    assert_eq!(rt;
        bit_where(&mut diagrams, x[0], word[3], &mut steps),
        Some(true)
    );
    assert_eq!(rt;
        bit_where(&mut diagrams, x[0], opposite[3], &mut steps),
        Some(false)
    );
    assert_eq!(rt; bit_where(&mut diagrams, x[0], word[4], &mut steps), None);
    assert_eq!(rt; word_where(&mut diagrams, x[0], &word, &mut steps), None);
    assert_eq!(rt;
        look(&mut diagrams, &words, &opposite, &mut 0),
        Err(Refused::Spent)
    );
    Ok(())
}

/// The sum and the difference of two numbers and a carry, without a step.
fn sum_and_difference(alloc: Global, x: u16, y: u16) -> Result<[Option<u16>; 2], Fail> {
    let mut diagrams = Diagrams::new(alloc, 64, 64)?;
    let yes = diagrams.leaf(true);
    let x = constant_word(&diagrams, x);
    let y = constant_word(&diagrams, y);
    let sum = sum_of(&mut diagrams, &x, &y, yes, &mut 0)?;
    let difference = difference_of(&mut diagrams, &x, &y, yes, &mut 0)?;
    Ok([
        known_word(&diagrams, &sum),
        known_word(&diagrams, &difference),
    ])
}

/// Their carry, their borrow, and whether they are equal.
fn comparisons(alloc: Global, x: u16, y: u16) -> Result<[Option<bool>; 3], Fail> {
    let mut diagrams = Diagrams::new(alloc, 64, 64)?;
    let yes = diagrams.leaf(true);
    let x = constant_word(&diagrams, x);
    let y = constant_word(&diagrams, y);
    let carry = carry_of(&mut diagrams, &x, &y, yes, &mut 0)?;
    let carry = known_bit(&diagrams, carry);
    let borrow = borrow_of(&mut diagrams, &x, &y, yes, &mut 0)?;
    let borrow = known_bit(&diagrams, borrow);
    let same = same_of(&mut diagrams, &x, &y, &mut 0)?;
    Ok([carry, borrow, known_bit(&diagrams, same)])
}

#[test]
fn constants_are_added_without_a_step(rt: HostRuntime) -> Result<(), Fail> {
    let alloc = rt.alloc();
    assert_eq!(rt;
        sum_and_difference(alloc, 0x0123, 0xFFFE)?,
        [Some(0x0122), Some(0x0124)]
    );
    assert_eq!(rt;
        comparisons(alloc, 0x0123, 0xFFFE)?,
        [Some(true), Some(true), Some(false)]
    );
    assert_eq!(rt;
        comparisons(alloc, 0x0123, 0x0123)?,
        [Some(false), Some(true), Some(true)]
    );
    Ok(())
}

/// Two words of four bits, at 5 and 11.
#[test]
fn variables_are_added_and_compared(rt: HostRuntime) -> Result<(), Fail> {
    let mut diagrams = Diagrams::new(rt.alloc(), 4096, 64)?;
    let x = variables(&mut diagrams, &[0, 2, 4, 6])?;
    let y = variables(&mut diagrams, &[1, 3, 5, 7])?;
    let values = [true, true, false, true, true, false, false, true];
    let sum = sum_of(&mut diagrams, &x, &y, x[0], &mut 10_000)?;
    assert_eq!(rt; number_at(&diagrams, &sum, &values), 17);
    assert_eq!(rt;
        same_of(&mut diagrams, &x, &sum, &mut 0),
        Err(Refused::Spent)
    );
    Ok(())
}
