ghost use Rattle.std.specs.Prelude.{IfOk};
ghost use Rattle.wb_diagram.specs.Forest.{HasDiagram};

use std::alloc::Global;
use std::test::Fail;
use wb_diagram::{Diagram, Diagrams, OutOfMemory, Refused};

/// A function of three diagrams, by a number.
fn made(
    diagrams: &mut Diagrams,
    kind: u8,
    a: Diagram,
    b: Diagram,
    c: Diagram,
    steps: &mut u32,
) -> Result<Diagram, Refused>
    requires a { HasDiagram diagrams.old a }
    requires b { HasDiagram diagrams.old b }
    requires c { HasDiagram diagrams.old c }
    ensures { IfOk result (HasDiagram diagrams.new) }
{
    match kind {
        0 => diagrams.and(a, b, steps),
        1 => diagrams.or(a, b, steps),
        2 => diagrams.xor(a, b, steps),
        3 => diagrams.not(a, steps),
        _ => diagrams.ite(a, b, c, steps),
    }
}

fn turns_of(diagrams: &Diagrams, alloc: Global, d: Diagram) -> Result<usize, OutOfMemory>
    requires { HasDiagram diagrams.now d }
{
    match diagrams.path(alloc, d, false)? {
        Some(turns) => Ok(turns.len()),
        None => Ok(0),
    }
}

#[test]
fn functions_have_their_values(rt: HostRuntime) -> Result<(), Fail> {
    // The values under the numbers 0 to 7, whose lowest bit is the first variable, and how many nodes there are then.
    for (kind, table, nodes) in [
        (0, 0x88, 6),
        (1, 0xEE, 6),
        (2, 0x66, 7),
        (3, 0x55, 6),
        (4, 0xD8, 6),
    ] {
        let mut diagrams = Diagrams::new(rt.alloc(), 64, 4)?;
        let mut steps = 100;
        let a = diagrams.variable(0)?;
        let b = diagrams.variable(1)?;
        let c = diagrams.variable(2)?;
        let d = made(&mut diagrams, kind, a, b, c, &mut steps)?;
        assert_eq!(rt; diagrams.len(), nodes);
        for number in 0..8u32 {
            let values = [number & 1 == 1, number & 2 == 2, number & 4 == 4];
            assert_eq!(rt; diagrams.value_at(d, &values), table >> number & 1 == 1);
        }
    }
    Ok(())
}

#[test]
fn questions_make_no_node(rt: HostRuntime) -> Result<(), Fail> {
    let mut diagrams = Diagrams::new(rt.alloc(), 64, 4)?;
    let mut steps = 100;
    let a = diagrams.variable(0)?;
    let b = diagrams.variable(1)?;
    let both = diagrams.and(a, b, &mut steps)?;
    assert_eq!(rt; diagrams.implies(both, b, &mut steps), Ok(true));
    assert_eq!(rt; diagrams.implies(b, both, &mut steps), Ok(false));
    assert_eq!(rt; diagrams.disjoint(both, b, &mut steps), Ok(false));
    assert_eq!(rt; diagrams.len(), 5);
    assert_eq!(rt; diagrams.size(rt.alloc(), both, 9)?, 4);
    assert_eq!(rt; diagrams.size(rt.alloc(), both, 2)?, 2);
    assert_eq!(rt; turns_of(&diagrams, rt.alloc(), both)?, 2);
    Ok(())
}

#[test]
fn past_a_limit_the_old_values_stay(rt: HostRuntime) -> Result<(), Fail> {
    let mut diagrams = Diagrams::new(rt.alloc(), 4, 1)?;
    let mut steps = 2;
    let a = diagrams.variable(0)?;
    let b = diagrams.variable(1)?;
    assert_eq!(rt; diagrams.variable(2), Err(Refused::Full));
    assert_eq!(rt; diagrams.and(a, b, &mut steps), Err(Refused::Full));
    assert_eq!(rt; diagrams.and(a, a, &mut steps), Ok(a));
    assert_eq!(rt; diagrams.or(a, b, &mut steps), Err(Refused::Spent));
    assert_eq!(rt; diagrams.value_at(b, &[false, true]), true);
    Ok(())
}
