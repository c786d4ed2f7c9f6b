//! Equality of words.
ghost use Rattle.std.specs.Prelude.{◌==◌, ◌&&◌, IfOk, IfErr};
ghost use Rattle.std.specs.Bool.{beq};
ghost use Rattle.wb_diagram.specs.Forest.{HasDiagram};
ghost use Rattle.wb_diagram.specs.Values.{value, IsFunction};
ghost use Rattle.wb_diagram.specs.Growth.{Grown, IsRefusal};
ghost use Rattle.wb_vector.specs.Vectors.{number, AreThere};

use crate::bitwise::Vector;
use wb_diagram::{Diagram, Diagrams, Refused};

/// Whether two bits agree where a diagram is true.
///
/// It takes no step of its own where that diagram is the constant false.
#[tactic(auto, using(crate::proofs::Words::grown_more))]
fn agree_within(
    diagrams: &mut Diagrams,
    within: Diagram,
    x: Diagram,
    y: Diagram,
    steps: &mut u32,
) -> Result<Diagram, Refused>
    requires within_there { HasDiagram diagrams.old within }
    requires x_there { HasDiagram diagrams.old x }
    requires y_there { HasDiagram diagrams.old y }
    ensures means { IfOk result (λ d. IsFunction diagrams.new d
        (λ v. beq (value v diagrams.old x) (value v diagrams.old y) && value v diagrams.old within)) }
    ensures grown { Grown diagrams.old diagrams.new }
    ensures refused { IfErr result (IsRefusal diagrams.new steps.new) }
{
    let never = diagrams.leaf(false);
    let set = diagrams.ite(y, within, never, steps)?;
    let clear = diagrams.ite(y, never, within, steps)?;
    diagrams.ite(x, set, clear, steps)
}

/// Whether two words are equal.
pub fn same_of(
    diagrams: &mut Diagrams,
    x: &Vector,
    y: &Vector,
    steps: &mut u32,
) -> Result<Diagram, Refused>
    requires x_there { AreThere diagrams.old x.now }
    requires y_there { AreThere diagrams.old y.now }
    ensures means { IfOk result (λ d. IsFunction diagrams.new d (λ v. number v diagrams.old x.now == number v diagrams.old y.now)) }
    ensures grown { Grown diagrams.old diagrams.new }
    ensures refused { IfErr result (IsRefusal diagrams.new steps.new) }
{
    let mut same = diagrams.leaf(true);
    for at in 0..16 {
        let so_far = agree_within(diagrams, same, x[at], y[at], steps)?;
        same = so_far;
    }
    Ok(same)
}
