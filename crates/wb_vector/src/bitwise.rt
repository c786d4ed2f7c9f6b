//! Operations that work bit by bit on words, and the words of numbers and of variables.
ghost use Rattle.std.specs.Prelude.{◌≡◌, ◌+◌, ◌-◌, ◌<◌, ◌≤◌, ◌==◌, ℕ, Bool, not, IfOk, IfErr, length, slice_index};
ghost use Rattle.std.specs.Bool.{beq};
ghost use Rattle.wb_diagram.specs.Forest.{HasDiagram};
ghost use Rattle.wb_diagram.specs.Values.{value, IsFunction};
ghost use Rattle.wb_diagram.specs.Growth.{Grown, IsRefusal};
ghost use Rattle.wb_vector.specs.Vectors.{number, number_of, AreThere, IsNumber};
ghost use Rattle.wb_vector.specs.Operations.{on_bits, on_numbers, OperationThere};

use wb_diagram::{Diagram, Diagrams, Refused};

/// What the bits of a word are, the lowest first.
pub type Vector = [Diagram; 16];

/// What is done to each two bits.
#[derive(Clone, Copy, PartialEq, Eq, Debug)]
pub enum Operation {
    And,
    Or,
    Xor,
    /// The first where the diagram is true, else the second.
    Choose(Diagram),
}

fn combine(
    diagrams: &mut Diagrams,
    operation: Operation,
    x: Diagram,
    y: Diagram,
    steps: &mut u32,
) -> Result<Diagram, Refused>
    requires operation_there { OperationThere diagrams.old operation }
    requires x_there { HasDiagram diagrams.old x }
    requires y_there { HasDiagram diagrams.old y }
    ensures means { IfOk result (λ d. IsFunction diagrams.new d
        (λ v. on_bits v diagrams.old operation (value v diagrams.old x) (value v diagrams.old y))) }
    ensures grown { Grown diagrams.old diagrams.new }
    ensures refused { IfErr result (IsRefusal diagrams.new steps.new) }
{
    match operation {
        Operation::And => diagrams.and(x, y, steps),
        Operation::Or => diagrams.or(x, y, steps),
        Operation::Xor => diagrams.xor(x, y, steps),
        Operation::Choose(c) => diagrams.ite(c, x, y, steps),
    }
}

/// Two words combined bit by bit.
pub fn combine_words(
    diagrams: &mut Diagrams,
    operation: Operation,
    x: &Vector,
    y: &Vector,
    steps: &mut u32,
) -> Result<Vector, Refused>
    requires operation_there { OperationThere diagrams.old operation }
    requires x_there { AreThere diagrams.old x.now }
    requires y_there { AreThere diagrams.old y.now }
    ensures means { IfOk result (λ w. IsNumber diagrams.new w
        (λ v. on_numbers v diagrams.old operation (number v diagrams.old x.now) (number v diagrams.old y.now))) }
    ensures grown { Grown diagrams.old diagrams.new }
    ensures refused { IfErr result (IsRefusal diagrams.new steps.new) }
{
    let mut done = [diagrams.leaf(false); 16];
    for at in 0..16 {
        let combined = combine(diagrams, operation, x[at], y[at], steps)?;
        done[at] = combined;
    }
    Ok(done)
}

/// The word with each bit inverted.
pub fn inverted(diagrams: &mut Diagrams, x: &Vector, steps: &mut u32) -> Result<Vector, Refused>
    requires { AreThere diagrams.old x.now }
    ensures means { IfOk result (λ w. IsNumber diagrams.new w (λ v. 65535 - number v diagrams.old x.now)) }
    ensures grown { Grown diagrams.old diagrams.new }
    ensures refused { IfErr result (IsRefusal diagrams.new steps.new) }
{
    let mut done = [diagrams.leaf(false); 16];
    for at in 0..16 {
        let opposite = diagrams.not(x[at], steps)?;
        done[at] = opposite;
    }
    Ok(done)
}

/// The word of a number, each bit a constant.
pub fn constant_word(diagrams: &Diagrams, word: u16) -> Vector
    ensures { IsNumber diagrams.now result (λ v. word) }
{
    let mut done = [diagrams.leaf(false); 16];
    for at in 0..16 {
        done[at] = diagrams.leaf((word >> at) & 1 == 1);
    }
    done
}

/// The word of variables, the lowest bit first; the bits above them are false.
pub fn variables(diagrams: &mut Diagrams, names: &[u32]) -> Result<Vector, Refused>
    requires few { length names.now ≤ 16 }
    requires names { (k : ℕ) → slice_index names.now k < 4294967295 }
    ensures means { IfOk result (λ w. IsNumber diagrams.new w (λ v. number_of v names.now)) }
    ensures grown { Grown diagrams.old diagrams.new }
    ensures refused { IfErr result (λ cause. (steps : ℕ) → IsRefusal diagrams.new steps cause) }
{
    let mut done = [diagrams.leaf(false); 16];
    for at in 0..names.len() {
        let variable = diagrams.variable(names[at])?;
        done[at] = variable;
    }
    Ok(done)
}
