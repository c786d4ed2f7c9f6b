//! Look-ups: a word of a data table at a place whose bits are diagrams.
ghost use Rattle.std.specs.Prelude.{◌≡◌, ◌+◌, ◌-◌, ◌*◌, ◌%◌, ◌^◌, ◌≤◌, ◌<◌, ℕ, Bool, if◌then◌else◌, IfOk, IfErr, length, slice_index};
ghost use Rattle.wb_diagram.specs.Forest.{HasDiagram};
ghost use Rattle.wb_diagram.specs.Values.{value};
ghost use Rattle.wb_diagram.specs.Growth.{Grown, IsRefusal};
ghost use Rattle.wb_vector.specs.Vectors.{number, AreThere, IsNumber};

use crate::bitwise::{Operation, Vector, combine_words, constant_word};
use crate::known::known_bit;
use wb_diagram::{Diagram, Diagrams, Refused};

/// The word of a table at the number that the lowest ten bits of a word stand for.
pub fn look(
    diagrams: &mut Diagrams,
    words: &[u16],
    x: &Vector,
    steps: &mut u32,
) -> Result<Vector, Refused>
    requires words { length words.now ≡ 1024 }
    requires there { AreThere diagrams.old x.now }
    ensures means { IfOk result (λ w. IsNumber diagrams.new w (λ v. slice_index words.now (number v diagrams.old x.now % 1024))) }
    ensures grown { Grown diagrams.old diagrams.new }
    ensures refused { IfErr result (IsRefusal diagrams.new steps.new) }
{
    look_from(diagrams, words, x, 0, 10, steps)
}

/// The same by fewer bits, counted from a place on: a tree of choices, the highest bit at its root. Where a bit is
/// known, one side is left out.
fn look_from(
    diagrams: &mut Diagrams,
    words: &[u16],
    x: &Vector,
    first: usize,
    bits: usize,
    steps: &mut u32,
) -> Result<Vector, Refused>
    requires words { length words.now ≡ 1024 }
    requires few { bits ≤ 10 }
    requires within { first + 2 ^ bits ≤ 1024 }
    requires there { AreThere diagrams.old x.now }
    ensures means { IfOk result (λ w. IsNumber diagrams.new w
        (λ v. slice_index words.now (first + number v diagrams.old x.now % 2 ^ bits))) }
    ensures grown { Grown diagrams.old diagrams.new }
    ensures refused { IfErr result (IsRefusal diagrams.new steps.new) }
{
    if bits == 0 {
        return Ok(constant_word(diagrams, words[first]));
    }
    let rest = bits - 1;
    let middle = first + (1usize << rest);
    match known_bit(diagrams, x[rest]) {
        Some(true) => look_from(diagrams, words, x, middle, rest, steps),
        Some(false) => look_from(diagrams, words, x, first, rest, steps),
        None => {
            let high = look_from(diagrams, words, x, middle, rest, steps)?;
            let low = look_from(diagrams, words, x, first, rest, steps)?;
            choose_word(diagrams, x[rest], &high, &low, steps)
        }
    }
}

/// The first word where the diagram is true, else the second; where both are the same there is nothing to choose.
fn choose_word(
    diagrams: &mut Diagrams,
    condition: Diagram,
    yes: &Vector,
    no: &Vector,
    steps: &mut u32,
) -> Result<Vector, Refused>
    requires condition { HasDiagram diagrams.old condition }
    requires yes { AreThere diagrams.old yes.now }
    requires no { AreThere diagrams.old no.now }
    ensures means { IfOk result (λ w. IsNumber diagrams.new w
        (λ v. if value v diagrams.old condition then number v diagrams.old yes.now else number v diagrams.old no.now)) }
    ensures grown { Grown diagrams.old diagrams.new }
    ensures refused { IfErr result (IsRefusal diagrams.new steps.new) }
{
    if yes == no {
        return Ok(*yes);
    }
    combine_words(diagrams, Operation::Choose(condition), yes, no, steps)
}
