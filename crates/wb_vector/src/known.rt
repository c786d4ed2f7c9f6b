//! What is known of a bit or a word: its value under all assignments, or under those where a condition is true.
ghost use Rattle.std.specs.Prelude.{◌≡◌, ◌+◌, ◌*◌, ◌^◌, ◌<◌, ℕ, Bool, true, IfSome, IfNone};
ghost use Rattle.wb_diagram.specs.Forest.{HasDiagram, level};
ghost use Rattle.wb_diagram.specs.Values.{value};
ghost use Rattle.wb_vector.specs.Vectors.{bit, number, diagram_at, AreThere};

use crate::bitwise::Vector;
use wb_diagram::{Diagram, Diagrams, Node};

/// The value of a bit that is constant.
pub fn known_bit(diagrams: &Diagrams, d: Diagram) -> Option<bool>
    requires { HasDiagram diagrams.now d }
    ensures some { IfSome result (λ b. (v : ℕ → Bool) → value v diagrams.now d ≡ b) }
    ensures none { IfNone result (level diagrams.now d < 4294967295) }
{
    match diagrams.node_at(d) {
        Node::Leaf(constant) => Some(constant),
        Node::Split { .. } => None,
    }
}

/// The number of a word whose bits are constant.
pub fn known_word(diagrams: &Diagrams, x: &Vector) -> Option<u16>
    requires { AreThere diagrams.now x.now }
    ensures some { IfSome result (λ w. (v : ℕ → Bool) → number v diagrams.now x.now ≡ w) }
    ensures none { IfNone result ((k : ℕ) × (level diagrams.now (diagram_at x.now k) < 4294967295)) }
{
    let mut word = 0;
    for at in 0..16 {
        let bit = known_bit(diagrams, x[at])?;
        word = with_bit(word, at, bit);
    }
    Some(word)
}

/// The value that a bit has wherever the condition is true.
pub fn bit_where(
    diagrams: &mut Diagrams,
    condition: Diagram,
    d: Diagram,
    steps: &mut u32,
) -> Option<bool>
    requires condition { HasDiagram diagrams.old condition }
    requires there { HasDiagram diagrams.old d }
    ensures some { IfSome result (λ b. (v : ℕ → Bool) → value v diagrams.old condition ≡ true → value v diagrams.old d ≡ b) }
    ensures same { diagrams.new ≡ diagrams.old }
{
    if diagrams.implies(condition, d, steps).ok()? {
        return Some(true);
    }
    if diagrams.disjoint(condition, d, steps).ok()? {
        return Some(false);
    }
    None
}

/// The number that a word has wherever the condition is true. It stops at the first bit that it can't tell.
pub fn word_where(
    diagrams: &mut Diagrams,
    condition: Diagram,
    x: &Vector,
    steps: &mut u32,
) -> Option<u16>
    requires condition { HasDiagram diagrams.old condition }
    requires there { AreThere diagrams.old x.now }
    ensures some { IfSome result (λ w. (v : ℕ → Bool) → value v diagrams.old condition ≡ true → number v diagrams.old x.now ≡ w) }
    ensures same { diagrams.new ≡ diagrams.old }
{
    let mut word = 0;
    for at in 0..16 {
        let bit = bit_where(diagrams, condition, x[at], steps)?;
        word = with_bit(word, at, bit);
    }
    Some(word)
}

/// The number with one bit more at its top.
fn with_bit(word: u16, at: usize, set: bool) -> u16
    requires at_in { at < 16 }
    requires small { word < 2 ^ at }
    ensures value { result ≡ word + bit set * 2 ^ at }
    ensures small { result < 2 ^ (at + 1) }
{
    if set { word + (1 << at) } else { word }
}
