ghost use Rattle.std.specs.Prelude.{◌≡◌, not, ◌&&◌, true, [], ◌∷◌, IfSome};
ghost use Rattle.wb_term.specs.Inputs.{Assignment, IsAssignment};
ghost use Rattle.wb_term.specs.Terms.{HasBit};
ghost use Rattle.wb_term.specs.Values.{IsBit, bit_value};
ghost use Rattle.wb_known.specs.Stands.{StandsOn};

use wb_term::{BitId, BitNode, Graph};

/// The other bit, where it stands.
pub fn opposite(graph: &Graph, c: BitId) -> Option<BitId>
    requires c { HasBit graph.now c }
    ensures value { IfSome result (λ d. IsBit graph.now d (λ inputs. not (bit_value inputs graph.now c))) }
    ensures inputs { IfSome result (λ d. StandsOn graph.now (c.number ∷ []) (d.number ∷ [])) }
{
    match graph.bit_at(c) {
        BitNode::Known(value) => graph.find_bit(BitNode::Known(!value)),
        BitNode::NotB(inner) => Some(inner),
        _ => graph.find_bit(BitNode::NotB(c)),
    }
}

/// Whether a bit is set wherever another is not clear, as their nodes tell it.
pub fn implies(graph: &Graph, c: BitId, d: BitId) -> bool
    requires c { HasBit graph.now c }
    requires d { HasBit graph.now d }
    ensures { result ≡ true → (inputs : Assignment) → IsAssignment inputs →
        (bit_value inputs graph.now c && bit_value inputs graph.now d) ≡ bit_value inputs graph.now c }
{
    match (graph.bit_at(c), graph.bit_at(d)) {
        _ if c == d => true,
        (BitNode::Known(false), _) | (_, BitNode::Known(true)) => true,
        (BitNode::AndB(a, b), _) if a == d || b == d => true,
        (_, BitNode::OrB(a, b)) => a == c || b == c,
        _ => false,
    }
}

/// Whether one bit is the other turned over, as their nodes tell it.
pub fn are_opposite_bits(graph: &Graph, c: BitId, d: BitId) -> bool
    requires c { HasBit graph.now c }
    requires d { HasBit graph.now d }
    ensures { result ≡ true → (inputs : Assignment) → IsAssignment inputs →
        bit_value inputs graph.now c ≡ not (bit_value inputs graph.now d) }
{
    match (graph.bit_at(c), graph.bit_at(d)) {
        (BitNode::NotB(inner), _) if inner == d => true,
        (_, BitNode::NotB(inner)) => inner == c,
        _ => false,
    }
}
