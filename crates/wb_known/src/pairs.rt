ghost use Rattle.std.specs.Prelude.{◌≡◌, ◌+◌, ◌==◌, [], ◌∷◌, IfSome};
ghost use Rattle.wb_term.specs.Numbers.{cut, less};
ghost use Rattle.wb_term.specs.Inputs.{Assignment, IsAssignment};
ghost use Rattle.wb_term.specs.Terms.{HasWord};
ghost use Rattle.wb_term.specs.Values.{word_value};
ghost use Rattle.wb_known.specs.Stands.{StandsOn};

use wb_term::{BitNode, Graph, WordId, WordNode};

/// Two words.
#[derive(Clone, Copy)]
pub struct Pair {
    pub x: WordId,
    pub y: WordId,
}

/// Two words that are equal exactly where two others are: for a difference and 0 what it is a difference of.
pub fn compared(graph: &Graph, x: WordId, y: WordId) -> Pair
    requires x { HasWord graph.now x }
    requires y { HasWord graph.now y }
    ensures x { HasWord graph.now result.x }
    ensures y { HasWord graph.now result.y }
    ensures value { (inputs : Assignment) → IsAssignment inputs →
        (word_value inputs graph.now result.x == word_value inputs graph.now result.y) ≡ (word_value inputs graph.now x == word_value inputs graph.now y) }
    ensures inputs { StandsOn graph.now (x.number ∷ y.number ∷ []) (result.x.number ∷ result.y.number ∷ []) }
{
    match graph.word_at(y) {
        WordNode::Const(0) => operands(graph, x, y),
        _ => Pair { x, y },
    }
}

/// What a word is a difference of, or the word and the zero that it is compared with.
#[tactic(auto, using(crate::proofs::BoundLaws::difference_laws))]
fn operands(graph: &Graph, x: WordId, y: WordId) -> Pair
    requires x { HasWord graph.now x }
    requires y { HasWord graph.now y }
    requires zero { (inputs : Assignment) → IsAssignment inputs → word_value inputs graph.now y ≡ 0 }
    ensures x { HasWord graph.now result.x }
    ensures y { HasWord graph.now result.y }
    ensures value { (inputs : Assignment) → IsAssignment inputs →
        (word_value inputs graph.now result.x == word_value inputs graph.now result.y) ≡ (word_value inputs graph.now x == word_value inputs graph.now y) }
    ensures inputs { StandsOn graph.now (x.number ∷ y.number ∷ []) (result.x.number ∷ result.y.number ∷ []) }
{
    match graph.word_at(x) {
        WordNode::Xor(a, b) => Pair { x: a, y: b },
        WordNode::Diff(a, b, borrow) => match graph.bit_at(borrow) {
            BitNode::Known(false) => Pair { x: a, y: b },
            _ => Pair { x, y },
        },
        _ => Pair { x, y },
    }
}

/// Two words whose sum is that of the bits that one of them has and those that they share, or of those in which
/// they differ and twice those that they share.
#[tactic(auto, using(crate::proofs::PartLaws::rebuilt_laws))]
pub fn rebuilt(graph: &Graph, x: WordId, y: WordId) -> Option<Pair>
    requires x { HasWord graph.now x }
    requires y { HasWord graph.now y }
    ensures x { IfSome result (λ pair. HasWord graph.now pair.x) }
    ensures y { IfSome result (λ pair. HasWord graph.now pair.y) }
    ensures value { IfSome result (λ pair. (inputs : Assignment) → IsAssignment inputs →
        cut (word_value inputs graph.now pair.x + word_value inputs graph.now pair.y)
        ≡ cut (word_value inputs graph.now x + word_value inputs graph.now y)) }
    ensures inputs { IfSome result (λ pair. StandsOn graph.now (x.number ∷ y.number ∷ []) (pair.x.number ∷ pair.y.number ∷ [])) }
{
    match graph.word_at(x) {
        WordNode::Or(a, b) => match graph.word_at(y) {
            WordNode::And(d, e) if a == d && b == e => Some(Pair { x: a, y: b }),
            _ => None,
        },
        WordNode::Xor(a, b) => match graph.word_at(y) {
            WordNode::Shl(both, 1) => match graph.word_at(both) {
                WordNode::And(d, e) if a == d && b == e => Some(Pair { x: a, y: b }),
                _ => None,
            },
            _ => None,
        },
        _ => None,
    }
}

/// The word that a word negates: `0 - w`, or `1 - w - 1`.
pub fn negated(graph: &Graph, x: WordId) -> Option<WordId>
    requires x { HasWord graph.now x }
    ensures there { IfSome result (λ w. HasWord graph.now w) }
    ensures value { IfSome result (λ w. (inputs : Assignment) → IsAssignment inputs →
        word_value inputs graph.now x ≡ less 0 (word_value inputs graph.now w)) }
    ensures inputs { IfSome result (λ w. StandsOn graph.now (x.number ∷ []) (w.number ∷ [])) }
{
    match graph.word_at(x) {
        WordNode::Diff(a, inner, borrow) => match (graph.word_at(a), graph.bit_at(borrow)) {
            (WordNode::Const(0), BitNode::Known(false)) => Some(inner),
            (WordNode::Const(1), BitNode::Known(true)) => Some(inner),
            _ => None,
        },
        _ => None,
    }
}
