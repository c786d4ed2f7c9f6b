ghost use Rattle.std.specs.Prelude.{◌≡◌, ◌*◌, ◌/◌, ◌<◌, ◌^◌, true, bit_and, bit_or, [], ◌∷◌, IfSome};
ghost use Rattle.wb_term.specs.Numbers.{cut};
ghost use Rattle.wb_term.specs.Inputs.{Assignment, IsAssignment};
ghost use Rattle.wb_term.specs.Terms.{HasWord};
ghost use Rattle.wb_term.specs.Values.{IsWord, word_value};
ghost use Rattle.wb_known.specs.Masks.{AreApart};
ghost use Rattle.wb_known.specs.Stands.{StandsOn};

use crate::masks::{is_kept, mask_of_shl, mask_of_shr};
use wb_term::{Graph, WordId, WordNode};

/// Whether each bit of a word is one of another's, as far as their nodes tell it.
#[tactic(auto, using(crate::proofs::PartLaws::part_laws))]
pub fn is_part(graph: &Graph, x: WordId, y: WordId) -> bool
    requires x { HasWord graph.now x }
    requires y { HasWord graph.now y }
    ensures { result ≡ true → (inputs : Assignment) → IsAssignment inputs →
        bit_and (word_value inputs graph.now x) (word_value inputs graph.now y) ≡ word_value inputs graph.now x }
{
    match (graph.word_at(x), graph.word_at(y)) {
        _ if x == y => true,
        (WordNode::And(a, b), _) if a == y || b == y => true,
        (_, WordNode::Or(a, b)) => a == x || b == x,
        _ => false,
    }
}

/// Whether one word is the other with each bit turned over, as their nodes tell it.
#[tactic(auto, using(crate::proofs::PartLaws::opposite_laws))]
pub fn are_opposite(graph: &Graph, x: WordId, y: WordId) -> bool
    requires x { HasWord graph.now x }
    requires y { HasWord graph.now y }
    ensures apart { result ≡ true → AreApart graph.now x y }
    ensures all { result ≡ true → (inputs : Assignment) → IsAssignment inputs →
        bit_or (word_value inputs graph.now x) (word_value inputs graph.now y) ≡ 65535 }
{
    match (graph.word_at(x), graph.word_at(y)) {
        (WordNode::Not(inner), _) if inner == y => true,
        (_, WordNode::Not(inner)) => inner == x,
        _ => false,
    }
}

/// What a mask leaves of a word, where a node stands for it. It takes no memory.
#[tactic(auto, using(crate::proofs::PartLaws::and_comm))]
pub fn standing_part(graph: &Graph, x: WordId, mask: u16) -> Option<WordId>
    requires x { HasWord graph.now x }
    ensures value { IfSome result (λ id. IsWord graph.now id (λ inputs. bit_and (word_value inputs graph.now x) mask)) }
    ensures inputs { IfSome result (λ id. StandsOn graph.now (x.number ∷ []) (id.number ∷ [])) }
{
    if is_kept(graph, x, mask) {
        return Some(x);
    }
    match graph.find_word(WordNode::Const(mask)) {
        Some(y) if y.number() < x.number() => graph.find_word(WordNode::And(y, x)),
        Some(y) => graph.find_word(WordNode::And(x, y)),
        None => None,
    }
}

/// A word shifted to the left, where a node stands for it: that of a mask on one that was shifted to the right before.
pub fn standing_shl(graph: &Graph, x: WordId, m: u8) -> Option<WordId>
    requires x { HasWord graph.now x }
    requires count { m < 16 }
    ensures value { IfSome result (λ id. IsWord graph.now id (λ inputs. cut (word_value inputs graph.now x * 2 ^ m))) }
    ensures inputs { IfSome result (λ id. StandsOn graph.now (x.number ∷ []) (id.number ∷ [])) }
{
    match mask_of_shl(graph, x, m) {
        Some(part) => standing_part(graph, part.word, part.mask),
        None => None,
    }
}

/// A word shifted to the right, where a node stands for it: that of a mask on one that was shifted to the left before.
pub fn standing_shr(graph: &Graph, x: WordId, m: u8) -> Option<WordId>
    requires x { HasWord graph.now x }
    requires count { m < 16 }
    ensures value { IfSome result (λ id. IsWord graph.now id (λ inputs. word_value inputs graph.now x / 2 ^ m)) }
    ensures inputs { IfSome result (λ id. StandsOn graph.now (x.number ∷ []) (id.number ∷ [])) }
{
    match mask_of_shr(graph, x, m) {
        Some(part) => standing_part(graph, part.word, part.mask),
        None => None,
    }
}
