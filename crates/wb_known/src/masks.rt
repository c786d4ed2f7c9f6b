ghost use Rattle.std.specs.Prelude.{◌≡◌, ◌*◌, ◌/◌, ◌^◌, ◌<◌, ◌≤◌, bit_and, true, [], ◌∷◌, IfSome};
ghost use Rattle.wb_term.specs.Numbers.{cut};
ghost use Rattle.wb_term.specs.Inputs.{Assignment, IsAssignment};
ghost use Rattle.wb_term.specs.Terms.{HasWord};
ghost use Rattle.wb_term.specs.Values.{word_value};
ghost use Rattle.wb_known.specs.Masks.{Keeps, Clears, AreApart};
ghost use Rattle.wb_known.specs.Stands.{StandsOn};

use wb_term::{Graph, WordId, WordNode};

/// A word shifted to the left, cut to 16 bits.
pub fn shifted_left(value: u16, m: u8) -> u16
    requires { m < 16 }
    ensures { result ≡ cut (value * 2 ^ m) }
{
    ((u32::from(value) << m) & 0xFFFF) as u16
}

/// How many levels of nodes are looked at to see which bits a word can have.
const LEVELS: u8 = 4;

/// The bits that a word can have, as far as a few levels of nodes tell it.
#[tactic(auto, using(crate::proofs::MaskLaws::at_most))]
pub fn possible_bits(graph: &Graph, x: WordId) -> u16
    requires x { HasWord graph.now x }
    ensures keeps { Keeps graph.now x result }
    ensures most { (inputs : Assignment) → IsAssignment inputs → word_value inputs graph.now x ≤ result }
{
    bits_of(graph, x, LEVELS)
}

fn bits_of(graph: &Graph, x: WordId, levels: u8) -> u16
    requires x { HasWord graph.now x }
    ensures { Keeps graph.now x result }
{
    match graph.word_at(x) {
        WordNode::Const(value) => value,
        WordNode::Byte(_) => 0x00FF,
        _ if levels == 0 => 0xFFFF,
        WordNode::And(a, b) => bits_of(graph, a, levels - 1) & bits_of(graph, b, levels - 1),
        WordNode::Or(a, b) => bits_of(graph, a, levels - 1) | bits_of(graph, b, levels - 1),
        WordNode::Xor(a, b) => bits_of(graph, a, levels - 1) | bits_of(graph, b, levels - 1),
        WordNode::Ite(_, a, b) => bits_of(graph, a, levels - 1) | bits_of(graph, b, levels - 1),
        WordNode::Shl(a, m) => shifted_left(bits_of(graph, a, levels - 1), m),
        WordNode::Shr(a, m) => bits_of(graph, a, levels - 1) >> m,
        _ => 0xFFFF,
    }
}

/// Whether a mask leaves a word as it is. It may be `false` of a mask that does.
pub fn is_kept(graph: &Graph, x: WordId, mask: u16) -> bool
    requires x { HasWord graph.now x }
    ensures { result ≡ true → Keeps graph.now x mask }
{
    let bits = possible_bits(graph, x);
    bits & mask == bits
}

/// Whether a mask leaves nothing of a word. It may be `false` of a mask that does.
pub fn is_cleared(graph: &Graph, x: WordId, mask: u16) -> bool
    requires x { HasWord graph.now x }
    ensures { result ≡ true → Clears graph.now x mask }
{
    possible_bits(graph, x) & mask == 0
}

/// Whether two words share no bit. It may be `false` of two that don't.
pub fn are_apart(graph: &Graph, x: WordId, y: WordId) -> bool
    requires x { HasWord graph.now x }
    requires y { HasWord graph.now y }
    ensures { result ≡ true → AreApart graph.now x y }
{
    possible_bits(graph, x) & possible_bits(graph, y) == 0
}

/// A word as what a mask leaves of another.
#[derive(Clone, Copy)]
pub struct Masked {
    pub word: WordId,
    pub mask: u16,
}

/// A word as what a mask leaves of another, or of itself.
#[tactic(auto, using(crate::proofs::MaskLaws::mask_views))]
pub fn mask_of(graph: &Graph, x: WordId) -> Masked
    requires x { HasWord graph.now x }
    ensures there { HasWord graph.now result.word }
    ensures value { (inputs : Assignment) → IsAssignment inputs →
        word_value inputs graph.now x ≡ bit_and (word_value inputs graph.now result.word) result.mask }
    ensures inputs { StandsOn graph.now (x.number ∷ []) (result.word.number ∷ []) }
{
    match graph.word_at(x) {
        WordNode::And(a, b) => match (graph.word_at(a), graph.word_at(b)) {
            (_, WordNode::Const(mask)) => Masked { word: a, mask },
            (WordNode::Const(mask), _) => Masked { word: b, mask },
            _ => whole(graph, x),
        },
        WordNode::Shl(a, m) => match mask_of_shl(graph, a, m) {
            Some(part) => part,
            None => whole(graph, x),
        },
        WordNode::Shr(a, m) => match mask_of_shr(graph, a, m) {
            Some(part) => part,
            None => whole(graph, x),
        },
        _ => whole(graph, x),
    }
}

/// A word shifted to the left as what a mask leaves of another, where it was shifted to the right before.
#[tactic(auto, using(crate::proofs::MaskLaws::mask_views))]
pub(crate) fn mask_of_shl(graph: &Graph, x: WordId, m: u8) -> Option<Masked>
    requires x { HasWord graph.now x }
    requires count { m < 16 }
    ensures there { IfSome result (λ part. HasWord graph.now part.word) }
    ensures value { IfSome result (λ part. (inputs : Assignment) → IsAssignment inputs →
        cut (word_value inputs graph.now x * 2 ^ m) ≡ bit_and (word_value inputs graph.now part.word) part.mask) }
    ensures inputs { IfSome result (λ part. StandsOn graph.now (x.number ∷ []) (part.word.number ∷ [])) }
{
    match graph.word_at(x) {
        WordNode::Shr(word, count) if count == m => Some(Masked {
            word,
            mask: shifted_left(0xFFFF, m),
        }),
        _ => None,
    }
}

/// A word shifted to the right as what a mask leaves of another, where it was shifted to the left before.
#[tactic(auto, using(crate::proofs::MaskLaws::mask_views))]
pub(crate) fn mask_of_shr(graph: &Graph, x: WordId, m: u8) -> Option<Masked>
    requires x { HasWord graph.now x }
    requires count { m < 16 }
    ensures there { IfSome result (λ part. HasWord graph.now part.word) }
    ensures value { IfSome result (λ part. (inputs : Assignment) → IsAssignment inputs →
        word_value inputs graph.now x / 2 ^ m ≡ bit_and (word_value inputs graph.now part.word) part.mask) }
    ensures inputs { IfSome result (λ part. StandsOn graph.now (x.number ∷ []) (part.word.number ∷ [])) }
{
    match graph.word_at(x) {
        WordNode::Shl(word, count) if count == m => Some(Masked {
            word,
            mask: 0xFFFF >> m,
        }),
        _ => None,
    }
}

fn whole(graph: &Graph, x: WordId) -> Masked
    requires x { HasWord graph.now x }
    ensures there { HasWord graph.now result.word }
    ensures value { (inputs : Assignment) → IsAssignment inputs →
        word_value inputs graph.now x ≡ bit_and (word_value inputs graph.now result.word) result.mask }
    ensures inputs { StandsOn graph.now (x.number ∷ []) (result.word.number ∷ []) }
{
    let _node = graph.word_at(x);
    Masked {
        word: x,
        mask: 0xFFFF,
    }
}

/// Whether a shift to the left leaves nothing of a word. It may be `false` of one that does.
#[tactic(auto, using(crate::proofs::MaskLaws::shift_laws))]
pub fn is_shifted_out_left(graph: &Graph, x: WordId, m: u8) -> bool
    requires x { HasWord graph.now x }
    requires count { m < 16 }
    ensures { result ≡ true → (inputs : Assignment) → IsAssignment inputs → cut (word_value inputs graph.now x * 2 ^ m) ≡ 0 }
{
    shifted_left(possible_bits(graph, x), m) == 0
}

/// Whether a shift to the right leaves nothing of a word. It may be `false` of one that does.
#[tactic(auto, using(crate::proofs::MaskLaws::shift_laws))]
pub fn is_shifted_out_right(graph: &Graph, x: WordId, m: u8) -> bool
    requires x { HasWord graph.now x }
    requires count { m < 16 }
    ensures { result ≡ true → (inputs : Assignment) → IsAssignment inputs → word_value inputs graph.now x / 2 ^ m ≡ 0 }
{
    possible_bits(graph, x) >> m == 0
}
