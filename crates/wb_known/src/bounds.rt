ghost use Rattle.std.specs.Prelude.{◌≡◌, ◌+◌, ◌≤◌, ◌==◌, nat_lt, true, false};
ghost use Rattle.wb_term.specs.Numbers.{bit};
ghost use Rattle.wb_term.specs.Inputs.{Assignment, IsAssignment};
ghost use Rattle.wb_term.specs.Terms.{HasWord, HasBit};
ghost use Rattle.wb_term.specs.Values.{word_value, bit_value};

use crate::masks::possible_bits;
use wb_term::{BitId, BitNode, Graph, WordId, WordNode};

/// Whether a word can have a value. It may be `true` of one that it never has.
pub fn can_be(graph: &Graph, x: WordId, value: u16) -> bool
    requires x { HasWord graph.now x }
    ensures { result ≡ false → (inputs : Assignment) → IsAssignment inputs → (word_value inputs graph.now x == value) ≡ false }
{
    value & possible_bits(graph, x) == value
}

/// The least value that a word can have, as far as its node tells it.
fn least(graph: &Graph, x: WordId) -> u16
    requires x { HasWord graph.now x }
    ensures { (inputs : Assignment) → IsAssignment inputs → result ≤ word_value inputs graph.now x }
{
    match graph.word_at(x) {
        WordNode::Const(value) => value,
        _ => 0,
    }
}

/// The greatest number that a bit can stand for, as far as its node tells it.
fn most(graph: &Graph, c: BitId) -> u32
    requires c { HasBit graph.now c }
    ensures value { (inputs : Assignment) → IsAssignment inputs → bit (bit_value inputs graph.now c) ≤ result }
    ensures small { result ≤ 1 }
{
    match graph.bit_at(c) {
        BitNode::Known(false) => 0,
        _ => 1,
    }
}

/// Whether two words and a carry are at most 65535, as far as their bits tell it.
#[tactic(auto, using(crate::proofs::BoundLaws::bound_laws))]
pub fn never_carries(graph: &Graph, x: WordId, y: WordId, c: BitId) -> bool
    requires x { HasWord graph.now x }
    requires y { HasWord graph.now y }
    requires c { HasBit graph.now c }
    ensures { result ≡ true → (inputs : Assignment) → IsAssignment inputs →
        nat_lt 65535 (word_value inputs graph.now x + word_value inputs graph.now y + bit (bit_value inputs graph.now c)) ≡ false }
{
    let sum = u32::from(possible_bits(graph, x)) + u32::from(possible_bits(graph, y));
    sum + most(graph, c) <= 0xFFFF
}

/// Whether a word is at least another and a borrow, as far as their nodes tell it.
pub fn is_never_below(graph: &Graph, x: WordId, y: WordId, c: BitId) -> bool
    requires x { HasWord graph.now x }
    requires y { HasWord graph.now y }
    requires c { HasBit graph.now c }
    ensures { result ≡ true → (inputs : Assignment) → IsAssignment inputs →
        nat_lt (word_value inputs graph.now x) (word_value inputs graph.now y + bit (bit_value inputs graph.now c)) ≡ false }
{
    u32::from(possible_bits(graph, y)) + most(graph, c) <= u32::from(least(graph, x))
}

/// Whether a word is below another, as far as their nodes tell it.
pub fn is_always_below(graph: &Graph, x: WordId, y: WordId, c: BitId) -> bool
    requires x { HasWord graph.now x }
    requires y { HasWord graph.now y }
    ensures { result ≡ true → (inputs : Assignment) → IsAssignment inputs →
        nat_lt (word_value inputs graph.now x) (word_value inputs graph.now y + bit (bit_value inputs graph.now c)) ≡ true }
{
    possible_bits(graph, x) < least(graph, y)
}
