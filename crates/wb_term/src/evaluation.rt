ghost use Rattle.std.specs.Prelude.{◌≡◌, ◌<◌, ◌≤◌, ◌==◌, ℕ, length, slice_index};
ghost use Rattle.wb_term.specs.Nodes.{children, word_children, bit_children};
ghost use Rattle.wb_term.specs.Terms.{HasWord, HasBit, IsPlaced, IsWordPlaced, IsBitPlaced};
ghost use Rattle.wb_term.specs.Values.{AreWords, value, node_value, word_value, bit_value, word_node_value, bit_node_value};

use crate::arithmetic::{borrows, carries, difference, sum, twice_product};
use crate::graph::Graph;
use crate::inputs::Inputs;
use crate::nodes::{BitId, BitNode, Node, WordId, WordNode};
use crate::scratch::Scratch;

impl Graph {
    /// The value of a word node. It goes over all nodes below, once each.
    pub fn value_word(&self, id: WordId, inputs: &Inputs, scratch: &mut Scratch) -> u16
        requires there { HasWord self.now id }
        requires covered { id.number < length scratch.old }
        ensures value { result ≡ word_value inputs.now self.now id }
        ensures covers { length scratch.new ≡ length scratch.old }
    {
        let node = self.word_at(id);
        self.settle(id.number, inputs, scratch);
        self.evaluate_word(node, inputs, scratch)
    }

    /// The value of a bit node. It goes over all nodes below, once each.
    pub fn value_bit(&self, id: BitId, inputs: &Inputs, scratch: &mut Scratch) -> bool
        requires there { HasBit self.now id }
        requires covered { id.number < length scratch.old }
        ensures value { result ≡ bit_value inputs.now self.now id }
        ensures covers { length scratch.new ≡ length scratch.old }
    {
        let node = self.bit_at(id);
        self.settle(id.number, inputs, scratch);
        self.evaluate_bit(node, scratch)
    }

    /// Writes the values of the nodes below a number, in order.
    fn settle(&self, end: u32, inputs: &Inputs, scratch: &mut Scratch)
        requires there { end ≤ length self.now.nodes }
        requires covered { end ≤ length scratch.old }
        ensures words { (k : ℕ) → k < end → slice_index scratch.new k < 65536 }
        ensures values { (k : ℕ) → k < end → slice_index scratch.new k ≡ value inputs.now self.now k }
        ensures covers { length scratch.new ≡ length scratch.old }
    {
        for at in 0..end {
            let value = self.evaluate(self.node_at(at), inputs, scratch);
            scratch.set_slot(at, value);
        }
    }

    /// The value of a node whose children's values stand in their slots.
    fn evaluate(&self, node: Node, inputs: &Inputs, scratch: &Scratch) -> u32
        requires placed { IsPlaced self.now node }
        requires settled { AreWords scratch.now (children node) }
        ensures value { result ≡ node_value self.now.tables inputs.now (slice_index scratch.now) node }
        ensures word { result < 65536 }
    {
        match node {
            Node::Word(word) => u32::from(self.evaluate_word(word, inputs, scratch)),
            Node::Bit(bit) => u32::from(self.evaluate_bit(bit, scratch)),
        }
    }

    fn evaluate_word(&self, node: WordNode, inputs: &Inputs, scratch: &Scratch) -> u16
        requires placed { IsWordPlaced self.now node }
        requires settled { AreWords scratch.now (word_children node) }
        ensures { result ≡ word_node_value self.now.tables inputs.now
            (λ x. slice_index scratch.now x.number) (λ c. slice_index scratch.now c.number == 1) node }
    {
        match node {
            WordNode::Const(value) => value,
            WordNode::Byte(place) => u16::from(inputs.byte(place)),
            WordNode::Cell(place) => inputs.cell(place),
            WordNode::Not(x) => !word(scratch, x),
            WordNode::And(x, y) => word(scratch, x) & word(scratch, y),
            WordNode::Or(x, y) => word(scratch, x) | word(scratch, y),
            WordNode::Xor(x, y) => word(scratch, x) ^ word(scratch, y),
            WordNode::Sum(x, y, c) => sum(word(scratch, x), word(scratch, y), is_set(scratch, c)),
            WordNode::Diff(x, y, c) => difference(
                word(scratch, x),
                word(scratch, y),
                is_set(scratch, c),
            ),
            WordNode::Ite(c, x, y) => {
                if is_set(scratch, c) {
                    word(scratch, x)
                } else {
                    word(scratch, y)
                }
            }
            WordNode::Shl(x, count) => ((u32::from(word(scratch, x)) << count) & 0xFFFF) as u16,
            WordNode::Shr(x, count) => word(scratch, x) >> count,
            WordNode::High(x, y) => (twice_product(word(scratch, x), word(scratch, y))
                >> 16) as u16,
            WordNode::Low(x, y) => (twice_product(word(scratch, x), word(scratch, y))
                & 0xFFFF) as u16,
            WordNode::Look(table, x) => self.table_at(table, word(scratch, x) & 0x3FF),
        }
    }

    fn evaluate_bit(&self, node: BitNode, scratch: &Scratch) -> bool
        requires placed { IsBitPlaced self.now node }
        requires settled { AreWords scratch.now (bit_children node) }
        ensures { result ≡ bit_node_value
            (λ x. slice_index scratch.now x.number) (λ c. slice_index scratch.now c.number == 1) node }
    {
        match node {
            BitNode::Known(value) => value,
            BitNode::Pick(x, place) => (word(scratch, x) >> place) & 1 == 1,
            BitNode::NotB(c) => !is_set(scratch, c),
            BitNode::AndB(c, d) => is_set(scratch, c) && is_set(scratch, d),
            BitNode::OrB(c, d) => is_set(scratch, c) || is_set(scratch, d),
            BitNode::XorB(c, d) => is_set(scratch, c) != is_set(scratch, d),
            BitNode::IteB(c, d, e) => {
                if is_set(scratch, c) {
                    is_set(scratch, d)
                } else {
                    is_set(scratch, e)
                }
            }
            BitNode::Same(x, y) => word(scratch, x) == word(scratch, y),
            BitNode::Carry(x, y, c) => carries(
                word(scratch, x),
                word(scratch, y),
                is_set(scratch, c),
            ),
            BitNode::Borrow(x, y, c) => borrows(
                word(scratch, x),
                word(scratch, y),
                is_set(scratch, c),
            ),
        }
    }
}

fn word(scratch: &Scratch, id: WordId) -> u16
    requires covered { id.number < length scratch.now }
    requires fits { slice_index scratch.now id.number < 65536 }
    ensures { result ≡ slice_index scratch.now id.number }
{
    scratch.slot(id.number) as u16
}

fn is_set(scratch: &Scratch, id: BitId) -> bool
    requires { id.number < length scratch.now }
    ensures { result ≡ (slice_index scratch.now id.number == 1) }
{
    scratch.slot(id.number) == 1
}
