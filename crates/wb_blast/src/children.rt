//! The children of a node, and its weight.
ghost use Rattle.std.specs.Prelude.{◌≡◌, ◌≤◌, [], ◌∷◌};
ghost use Rattle.wb_term.specs.Nodes.{children, word_children, bit_children, weight, word_weight, bit_weight};

use arrayvec::ArrayVec;
use wb_term::{BitNode, Node, WordNode};

/// The numbers of the nodes that a node stands on.
pub type Children = ArrayVec<u32, 3>;

fn none() -> Children
    ensures { result.items ≡ [] }
{
    ArrayVec::new()
}

fn one(x: u32) -> Children
    ensures { result.items ≡ x ∷ [] }
{
    let mut numbers = ArrayVec::new();
    numbers.push(x);
    numbers
}

fn two(x: u32, y: u32) -> Children
    ensures { result.items ≡ x ∷ y ∷ [] }
{
    let mut numbers = ArrayVec::new();
    numbers.push(x);
    numbers.push(y);
    numbers
}

fn three(x: u32, y: u32, z: u32) -> Children
    ensures { result.items ≡ x ∷ y ∷ z ∷ [] }
{
    let mut numbers = ArrayVec::new();
    numbers.push(x);
    numbers.push(y);
    numbers.push(z);
    numbers
}

/// The children of a node, in the order in which the node names them.
pub fn children_of(node: Node) -> Children
    ensures { result.items ≡ children node }
{
    match node {
        Node::Word(word) => children_of_word(word),
        Node::Bit(bit) => children_of_bit(bit),
    }
}

fn children_of_word(node: WordNode) -> Children
    ensures { result.items ≡ word_children node }
{
    match node {
        WordNode::Const(_) | WordNode::Byte(_) | WordNode::Cell(_) => none(),
        WordNode::Not(x) | WordNode::Shl(x, _) | WordNode::Shr(x, _) | WordNode::Look(_, x) => {
            one(x.number())
        }
        WordNode::And(x, y)
        | WordNode::Or(x, y)
        | WordNode::Xor(x, y)
        | WordNode::High(x, y)
        | WordNode::Low(x, y) => two(x.number(), y.number()),
        WordNode::Sum(x, y, c) | WordNode::Diff(x, y, c) => {
            three(x.number(), y.number(), c.number())
        }
        WordNode::Ite(c, x, y) => three(c.number(), x.number(), y.number()),
    }
}

fn children_of_bit(node: BitNode) -> Children
    ensures { result.items ≡ bit_children node }
{
    match node {
        BitNode::Known(_) => none(),
        BitNode::Pick(x, _) => one(x.number()),
        BitNode::NotB(c) => one(c.number()),
        BitNode::AndB(c, d) | BitNode::OrB(c, d) | BitNode::XorB(c, d) => two(
            c.number(),
            d.number(),
        ),
        BitNode::IteB(c, d, e) => three(c.number(), d.number(), e.number()),
        BitNode::Same(x, y) => two(x.number(), y.number()),
        BitNode::Carry(x, y, c) | BitNode::Borrow(x, y, c) => {
            three(x.number(), y.number(), c.number())
        }
    }
}

/// How many gates stand for a node.
pub fn weight_of(node: Node) -> u64
    ensures value { result ≡ weight node }
    ensures few { result ≤ 32768 }
{
    match node {
        Node::Word(word) => weight_of_word(word),
        Node::Bit(bit) => weight_of_bit(bit),
    }
}

fn weight_of_word(node: WordNode) -> u64
    ensures value { result ≡ word_weight node }
    ensures few { result ≤ 32768 }
{
    match node {
        WordNode::And(..) | WordNode::Or(..) | WordNode::Xor(..) | WordNode::Ite(..) => 16,
        WordNode::Sum(..) | WordNode::Diff(..) => 48,
        WordNode::High(..) | WordNode::Low(..) => 4096,
        WordNode::Look(..) => 32768,
        WordNode::Const(_)
        | WordNode::Byte(_)
        | WordNode::Cell(_)
        | WordNode::Not(_)
        | WordNode::Shl(..)
        | WordNode::Shr(..) => 0,
    }
}

fn weight_of_bit(node: BitNode) -> u64
    ensures value { result ≡ bit_weight node }
    ensures few { result ≤ 32768 }
{
    match node {
        BitNode::AndB(..) | BitNode::OrB(..) | BitNode::XorB(..) | BitNode::IteB(..) => 1,
        BitNode::Same(..) | BitNode::Carry(..) | BitNode::Borrow(..) => 32,
        BitNode::Known(_) | BitNode::Pick(..) | BitNode::NotB(_) => 0,
    }
}
