//! Small graphs, and a node of each kind.
ghost use Rattle.std.specs.Prelude.{◌≡◌, ◌≤◌, [], IfOk, length};
ghost use Rattle.wb_term.specs.Terms.{Terms, HasWord, HasBit, IsWordPlaced, IsBitPlaced};

use std::alloc::Global;
use wb_term::{BitId, BitNode, Graph, Table, WordId, WordNode};
use wb_word::{OutOfMemory, Rom};

/// A graph without nodes, whose first table has 1234 at place 2.
pub fn empty_graph(alloc: Global) -> Result<Graph, OutOfMemory>
    ensures { IfOk result (λ graph. graph.nodes ≡ []) }
{
    let mut a = Rom::zero(alloc)?;
    a.set(2, 0x1234);
    let b = Rom::zero(alloc)?;
    Graph::new(alloc, &a, &b)
}

/// A graph with two words and a bit of the inputs.
pub fn three_nodes(alloc: Global) -> Result<(Graph, WordId, WordId, BitId), OutOfMemory>
    ensures first { IfOk result (λ made. HasWord made.0 made.1) }
    ensures second { IfOk result (λ made. HasWord made.0 made.2) }
    ensures bit { IfOk result (λ made. HasBit made.0 made.3) }
    ensures few { IfOk result (λ made. length made.0.nodes ≤ 4) }
{
    let mut graph = empty_graph(alloc)?;
    let byte = graph.word(WordNode::Byte(15))?;
    let bit = graph.bit(BitNode::Pick(byte, 7))?;
    let first = graph.word(WordNode::Cell(255))?;
    let second = graph.word(WordNode::Cell(7))?;
    Ok((graph, first, second, bit))
}

/// A word node of each kind that has children.
pub fn word_node(kind: u8, x: WordId, y: WordId, c: BitId) -> WordNode
    ensures { (g : Terms) → HasWord g x → HasWord g y → HasBit g c → IsWordPlaced g result }
{
    match kind {
        0 => WordNode::Not(x),
        1 => WordNode::And(x, y),
        2 => WordNode::Or(x, y),
        3 => WordNode::Xor(x, y),
        4 => WordNode::Sum(x, y, c),
        5 => WordNode::Diff(x, y, c),
        6 => WordNode::Ite(c, x, y),
        7 => WordNode::Shl(x, 15),
        8 => WordNode::Shr(x, 7),
        9 => WordNode::High(x, y),
        10 => WordNode::Low(x, y),
        _ => WordNode::Look(Table::First, y),
    }
}

/// A bit node of each kind that has children.
pub fn bit_node(kind: u8, x: WordId, y: WordId, c: BitId, d: BitId) -> BitNode
    ensures { (g : Terms) → HasWord g x → HasWord g y → HasBit g c → HasBit g d → IsBitPlaced g result }
{
    match kind {
        0 => BitNode::Pick(x, 15),
        1 => BitNode::NotB(d),
        2 => BitNode::AndB(c, d),
        3 => BitNode::OrB(c, d),
        4 => BitNode::XorB(c, d),
        5 => BitNode::IteB(d, d, c),
        6 => BitNode::Same(x, x),
        7 => BitNode::Carry(x, y, c),
        8 => BitNode::Borrow(x, y, c),
        _ => BitNode::Known(true),
    }
}
