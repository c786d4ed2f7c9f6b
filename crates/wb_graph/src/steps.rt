//! Terms for tests, made step by step.
ghost use Rattle.std.specs.Prelude.{IfSome};
ghost use Rattle.wb_term.specs.Terms.{HasWord, HasBit, IsWordPlaced, IsBitPlaced};

use crate::{Graph, Order, Rooms};
use std::alloc::Global;
use std::process::Abort;
use wb_term::{BitId, BitNode, Inputs, Node, OutOfMemory, Scratch, Table, WordId, WordNode};
use wb_word::Rom;

/// A node, whose operands are named by the places of the steps that made them.
#[derive(Clone, Copy)]
pub enum Step {
    Const(u16),
    Byte(u8),
    Cell(u8),
    Not(usize),
    And(usize, usize),
    Or(usize, usize),
    Xor(usize, usize),
    Sum(usize, usize, usize),
    Diff(usize, usize, usize),
    Ite(usize, usize, usize),
    Shl(usize, u8),
    Shr(usize, u8),
    High(usize, usize),
    Low(usize, usize),
    Look(usize),
    Known(bool),
    Pick(usize, u8),
    NotB(usize),
    AndB(usize, usize),
    OrB(usize, usize),
    XorB(usize, usize),
    IteB(usize, usize, usize),
    Same(usize, usize),
    Carry(usize, usize, usize),
    Borrow(usize, usize, usize),
}

/// A node that was made.
#[derive(Clone, Copy, PartialEq, Eq, Debug)]
pub enum Id {
    Word(WordId),
    Bit(BitId),
}

/// The places of the nodes that each graph begins with.
pub const X: usize = 0;

pub const Y: usize = 1;

pub const ZERO: usize = 2;

pub const NO: usize = 3;

pub const YES: usize = 4;

/// What each graph begins with.
const BEGIN: [Step; 5] = [
    Step::Byte(0),
    Step::Byte(1),
    Step::Const(0),
    Step::Known(false),
    Step::Known(true),
];

/// A graph over a table that has the same sixteen words at 0 and at 32, and another at 48 than at 16.
pub fn graph_of(alloc: Global, rooms: Rooms) -> Result<Graph, OutOfMemory> {
    let mut table = Rom::zero(alloc)?;
    for at in 0..16usize {
        table.set(at, 3 * at as u32 + 1);
    }
    for at in 0..16usize {
        table.set(at + 32, 3 * at as u32 + 1);
    }
    table.set(48, 1);
    let order = Order {
        commands: [false; 16],
    };
    Graph::within(alloc, &table, &table, order, rooms)
}

/// The nodes that a graph begins with.
pub fn begin(rt: &impl Abort, alloc: Global, graph: &mut Graph) -> Result<Vec<Id>, OutOfMemory> {
    let mut made = Vec::new(alloc);
    for step in &BEGIN {
        let id = made_by(rt, graph, &made, *step)?;
        made.push(id)?;
    }
    Ok(made)
}

/// The nodes of all steps, after those that a graph begins with.
pub fn made_of(
    rt: &impl Abort,
    alloc: Global,
    graph: &mut Graph,
    steps: &[Step],
) -> Result<Vec<Id>, OutOfMemory> {
    let mut made = begin(rt, alloc, graph)?;
    for step in steps {
        let id = made_by(rt, graph, &made, *step)?;
        made.push(id)?;
    }
    Ok(made)
}

fn made_by(rt: &impl Abort, graph: &mut Graph, made: &[Id], step: Step) -> Result<Id, OutOfMemory> {
    assert!(rt; graph.terms().len() < 1 << 20);
    if let Some(node) = word_node(rt, graph, made, step) {
        return Ok(Id::Word(graph.word(node)?));
    }
    let node = bit_node(rt, graph, made, step);
    Ok(Id::Bit(graph.bit(node)?))
}

fn word_node(rt: &impl Abort, graph: &Graph, made: &[Id], step: Step) -> Option<WordNode>
    ensures { IfSome result (IsWordPlaced graph.now) }
{
    let word = |at| word_at(rt, graph, made, at);
    let bit = |at| bit_at(rt, graph, made, at);
    match step {
        Step::Const(value) => Some(WordNode::Const(value)),
        Step::Byte(place) => Some(WordNode::Byte(place & 15)),
        Step::Cell(place) => Some(WordNode::Cell(place)),
        Step::Not(x) => Some(WordNode::Not(word(x))),
        Step::And(x, y) => Some(WordNode::And(word(x), word(y))),
        Step::Or(x, y) => Some(WordNode::Or(word(x), word(y))),
        Step::Xor(x, y) => Some(WordNode::Xor(word(x), word(y))),
        Step::Sum(x, y, c) => Some(WordNode::Sum(word(x), word(y), bit(c))),
        Step::Diff(x, y, c) => Some(WordNode::Diff(word(x), word(y), bit(c))),
        Step::Ite(c, x, y) => Some(WordNode::Ite(bit(c), word(x), word(y))),
        Step::Shl(x, count) => Some(WordNode::Shl(word(x), count & 15)),
        Step::Shr(x, count) => Some(WordNode::Shr(word(x), count & 15)),
        Step::High(x, y) => Some(WordNode::High(word(x), word(y))),
        Step::Low(x, y) => Some(WordNode::Low(word(x), word(y))),
        Step::Look(x) => Some(WordNode::Look(Table::First, word(x))),
        _ => None,
    }
}

fn bit_node(rt: &impl Abort, graph: &Graph, made: &[Id], step: Step) -> BitNode
    ensures { IsBitPlaced graph.now result }
{
    let word = |at| word_at(rt, graph, made, at);
    let bit = |at| bit_at(rt, graph, made, at);
    match step {
        Step::Known(value) => BitNode::Known(value),
        Step::Pick(x, at) => BitNode::Pick(word(x), at & 15),
        Step::NotB(c) => BitNode::NotB(bit(c)),
        Step::AndB(c, d) => BitNode::AndB(bit(c), bit(d)),
        Step::OrB(c, d) => BitNode::OrB(bit(c), bit(d)),
        Step::XorB(c, d) => BitNode::XorB(bit(c), bit(d)),
        Step::IteB(b, c, d) => BitNode::IteB(bit(b), bit(c), bit(d)),
        Step::Same(x, y) => BitNode::Same(word(x), word(y)),
        Step::Carry(x, y, c) => BitNode::Carry(word(x), word(y), bit(c)),
        Step::Borrow(x, y, c) => BitNode::Borrow(word(x), word(y), bit(c)),
        _ => panic!(rt; "not the step of a bit"),
    }
}

fn word_at(rt: &impl Abort, graph: &Graph, made: &[Id], at: usize) -> WordId
    ensures { HasWord graph.now result }
{
    assert!(rt; at < made.len());
    let Id::Word(x) = made[at] else {
        panic!(rt; "not the place of a word");
    };
    assert!(rt; x.number() < graph.terms().len());
    match graph.terms().node_at(x.number()) {
        Node::Word(_) => x,
        Node::Bit(_) => panic!(rt; "not the number of a word"),
    }
}

fn bit_at(rt: &impl Abort, graph: &Graph, made: &[Id], at: usize) -> BitId
    ensures { HasBit graph.now result }
{
    assert!(rt; at < made.len());
    let Id::Bit(c) = made[at] else {
        panic!(rt; "not the place of a bit");
    };
    assert!(rt; c.number() < graph.terms().len());
    match graph.terms().node_at(c.number()) {
        Node::Bit(_) => c,
        Node::Word(_) => panic!(rt; "not the number of a bit"),
    }
}

/// The value of what was made at a place, a bit being 0 or 1, where X is C3, Y is 5A and the cell of place 4 is 1234.
pub fn value_of(
    rt: &impl Abort,
    alloc: Global,
    graph: &Graph,
    made: &[Id],
    at: usize,
) -> Result<u16, OutOfMemory> {
    let inputs = inputs_of(alloc)?;
    let terms = graph.terms();
    let mut scratch = Scratch::for_graph(alloc, terms)?;
    assert!(rt; at < made.len());
    if matches!(made[at], Id::Word(_)) {
        let id = word_at(rt, graph, made, at);
        let _node = terms.word_at(id);
        return Ok(terms.value_word(id, &inputs, &mut scratch));
    }
    let id = bit_at(rt, graph, made, at);
    let _node = terms.bit_at(id);
    Ok(u16::from(terms.value_bit(id, &inputs, &mut scratch)))
}

fn inputs_of(alloc: Global) -> Result<Inputs, OutOfMemory> {
    let mut bytes = [0; 16];
    bytes[0] = 0xC3;
    bytes[1] = 0x5A;
    let mut cells = [0; 256];
    cells[4] = 0x1234;
    Inputs::new(alloc, &bytes, &cells)
}
