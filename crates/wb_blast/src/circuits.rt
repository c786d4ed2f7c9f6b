//! The circuit of one node, over the rows of its children.
ghost use Rattle.std.specs.Prelude.{◌≡◌, ◌+◌, ◌≤◌, IfOk, length};
ghost use Rattle.wb_gate.specs.Growth.{Extends};
ghost use Rattle.wb_term.specs.Nodes.{word_weight, bit_weight};
ghost use Rattle.wb_term.specs.Terms.{IsWordPlaced, IsBitPlaced};
ghost use Rattle.wb_term.specs.Values.{word_value, bit_value, word_node_value, bit_node_value};
ghost use Rattle.wb_blast.specs.Meeting.{StandsAt, word_places};
ghost use Rattle.wb_blast.specs.Rows.{IsWordOf, IsBitOf, HasWordParts, HasBitParts};

use crate::bitwise::{Operation, combine_words, constant, constant_word, inverted};
use crate::inputs::input_word;
use crate::lookups::look;
use crate::products::{high_product, low_product};
use crate::rows::Rows;
use crate::shifts::{shifted_left, shifted_right};
use crate::words::{Word, add_words, borrow_of, carry_of, same_words, subtract_words};
use wb_equal::{Entry, Sharing, and, mux, negation, or, xor};
use wb_term::{BitNode, Graph, WordNode};
use wb_word::OutOfMemory;

/// The entries of a word node. The variables of an input node stand from the first on.
pub fn word_circuit(
    formula: &mut Sharing,
    graph: &Graph,
    rows: &Rows,
    first: u32,
    node: WordNode,
) -> Result<Word, OutOfMemory>
    requires placed { IsWordPlaced graph.now node }
    requires parts { HasWordParts graph.now formula.old rows.now node }
    requires stands { StandsAt rows.now.places.items first (word_places node) }
    requires inputs { formula.old.inputs ≡ length rows.now.places.items }
    requires few { length rows.now.places.items ≤ 8192 }
    requires room { length formula.old.gates + word_weight node ≤ formula.old.limit }
    ensures means { IfOk result (λ w. IsWordOf formula.new rows.now.places.items w
        (λ i. word_node_value graph.now.tables i (word_value i graph.now) (bit_value i graph.now) node)) }
    ensures extends { IfOk result (λ _. Extends formula.old formula.new (word_weight node)) }
{
    match node {
        WordNode::Const(word) => Ok(constant_word(word)),
        WordNode::Byte(_) => Ok(input_word(first, 8)),
        WordNode::Cell(_) => Ok(input_word(first, 16)),
        WordNode::Not(x) => Ok(inverted(&rows.word(x))),
        WordNode::And(x, y) => {
            combine_words(formula, Operation::And, &rows.word(x), &rows.word(y))
        }
        WordNode::Or(x, y) => combine_words(formula, Operation::Or, &rows.word(x), &rows.word(y)),
        WordNode::Xor(x, y) => {
            combine_words(formula, Operation::Xor, &rows.word(x), &rows.word(y))
        }
        WordNode::Ite(c, x, y) => {
            let choice = Operation::Choose(rows.bit(c));
            combine_words(formula, choice, &rows.word(x), &rows.word(y))
        }
        WordNode::Sum(x, y, c) => {
            let (sum, _) = add_words(formula, &rows.word(x), &rows.word(y), rows.bit(c))?;
            Ok(sum)
        }
        WordNode::Diff(x, y, c) => {
            subtract_words(formula, &rows.word(x), &rows.word(y), rows.bit(c))
        }
        WordNode::Shl(x, count) => Ok(shifted_left(&rows.word(x), usize::from(count))),
        WordNode::Shr(x, count) => Ok(shifted_right(&rows.word(x), usize::from(count))),
        WordNode::High(x, y) => high_product(formula, &rows.word(x), &rows.word(y)),
        WordNode::Low(x, y) => low_product(formula, &rows.word(x), &rows.word(y)),
        WordNode::Look(table, x) => look(formula, graph, table, &rows.word(x), 0, 10),
    }
}

/// The entry of a bit node.
pub fn bit_circuit(
    formula: &mut Sharing,
    graph: &Graph,
    rows: &Rows,
    node: BitNode,
) -> Result<Entry, OutOfMemory>
    requires placed { IsBitPlaced graph.now node }
    requires parts { HasBitParts graph.now formula.old rows.now node }
    requires room { length formula.old.gates + bit_weight node ≤ formula.old.limit }
    ensures means { IfOk result (λ e. IsBitOf formula.new rows.now.places.items e
        (λ i. bit_node_value (word_value i graph.now) (bit_value i graph.now) node)) }
    ensures extends { IfOk result (λ _. Extends formula.old formula.new (bit_weight node)) }
{
    match node {
        BitNode::Known(value) => Ok(constant(value)),
        BitNode::Pick(x, place) => Ok(rows.word(x)[usize::from(place)]),
        BitNode::NotB(c) => Ok(negation(rows.bit(c))),
        BitNode::AndB(c, d) => and(formula, rows.bit(c), rows.bit(d)),
        BitNode::OrB(c, d) => or(formula, rows.bit(c), rows.bit(d)),
        BitNode::XorB(c, d) => xor(formula, rows.bit(c), rows.bit(d)),
        BitNode::IteB(c, d, e) => mux(formula, rows.bit(c), rows.bit(d), rows.bit(e)),
        BitNode::Same(x, y) => same_words(formula, &rows.word(x), &rows.word(y)),
        BitNode::Carry(x, y, c) => { carry_of(formula, &rows.word(x), &rows.word(y), rows.bit(c)) }
        BitNode::Borrow(x, y, c) => {
            borrow_of(formula, &rows.word(x), &rows.word(y), rows.bit(c))
        }
    }
}
