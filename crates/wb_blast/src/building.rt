//! The circuits of all nodes that were met, in order of number, so that the children come first.
ghost use Rattle.std.specs.Prelude.{◌≡◌, ◌==◌, ◌+◌, ◌-◌, ◌<◌, ◌≤◌, ◌^◌, ℕ, Some, OnOk, length, slice_get, slice_index};
ghost use Rattle.wb_term.specs.declared.nodes.Node.{Node};
ghost use Rattle.wb_term.specs.Terms.{IsWordPlaced, IsBitPlaced};
ghost use Rattle.wb_term.specs.Inputs.{Assignment};
ghost use Rattle.wb_term.specs.Values.{value, word_value, bit_value, word_node_value, bit_node_value};
ghost use Rattle.wb_blast.specs.Building.{CanBuild, IsBuiltRow, Builds, IsReady, Building};
ghost use Rattle.wb_blast.specs.Meeting.{IsMet};

use crate::circuits::{bit_circuit, word_circuit};
use crate::rows::Rows;
use wb_equal::Sharing;
use wb_term::{BitNode, Graph, Node, WordNode};
use wb_word::OutOfMemory;

/// Makes the row of a word node.
fn build_word(
    formula: &mut Sharing,
    graph: &Graph,
    rows: &mut Rows,
    number: u32,
    node: WordNode,
) -> Result<(), OutOfMemory>
    requires placed { IsWordPlaced graph.now node }
    requires value { (i : Assignment) → value i graph.now number ≡ word_node_value graph.now.tables i (word_value i graph.now) (bit_value i graph.now) node }
    requires can { CanBuild graph.now formula.old rows.old number (Node.Word node) }
    requires covered { number < length rows.old.slots }
    requires met { IsMet rows.old.slots number }
    requires few { length rows.old.words.items < 4294967295 }
    ensures { OnOk result (IsBuiltRow graph.now formula.old formula.new rows.old rows.new number (Node.Word node)) }
{
    let first = rows.slots.slot(number) - 1;
    let word = word_circuit(formula, graph, rows, first, node)?;
    rows.push_word(number, word)
}

/// Makes the row of a bit node.
fn build_bit(
    formula: &mut Sharing,
    graph: &Graph,
    rows: &mut Rows,
    number: u32,
    node: BitNode,
) -> Result<(), OutOfMemory>
    requires placed { IsBitPlaced graph.now node }
    requires value { (i : Assignment) → (value i graph.now number == 1) ≡ bit_node_value (word_value i graph.now) (bit_value i graph.now) node }
    requires can { CanBuild graph.now formula.old rows.old number (Node.Bit node) }
    requires covered { number < length rows.old.slots }
    requires few { length rows.old.bits.items < 4294967295 }
    ensures { OnOk result (IsBuiltRow graph.now formula.old formula.new rows.old rows.new number (Node.Bit node)) }
{
    let entry = bit_circuit(formula, graph, rows, node)?;
    rows.push_bit(number, entry)
}

/// Makes the row of the node of a number, where it was met.
fn build_node(
    formula: &mut Sharing,
    graph: &Graph,
    rows: &mut Rows,
    number: u32,
) -> Result<(), OutOfMemory>
    requires there { number < length graph.now.nodes }
    requires covered { length rows.old.slots ≡ length graph.now.nodes }
    requires can { (n : Node) → IsMet rows.old.slots number → slice_get graph.now.nodes number ≡ Some n → CanBuild graph.now formula.old rows.old number n }
    requires few_words { length rows.old.words.items < 4294967295 }
    requires few_bits { length rows.old.bits.items < 4294967295 }
    ensures { OnOk result (Builds graph.now formula.old formula.new rows.old rows.new number) }
{
    if rows.slots.slot(number) == 0 {
        return Ok(());
    }
    match graph.node_at(number) {
        Node::Word(node) => build_word(formula, graph, rows, number, node),
        Node::Bit(node) => build_bit(formula, graph, rows, number, node),
    }
}

/// Makes the rows of all nodes that were met.
pub fn build(formula: &mut Sharing, graph: &Graph, rows: &mut Rows) -> Result<(), OutOfMemory>
    requires ready { IsReady graph.now formula.old.limit rows.old }
    requires begun { Building graph.now rows.old formula.old.limit formula.old rows.old 0 }
    ensures { OnOk result (Building graph.now rows.old formula.old.limit formula.new rows.new (length graph.now.nodes)) }
{
    for number in 0..graph.len() {
        build_node(formula, graph, rows, number)?;
    }
    Ok(())
}
