//! The gate number: a walk over the nodes under some bits, from the greatest number down, that visits each once.
ghost use Rattle.std.specs.Prelude.{◌≡◌, [], ◌∷◌, ◌≤◌, ◌<◌, ◌+◌, ◌^◌, ℕ, Some, length, slice_get, slice_index};
ghost use Rattle.wb_term.specs.declared.nodes.BitId.{BitId};
ghost use Rattle.wb_term.specs.Nodes.{Each};
ghost use Rattle.wb_term.specs.Terms.{HasBit};
ghost use Rattle.wb_blast.specs.Number.{IsGateNumber};
ghost use Rattle.wb_blast.specs.Walk.{Begins, IsMarked, Marks, Visits};

use crate::children::{children_of, weight_of};
use wb_term::{BitId, Graph, Scratch};

/// How many gates a bit may need: the weights of the distinct nodes under it, itself included, added up.
///
/// A node's weight is the most gates that one node of its kind stands for.
pub fn count_gates(graph: &Graph, bit: BitId, scratch: &mut Scratch) -> u64
    requires there { HasBit graph.now bit }
    requires covered { bit.number < length scratch.old }
    ensures number { IsGateNumber graph.now (bit ∷ []) result }
    ensures covers { length scratch.new ≡ length scratch.old }
{
    let end = after(graph, bit);
    clear(scratch, end);
    scratch.set_slot(bit.number(), 1);
    walk(graph, &[bit], end, scratch)
}

/// The number after that of a bit.
fn after(graph: &Graph, bit: BitId) -> u32
    requires { HasBit graph.now bit }
    ensures value { result ≡ bit.number + 1 }
    ensures within { result ≤ length graph.now.nodes }
    ensures few { result ≤ 2 ^ 31 }
{
    let _node = graph.bit_at(bit);
    let _nodes = graph.len();
    bit.number() + 1
}

/// Takes the marks from the nodes below a number.
pub fn clear(scratch: &mut Scratch, end: u32)
    requires { end ≤ length scratch.old }
    ensures covers { length scratch.new ≡ length scratch.old }
    ensures clear { (k : ℕ) → k < end → slice_index scratch.new k ≡ 0 }
{
    for at in 0..end {
        scratch.set_slot(at, 0);
    }
}

/// Marks all nodes under the bits, which are marked, and gives their weight.
fn walk(graph: &Graph, bits: &[BitId], end: u32, scratch: &mut Scratch) -> u64
    requires there { end ≤ length graph.now.nodes }
    requires covered { end ≤ length scratch.old }
    requires bits { (place : ℕ) (bit : BitId) → slice_get bits.now place ≡ Some bit → bit.number < end }
    requires end_few { end ≤ 2 ^ 31 }
    requires begins { Begins bits.now scratch.old end }
    ensures number { IsGateNumber graph.now bits.now result }
    ensures few { result ≤ 2 ^ 46 }
    ensures covers { length scratch.new ≡ length scratch.old }
{
    let mut total = 0;
    let mut at = end;
    while at > 0 {
        at -= 1;
        total += visit(graph, at, scratch);
    }
    total
}

/// Marks the children of a node and gives its weight, where it is marked itself.
fn visit(graph: &Graph, at: u32, scratch: &mut Scratch) -> u64
    requires there { at < length graph.now.nodes }
    requires covered { at < length scratch.old }
    ensures visits { Visits graph.now scratch.old scratch.new at result }
    ensures few { result ≤ 32768 }
{
    if scratch.slot(at) != 1 {
        return 0;
    }
    let node = graph.node_at(at);
    mark(scratch, children_of(node).as_slice());
    weight_of(node)
}

/// Marks these nodes.
fn mark(scratch: &mut Scratch, numbers: &[u32])
    requires { Each (λ k. k < length scratch.old) numbers.now }
    ensures { Marks scratch.old scratch.new numbers.now }
{
    for number in numbers {
        scratch.set_slot(*number, 1);
    }
}
