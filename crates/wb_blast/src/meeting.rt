//! The walk that numbers the inputs: from the bits down, the condition of a choice before what it chooses.
//!
//! A search decides the input variables in order of number. In this order it first decides what steers the rest.
ghost use Rattle.std.specs.Prelude.{◌≡◌, ◌<◌, ◌≤◌, ◌^◌, ◌++◌, [], ℕ, Some, IfOk, OnOk, length, slice_get, slice_index};
ghost use Rattle.wb_term.specs.declared.nodes.BitId.{BitId};
ghost use Rattle.wb_term.specs.Terms.{HasBit};
ghost use Rattle.wb_blast.specs.Meeting.{node_places, places_down, Meets, Stacks, StacksBits, HasMet};

use crate::children::{children_of, weight_of};
use crate::number::clear;
use crate::places::Place;
use std::alloc::Global;
use wb_term::{BitId, Graph, Node, Scratch, WordNode};
use wb_word::OutOfMemory;

/// What a walk has met.
#[derive(Drop)]
pub struct Met {
    /// For a node that was met, one more than the number of the places before its own, else 0.
    pub slots: Scratch,
    pub places: Vec<Place>,
    /// The weights of the nodes that were met, added up.
    pub weight: u64,
}

fn push_byte(place: u8, places: &mut Vec<Place>) -> Result<(), OutOfMemory>
    ensures { OnOk result (places.new.items ≡ places.old.items ++ places_down (Place.Byte place) 8) }
{
    for at in 0..8 {
        places.push(Place::Byte(place, 7 - at))?;
    }
    Ok(())
}

fn push_cell(place: u8, places: &mut Vec<Place>) -> Result<(), OutOfMemory>
    ensures { OnOk result (places.new.items ≡ places.old.items ++ places_down (Place.Cell place) 16) }
{
    for at in 0..16 {
        places.push(Place::Cell(place, 15 - at))?;
    }
    Ok(())
}

/// Appends the places of an input node, the highest bit first.
fn push_places(node: Node, places: &mut Vec<Place>) -> Result<(), OutOfMemory>
    ensures { OnOk result (places.new.items ≡ places.old.items ++ node_places node) }
{
    match node {
        Node::Word(WordNode::Byte(place)) => push_byte(place, places),
        Node::Word(WordNode::Cell(place)) => push_cell(place, places),
        _ => Ok(()),
    }
}

/// Puts numbers onto a stack, the first on top.
fn stack_up(numbers: &[u32], stack: &mut Vec<u32>) -> Result<(), OutOfMemory>
    ensures { OnOk result (Stacks stack.old.items stack.new.items numbers.now) }
{
    let mut at = numbers.len();
    while at > 0 {
        at -= 1;
        stack.push(numbers[at])?;
    }
    Ok(())
}

/// Puts the numbers of the bits onto a stack, the first on top.
fn stack_bits(bits: &[BitId], stack: &mut Vec<u32>) -> Result<(), OutOfMemory>
    requires { stack.old.items ≡ [] }
    ensures { OnOk result (StacksBits bits.now stack.new.items) }
{
    let mut at = bits.len();
    while at > 0 {
        at -= 1;
        stack.push(bits[at].number())?;
    }
    Ok(())
}

/// Meets the node of a number, unless it was met.
fn meet(graph: &Graph, number: u32, met: &mut Met, stack: &mut Vec<u32>) -> Result<(), OutOfMemory>
    requires there { number < length graph.now.nodes }
    requires covered { length met.old.slots ≡ length graph.now.nodes }
    requires few_places { length met.old.places.items ≤ 4224 }
    requires light { met.old.weight ≤ 2 ^ 46 }
    ensures { OnOk result (Meets graph.now number met.old met.new stack.old.items stack.new.items) }
{
    if met.slots.slot(number) != 0 {
        return Ok(());
    }
    let node = graph.node_at(number);
    let first = met.places.len() as u32;
    push_places(node, &mut met.places)?;
    met.slots.set_slot(number, first + 1);
    met.weight += weight_of(node);
    stack_up(children_of(node).as_slice(), stack)
}

/// Nothing met.
fn begin(alloc: Global, graph: &Graph) -> Result<Met, OutOfMemory>
    ensures covers { IfOk result (λ met. length met.slots ≡ length graph.now.nodes) }
    ensures none { IfOk result (λ met. (k : ℕ) → slice_index met.slots k ≡ 0) }
    ensures places { IfOk result (λ met. met.places.items ≡ []) }
    ensures weight { IfOk result (λ met. met.weight ≡ 0) }
{
    let mut slots = Scratch::for_graph(alloc, graph)?;
    clear(&mut slots, graph.len());
    Ok(Met {
        slots,
        places: Vec::new(alloc),
        weight: 0,
    })
}

/// Meets all nodes under the bits.
pub fn walk(alloc: Global, graph: &Graph, bits: &[BitId]) -> Result<Met, OutOfMemory>
    requires { (place : ℕ) (bit : BitId) → slice_get bits.now place ≡ Some bit → HasBit graph.now bit }
    ensures { IfOk result (HasMet graph.now bits.now) }
{
    let _nodes = graph.len();
    let mut met = begin(alloc, graph)?;
    let mut stack = Vec::new(alloc);
    stack_bits(bits, &mut stack)?;
    'nodes: while let Some(number) = stack.pop() {
        meet(graph, number, &mut met, &mut stack)?;
    }
    Ok(met)
}
