//! Gate numbers added up by hand, circuits over constants and over inputs, and the formula of each kind of node.
ghost use Rattle.std.specs.Prelude.{IfOk};
ghost use Rattle.wb_term.specs.Terms.{HasBit};

use crate::nodes::{bit_node, empty_graph, three_nodes, word_node};
use std::test::Fail;
use wb_blast::{Blasted, Entry, Place, blast, blast_many, count_gates};
use wb_gate::{Gate, GateFault, Goal, Lit};
use wb_term::{BitId, BitNode, Graph, Scratch, WordNode};
use wb_word::OutOfMemory;

/// The bit that is true where two words have no bit in common.
fn apart(rt: &HostRuntime) -> Result<(Graph, BitId), OutOfMemory>
    ensures { IfOk result (λ made. HasBit made.0 made.1) }
{
    let (mut graph, x, y, _) = three_nodes(rt.alloc())?;
    let both = graph.word(WordNode::And(x, y))?;
    let twice = graph.word(WordNode::Xor(both, both))?;
    let equal = graph.bit(BitNode::Same(both, twice))?;
    Ok((graph, equal))
}

#[test]
fn shared_nodes_weigh_once(rt: HostRuntime) -> Result<(), Fail> {
    let (graph, equal) = apart(&rt)?;
    let mut scratch = Scratch::for_graph(rt.alloc(), &graph)?;
    // Same 32, Xor 16, And 16.
    assert_eq!(rt; count_gates(&graph, equal, &mut scratch), 64);
    // What an earlier count left in the scratch doesn't matter.
    assert_eq!(rt; count_gates(&graph, equal, &mut scratch), 64);
    Ok(())
}

#[test]
fn the_limit_is_the_gate_number(rt: HostRuntime) -> Result<(), Fail> {
    let (graph, equal) = apart(&rt)?;
    assert!(rt; matches!(blast(rt.alloc(), &graph, equal, 63), Err(GateFault::Full)));
    assert!(rt; blast(rt.alloc(), &graph, equal, 64).is_ok());
    Ok(())
}

/// The bit that is true where a sum of two constants and a carry, cut to 16 bits, has this value.
fn sum_of_constants(rt: &HostRuntime, value: u16) -> Result<(Graph, BitId), OutOfMemory>
    ensures { IfOk result (λ made. HasBit made.0 made.1) }
{
    let mut graph = empty_graph(rt.alloc())?;
    let x = graph.word(WordNode::Const(0xFFFE))?;
    let y = graph.word(WordNode::Const(0x0123))?;
    let carry = graph.bit(BitNode::Known(true))?;
    let sum = graph.word(WordNode::Sum(x, y, carry))?;
    let wanted = graph.word(WordNode::Const(value))?;
    let equal = graph.bit(BitNode::Same(sum, wanted))?;
    Ok((graph, equal))
}

#[test]
fn constants_make_no_gate(rt: HostRuntime) -> Result<(), Fail> {
    let sums = [(0x0122, Goal::Always), (0x0123, Goal::Never)];
    for (value, goal) in sums {
        let (graph, equal) = sum_of_constants(&rt, value)?;
        let made = blast(rt.alloc(), &graph, equal, 1000)?;
        assert_eq!(rt; made.formula.goal(), goal, "{value}");
        assert_eq!(rt; made.formula.gates(), 0, "{value}");
    }
    Ok(())
}

fn is_true(values: &[bool], lit: Lit) -> bool {
    values.get(lit.var as usize) == Some(&!lit.neg)
}

fn gate_value(values: &[bool], gate: Gate) -> bool {
    match gate {
        Gate::And(x, y) => is_true(values, x) && is_true(values, y),
        Gate::Xor(x, y) => is_true(values, x) != is_true(values, y),
        Gate::Mux(c, x, y) => {
            if is_true(values, c) {
                is_true(values, x)
            } else {
                is_true(values, y)
            }
        }
        Gate::Maj(x, y, z) => {
            let (x, y, z) = (is_true(values, x), is_true(values, y), is_true(values, z));
            (x && y) || (x && z) || (y && z)
        }
    }
}

/// Whether the gate values of these inputs satisfy the formula.
pub fn is_satisfied(
    rt: &HostRuntime,
    made: &Blasted,
    bytes: &[u8],
    cells: &[u16],
) -> Result<bool, OutOfMemory> {
    let mut values = Vec::new(rt.alloc());
    for place in &made.places {
        let (word, bit) = match place {
            Place::Byte(at, bit) => (
                bytes.get(usize::from(*at)).map(|byte| u16::from(*byte)),
                *bit,
            ),
            Place::Cell(at, bit) => (cells.get(usize::from(*at)).map(|word| *word), *bit),
        };
        values.push(bit < 16 && word.unwrap_or(0) >> bit & 1 == 1)?;
    }
    for number in 0..made.formula.gates() {
        let value = gate_value(values.as_slice(), made.formula.gate_at(number));
        values.push(value)?;
    }
    Ok(match made.formula.goal() {
        Goal::Always => true,
        Goal::Never => false,
        Goal::Lit(lit) => is_true(values.as_slice(), lit),
    })
}

/// The bit that is true where byte 0 is C3.
fn byte_question(rt: &HostRuntime) -> Result<(Graph, BitId), OutOfMemory>
    ensures { IfOk result (λ made. HasBit made.0 made.1) }
{
    let mut graph = empty_graph(rt.alloc())?;
    let byte = graph.word(WordNode::Byte(0))?;
    let wanted = graph.word(WordNode::Const(0x00C3))?;
    let equal = graph.bit(BitNode::Same(byte, wanted))?;
    Ok((graph, equal))
}

#[test]
fn a_byte_is_found(rt: HostRuntime) -> Result<(), Fail> {
    let (graph, equal) = byte_question(&rt)?;
    let made = blast(rt.alloc(), &graph, equal, 1000)?;
    assert_eq!(rt; made.formula.inputs(), 8);
    assert_eq!(rt; made.places.first(), Some(&Place::Byte(0, 7)));
    for value in 0..256u16 {
        let found = is_satisfied(&rt, &made, &[value as u8], &[])?;
        assert_eq!(rt; found, value == 0xC3, "{value}");
    }
    Ok(())
}

/// The bit that is true where a word node has a value.
fn has_value(rt: &HostRuntime, kind: u8, value: u16) -> Result<Blasted, Fail> {
    let (mut graph, x, y, c) = three_nodes(rt.alloc())?;
    let node = graph.word(word_node(kind, x, y, c))?;
    let known = graph.word(WordNode::Const(value))?;
    let same = graph.bit(BitNode::Same(node, known))?;
    Ok(blast(rt.alloc(), &graph, same, 1 << 20)?)
}

#[test]
fn words_have_their_values(rt: HostRuntime) -> Result<(), Fail> {
    let mut bytes = [0u8; 16];
    bytes[15] = 0x80;
    let mut cells = [0u16; 256];
    cells[255] = 0x8005;
    cells[7] = 0xFC02;
    // Twice -32763 times -1022 is 66967572, 03FD D814; the word at 0x002 of the table is 1234.
    let values = [
        0x7FFA, 0x8000, 0xFC07, 0x7C07, 0x7C08, 0x8402, 0x8005, 0x8000, 0x0100, 0x03FD, 0xD814,
        0x1234,
    ];
    for (kind, value) in values.iter().enumerate() {
        let made = has_value(&rt, kind as u8, *value)?;
        assert!(rt; is_satisfied(&rt, &made, &bytes, &cells)?, "{kind}");
        let other = has_value(&rt, kind as u8, *value ^ 0x0100)?;
        assert!(rt; !is_satisfied(&rt, &other, &bytes, &cells)?, "{kind}");
    }
    Ok(())
}

/// The formula of a bit of a kind.
fn bit_of(rt: &HostRuntime, kind: u8) -> Result<Blasted, Fail> {
    let (mut graph, x, y, c) = three_nodes(rt.alloc())?;
    let d = graph.bit(BitNode::Pick(x, 1))?;
    let bit = graph.bit(bit_node(kind, x, y, c, d))?;
    Ok(blast(rt.alloc(), &graph, bit, 1000)?)
}

#[test]
fn bits_have_their_values(rt: HostRuntime) -> Result<(), Fail> {
    let mut bytes = [0u8; 16];
    bytes[15] = 0x80;
    let mut cells = [0u16; 256];
    cells[255] = 0x8005;
    cells[7] = 0x8004;
    // The first bit is set, the second clear. With the carry the words are over 65535, and the first is no less.
    let values = [true, true, false, true, true, true, true, true, false, true];
    for (kind, value) in values.iter().enumerate() {
        let made = bit_of(&rt, kind as u8)?;
        assert_eq!(rt; is_satisfied(&rt, &made, &bytes, &cells)?, *value, "{kind}");
    }
    Ok(())
}

/// The highest and the lowest bit of a byte.
fn two_bits(rt: &HostRuntime) -> Result<(Graph, BitId, BitId), OutOfMemory>
    ensures first { IfOk result (λ made. HasBit made.0 made.1) }
    ensures second { IfOk result (λ made. HasBit made.0 made.2) }
{
    let mut graph = empty_graph(rt.alloc())?;
    let byte = graph.word(WordNode::Byte(3))?;
    let top = graph.bit(BitNode::Pick(byte, 7))?;
    let low = graph.bit(BitNode::Pick(byte, 0))?;
    Ok((graph, top, low))
}

#[test]
fn equal_bits_have_equal_entries(rt: HostRuntime) -> Result<(), Fail> {
    let (graph, top, low) = two_bits(&rt)?;
    let many = blast_many(rt.alloc(), &graph, &[top, low, top], 0)?;
    assert_eq!(rt; many.places.len(), 8);
    let top = Entry::Lit(Lit { var: 0, neg: false });
    let low = Entry::Lit(Lit { var: 7, neg: false });
    assert_eq!(rt; many.entries.as_slice(), [top, low, top].as_slice());
    Ok(())
}

/// The bit that is true where the products of two words in both orders are equal.
fn both_orders(rt: &HostRuntime) -> Result<(Graph, BitId), OutOfMemory>
    ensures { IfOk result (λ made. HasBit made.0 made.1) }
{
    let (mut graph, x, y, _) = three_nodes(rt.alloc())?;
    let product = graph.word(WordNode::Low(x, y))?;
    let turned = graph.word(WordNode::Low(y, x))?;
    let equal = graph.bit(BitNode::Same(product, turned))?;
    Ok((graph, equal))
}

#[test]
fn products_in_both_orders_are_the_same_gates(rt: HostRuntime) -> Result<(), Fail> {
    let (graph, equal) = both_orders(&rt)?;
    let made = blast(rt.alloc(), &graph, equal, 1 << 14)?;
    assert_eq!(rt; made.formula.goal(), Goal::Always);
    Ok(())
}
