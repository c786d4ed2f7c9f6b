ghost use Rattle.std.specs.Prelude.{◌≡◌, IfOk, []};
ghost use Rattle.wb_term.specs.Terms.{Terms, HasWord, HasBit, IsWordPlaced, IsBitPlaced};

use std::alloc::Global;
use std::process::Abort;
use std::test::Fail;
use wb_term::{BitId, BitNode, Graph, Inputs, Node, OutOfMemory, Scratch, Table, WordId, WordNode};
use wb_word::{Rom, Side};

fn graph_of(alloc: Global, word: u16) -> Result<Graph, OutOfMemory>
    ensures { IfOk result (λ graph. graph.nodes ≡ []) }
{
    let mut a = Rom::zero(alloc)?;
    a.set(2, u32::from(word));
    let b = Rom::zero(alloc)?;
    Graph::new(alloc, &a, &b)
}

/// A graph of the word 5 and then of a set bit, made twice each, and their numbers.
fn five_and_set(alloc: Global) -> Result<(Graph, [u32; 4]), OutOfMemory> {
    let mut graph = graph_of(alloc, 0)?;
    let five = graph.word(WordNode::Const(5))?.number();
    let again = graph.word(WordNode::Const(5))?.number();
    let set = graph.bit(BitNode::Known(true))?.number();
    let set_again = graph.bit(BitNode::Known(true))?.number();
    Ok((graph, [five, again, set, set_again]))
}

/// What is found in a graph of these two.
fn expect_found(rt: &impl Abort, graph: &Graph) {
    let five = graph.find_word(WordNode::Const(5));
    let set = graph.find_bit(BitNode::Known(true));
    assert_eq!(rt; five.map(|id| id.number()), Some(0));
    assert_eq!(rt; set.map(|id| id.number()), Some(1));
    assert_eq!(rt; graph.find_word(WordNode::Const(6)), None);
    assert_eq!(rt; graph.find_bit(BitNode::Known(false)), None);
}

#[test]
fn equal_nodes_have_one_number(rt: HostRuntime) -> Result<(), Fail> {
    let (graph, numbers) = five_and_set(rt.alloc())?;
    assert_eq!(rt; numbers, [0, 0, 1, 1]);
    assert_eq!(rt; graph.len(), 2);
    assert_eq!(rt; graph.node_at(1), Node::Bit(BitNode::Known(true)));
    expect_found(&rt, &graph);
    Ok(())
}

/// The second table of a graph whose first data word of interest is this one.
fn expect_tables(rt: &impl Abort, alloc: Global, word: u16, second: Table) -> Result<(), Fail> {
    let graph = graph_of(alloc, word)?;
    assert_eq!(rt; graph.table_of(Side::A), Table::First);
    assert_eq!(rt; graph.table_of(Side::B), second);
    assert_eq!(rt; graph.table_at(Table::First, 2), word);
    Ok(())
}

#[test]
fn equal_tables_are_kept_once(rt: HostRuntime) -> Result<(), Fail> {
    expect_tables(&rt, rt.alloc(), 0, Table::First)?;
    expect_tables(&rt, rt.alloc(), 0x1234, Table::Second)
}

/// A word node of each kind that has children.
fn word_node(kind: u8, x: WordId, y: WordId, c: BitId) -> WordNode
    ensures { (g : Terms) → HasWord g x → HasWord g y → HasBit g c → IsWordPlaced g result }
{
    match kind {
        0 => WordNode::Not(x),
        1 => WordNode::And(x, y),
        2 => WordNode::Or(x, y),
        3 => WordNode::Xor(x, y),
        4 => WordNode::Sum(x, y, c),
        5 => WordNode::Diff(x, y, c),
        6 => WordNode::Ite(c, x, y),
        7 => WordNode::Shl(x, 15),
        8 => WordNode::Shr(x, 7),
        9 => WordNode::High(x, y),
        10 => WordNode::Low(x, y),
        _ => WordNode::Look(Table::First, y),
    }
}

/// A word node of a kind over the first byte, a constant and a carry.
fn word_over(graph: &mut Graph, kind: u8, constant: u16) -> Result<WordId, OutOfMemory>
    requires { graph.old.nodes ≡ [] }
    ensures { IfOk result (HasWord graph.new) }
{
    let x = graph.word(WordNode::Byte(0))?;
    let y = graph.word(WordNode::Const(constant))?;
    let c = graph.bit(BitNode::Known(true))?;
    graph.word(word_node(kind, x, y, c))
}

/// Its value where the byte is C3.
fn word_of(alloc: Global, kind: u8, constant: u16) -> Result<u16, OutOfMemory> {
    let mut graph = graph_of(alloc, 0x1234)?;
    let id = word_over(&mut graph, kind, constant)?;
    let _node = graph.word_at(id);
    let mut scratch = Scratch::for_graph(alloc, &graph)?;
    Ok(graph.value_word(id, &inputs_of(alloc)?, &mut scratch))
}

fn inputs_of(alloc: Global) -> Result<Inputs, OutOfMemory> {
    let mut bytes = [0; 16];
    bytes[0] = 0xC3;
    Inputs::new(alloc, &bytes, &[7; 256])
}

/// A kind, a constant, and the value.
type WordRow = (u8, u16, u16);

const WORDS: [WordRow; 13] = [
    (0, 0xFFFE, 0xFF3C),
    (1, 0xFFFE, 0x00C2),
    (1, 0x000F, 0x0003),
    (2, 0xFFFE, 0xFFFF),
    (3, 0xFFFE, 0xFF3D),
    (4, 0xFFFE, 0x00C2),
    (5, 0xFFFE, 0x00C4),
    (6, 0xFFFE, 0x00C3),
    (7, 0xFFFE, 0x8000),
    (8, 0xFFFE, 0x0001),
    (9, 0xFFFE, 0xFFFF),
    (10, 0xFFFE, 0xFCF4),
    (11, 0x0402, 0x1234),
];

fn expect_words(rt: &impl Abort, alloc: Global, rows: &[WordRow]) -> Result<(), Fail> {
    for (kind, constant, value) in rows {
        assert_eq!(rt; word_of(alloc, *kind, *constant)?, *value, "kind {kind}");
    }
    Ok(())
}

#[test]
fn words_have_the_values_of_their_kinds(rt: HostRuntime) -> Result<(), Fail> {
    expect_words(&rt, rt.alloc(), &WORDS)
}

/// A bit node of each kind that has children.
fn bit_node(kind: u8, x: WordId, y: WordId, c: BitId, d: BitId) -> BitNode
    ensures { (g : Terms) → HasWord g x → HasWord g y → HasBit g c → HasBit g d → IsBitPlaced g result }
{
    match kind {
        0 => BitNode::Pick(x, 2),
        1 => BitNode::NotB(d),
        2 => BitNode::AndB(c, d),
        3 => BitNode::OrB(c, d),
        4 => BitNode::XorB(c, d),
        5 => BitNode::IteB(d, c, d),
        6 => BitNode::Same(x, y),
        7 => BitNode::Carry(x, y, c),
        _ => BitNode::Borrow(x, y, c),
    }
}

/// A bit node of a kind over the first byte, the word FFFE, a set bit and the byte's bit 2.
fn bit_over(graph: &mut Graph, kind: u8) -> Result<BitId, OutOfMemory>
    requires { graph.old.nodes ≡ [] }
    ensures { IfOk result (HasBit graph.new) }
{
    let x = graph.word(WordNode::Byte(0))?;
    let y = graph.word(WordNode::Const(0xFFFE))?;
    let c = graph.bit(BitNode::Known(true))?;
    let d = graph.bit(BitNode::Pick(x, 2))?;
    graph.bit(bit_node(kind, x, y, c, d))
}

/// Its value where the byte is C3.
fn bit_of(alloc: Global, kind: u8) -> Result<bool, OutOfMemory> {
    let mut graph = graph_of(alloc, 0)?;
    let id = bit_over(&mut graph, kind)?;
    let _node = graph.bit_at(id);
    let mut scratch = Scratch::for_graph(alloc, &graph)?;
    Ok(graph.value_bit(id, &inputs_of(alloc)?, &mut scratch))
}

/// A kind, and the value.
type BitRow = (u8, bool);

const BITS: [BitRow; 9] = [
    (0, false),
    (1, true),
    (2, false),
    (3, true),
    (4, true),
    (5, false),
    (6, false),
    (7, true),
    (8, true),
];

fn expect_bits(rt: &impl Abort, alloc: Global, rows: &[BitRow]) -> Result<(), Fail> {
    for (kind, value) in rows {
        assert_eq!(rt; bit_of(alloc, *kind)?, *value, "kind {kind}");
    }
    Ok(())
}

#[test]
fn bits_have_the_values_of_their_kinds(rt: HostRuntime) -> Result<(), Fail> {
    expect_bits(&rt, rt.alloc(), &BITS)
}
