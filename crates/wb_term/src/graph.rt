ghost use Rattle.std.specs.Prelude.{◌≡◌, ◌≢◌, [], ◌≤◌, ◌<◌, ◌^◌, ℕ, Bool, true, IfOk, OnErr, IfSome, IfNone, Some, length, slice_get, slice_index};
ghost use Rattle.wb_word.specs.Table.{IsTable};
ghost use Rattle.wb_term.specs.Nodes.{is_input, Each, children, word_children, bit_children, word_weight, bit_weight};
ghost use Rattle.wb_term.specs.Terms.{Terms, IsGraph, IsKept, HasWord, HasBit, IsPlaced, IsWordPlaced, IsBitPlaced, table_of, table_words};
ghost use Rattle.wb_term.specs.Inputs.{Assignment, IsAssignment};
ghost use Rattle.wb_term.specs.Values.{value, node_value, word_value, bit_value, word_node_value, bit_node_value, IsWord, IsBit};
ghost use Rattle.wb_term.specs.Under.{HasOnly};
ghost use Rattle.wb_term.specs.Growth.{Grown, AddsAtMost, IsInterned, Gains};

use crate::nodes::{BitId, BitNode, Node, Table, WordId, WordNode};
use indexmap::IndexSet;
use std::alloc::Global;
use std::marker::Model;
use wb_word::{OutOfMemory, Rom, Side};

/// The nodes of a comparison, numbered in the order in which they were made, and the data tables that they read.
///
/// The two machines of a comparison share one graph. Where their data tables are equal, one is kept for both.
#[derive(Drop)]
pub struct Graph {
    nodes: IndexSet<Node>,
    first: Vec<u16>,
    second: Option<Vec<u16>>,
}

impl Model for Graph {
    ghost use Rattle.wb_term.specs.Terms.{Terms, IsGraph, option_items};

    ghost Value = { Terms };

    ghost view = { λ g. record {
      nodes = g.nodes.keys;
      tables = record { first = g.first.items; second = option_items g.second };
    } };

    ghost invariant = { λ g. IsGraph (record {
      nodes = g.nodes.keys;
      tables = record { first = g.first.items; second = option_items g.second };
    }) };
}

impl Graph {
    /// A graph of no nodes over the data tables of two machines. Equal tables are kept once.
    pub fn new(alloc: Global, a: &Rom<1024, 16>, b: &Rom<1024, 16>) -> Result<Self, OutOfMemory>
        ensures empty { IfOk result (λ graph. graph.nodes ≡ []) }
        ensures one { a.now ≡ b.now → IfOk result (λ graph. graph.tables ≡ record { first = a.now; second = None }) }
        ensures two { a.now ≢ b.now → IfOk result (λ graph. graph.tables ≡ record { first = a.now; second = Some b.now }) }
    {
        let first = data_words(alloc, a)?;
        let second = data_words(alloc, b)?;
        let second = if first.as_slice() == second.as_slice() {
            None
        } else {
            Some(second)
        };
        Ok(Graph {
            nodes: IndexSet::new(alloc),
            first,
            second,
        })
    }

    /// How many nodes there are.
    pub fn len(&self) -> u32
        ensures count { result ≡ length self.now.nodes }
        ensures graph { IsGraph self.now }
    {
        self.nodes.len() as u32
    }

    /// The table that holds the data words of one of the two machines.
    pub fn table_of(&self, side: Side) -> Table
        ensures value { result ≡ table_of self.now.tables side }
        ensures kept { IsKept self.now.tables result }
    {
        match (side, &self.second) {
            (Side::B, Some(_)) => Table::Second,
            _ => Table::First,
        }
    }

    /// The word of a data table at a place.
    pub fn table_at(&self, table: Table, at: u16) -> u16
        requires kept { IsKept self.now.tables table }
        requires at_in { at < 1024 }
        ensures value { result ≡ slice_index (table_words self.now.tables table) at }
    {
        match (table, &self.second) {
            (Table::First, _) => self.first[usize::from(at)],
            (Table::Second, Some(words)) => words[usize::from(at)],
            (Table::Second, None) => unreachable!(),
        }
    }

    /// The node of a number.
    pub fn node_at(&self, number: u32) -> Node
        requires { number < length self.now.nodes }
        ensures node { slice_get self.now.nodes number ≡ Some result }
        ensures below { Each (λ k. k < number) (children result) }
        ensures fits { (inputs : Assignment) → IsAssignment inputs → (k : ℕ) → value inputs self.now k < 65536 }
        ensures placed { IsPlaced self.now result }
        ensures inputs { (allowed : Node → Bool) → HasOnly self.now allowed number → Each (HasOnly self.now allowed) (children result) }
        ensures value { (inputs : Assignment) → value inputs self.now number ≡ node_value self.now.tables inputs (value inputs self.now) result }
    {
        self.nodes[number as usize]
    }

    /// The node of a word's number.
    pub fn word_at(&self, id: WordId) -> WordNode
        requires there { HasWord self.now id }
        ensures fits { (inputs : Assignment) → IsAssignment inputs → (x : WordId) → word_value inputs self.now x < 65536 }
        ensures node { slice_get self.now.nodes id.number ≡ Some (Node.Word result) }
        ensures within { id.number < length self.now.nodes }
        ensures below { Each (λ k. k < id.number) (word_children result) }
        ensures placed { IsWordPlaced self.now result }
        ensures value { (inputs : Assignment) →
            word_value inputs self.now id ≡ word_node_value self.now.tables inputs (word_value inputs self.now) (bit_value inputs self.now) result }
        ensures inputs { (allowed : Node → Bool) → HasOnly self.now allowed id.number → Each (HasOnly self.now allowed) (word_children result) }
    {
        match self.node_at(id.number) {
            Node::Word(node) => node,
            Node::Bit(_) => unreachable!(),
        }
    }

    /// The node of a bit's number.
    pub fn bit_at(&self, id: BitId) -> BitNode
        requires there { HasBit self.now id }
        ensures node { slice_get self.now.nodes id.number ≡ Some (Node.Bit result) }
        ensures within { id.number < length self.now.nodes }
        ensures below { Each (λ k. k < id.number) (bit_children result) }
        ensures placed { IsBitPlaced self.now result }
        ensures value { (inputs : Assignment) →
            bit_value inputs self.now id ≡ bit_node_value (word_value inputs self.now) (bit_value inputs self.now) result }
        ensures inputs { (allowed : Node → Bool) → HasOnly self.now allowed id.number → Each (HasOnly self.now allowed) (bit_children result) }
    {
        match self.node_at(id.number) {
            Node::Bit(node) => node,
            Node::Word(_) => unreachable!(),
        }
    }

    /// The number of a word node: that of the equal node where one stands, else the next one.
    ///
    /// A refusal changes nothing.
    pub fn word(&mut self, node: WordNode) -> Result<WordId, OutOfMemory>
        requires placed { IsWordPlaced self.old node }
        requires room { length self.old.nodes < 2 ^ 31 }
        ensures interned { IfOk result (λ id. IsInterned self.old self.new (Node.Word node) id.number) }
        ensures refused { OnErr result (self.new ≡ self.old) }

        // What that means for those above.
        ensures means { IfOk result (λ id. IsWord self.new id
            (λ inputs. word_node_value self.old.tables inputs (word_value inputs self.old) (bit_value inputs self.old) node)) }
        ensures inputs { IfOk result (λ id. (allowed : Node → Bool) → (is_input (Node.Word node) ≡ true → allowed (Node.Word node) ≡ true) →
            Each (HasOnly self.old allowed) (word_children node) → HasOnly self.new allowed id.number) }
        ensures grown { Grown self.old self.new }
        ensures adds { AddsAtMost self.old self.new 1 (word_weight node) }
    {
        let number = self.intern(Node::Word(node))?;
        Ok(WordId { number })
    }

    /// The number of a bit node: that of the equal node where one stands, else the next one.
    ///
    /// A refusal changes nothing.
    pub fn bit(&mut self, node: BitNode) -> Result<BitId, OutOfMemory>
        requires placed { IsBitPlaced self.old node }
        requires room { length self.old.nodes < 2 ^ 31 }
        ensures interned { IfOk result (λ id. IsInterned self.old self.new (Node.Bit node) id.number) }
        ensures refused { OnErr result (self.new ≡ self.old) }

        // What that means for those above.
        ensures means { IfOk result (λ id. IsBit self.new id
            (λ inputs. bit_node_value (word_value inputs self.old) (bit_value inputs self.old) node)) }
        ensures inputs { IfOk result (λ id. (allowed : Node → Bool) →
            Each (HasOnly self.old allowed) (bit_children node) → HasOnly self.new allowed id.number) }
        ensures grown { Grown self.old self.new }
        ensures adds { AddsAtMost self.old self.new 1 (bit_weight node) }
    {
        let number = self.intern(Node::Bit(node))?;
        Ok(BitId { number })
    }

    /// The word node that equals this one, where it stands. It takes no memory.
    pub fn find_word(&self, node: WordNode) -> Option<WordId>
        ensures found { IfSome result (λ id. slice_get self.now.nodes id.number ≡ Some (Node.Word node)) }
        ensures absent { IfNone result ((k : ℕ) → slice_get self.now.nodes k ≢ Some (Node.Word node)) }

        // What that means for those above.
        ensures means { IfSome result (λ id. IsWord self.now id
            (λ inputs. word_node_value self.now.tables inputs (word_value inputs self.now) (bit_value inputs self.now) node)) }
        ensures inputs { IfSome result (λ id. (allowed : Node → Bool) → (is_input (Node.Word node) ≡ true → allowed (Node.Word node) ≡ true) →
            Each (HasOnly self.now allowed) (word_children node) → HasOnly self.now allowed id.number) }
    {
        match self.find(Node::Word(node)) {
            Some(number) => Some(WordId { number }),
            None => None,
        }
    }

    /// The bit node that equals this one, where it stands. It takes no memory.
    pub fn find_bit(&self, node: BitNode) -> Option<BitId>
        ensures found { IfSome result (λ id. slice_get self.now.nodes id.number ≡ Some (Node.Bit node)) }
        ensures absent { IfNone result ((k : ℕ) → slice_get self.now.nodes k ≢ Some (Node.Bit node)) }

        // What that means for those above.
        ensures means { IfSome result (λ id. IsBit self.now id
            (λ inputs. bit_node_value (word_value inputs self.now) (bit_value inputs self.now) node)) }
        ensures inputs { IfSome result (λ id. (allowed : Node → Bool) →
            Each (HasOnly self.now allowed) (bit_children node) → HasOnly self.now allowed id.number) }
    {
        match self.find(Node::Bit(node)) {
            Some(number) => Some(BitId { number }),
            None => None,
        }
    }

    fn find(&self, node: Node) -> Option<u32>
        ensures found { IfSome result (λ number. slice_get self.now.nodes number ≡ Some node) }
        ensures absent { IfNone result ((k : ℕ) → slice_get self.now.nodes k ≢ Some node) }
        ensures value { IfSome result (λ number. (inputs : Assignment) →
            value inputs self.now number ≡ node_value self.now.tables inputs (value inputs self.now) node) }
        ensures inputs { IfSome result (λ number. (allowed : Node → Bool) → (is_input node ≡ true → allowed node ≡ true) →
            Each (HasOnly self.now allowed) (children node) → HasOnly self.now allowed number) }
    {
        match self.nodes.get_index_of(&node) {
            Some(index) => Some(index as u32),
            None => None,
        }
    }

    fn intern(&mut self, node: Node) -> Result<u32, OutOfMemory>
        requires placed { IsPlaced self.old node }
        requires room { length self.old.nodes < 2 ^ 31 }
        ensures interned { IfOk result (IsInterned self.old self.new node) }
        ensures refused { OnErr result (self.new ≡ self.old) }
        ensures graph { IfOk result (Gains self.old self.new node) }
    {
        let Ok((index, _)) = self.nodes.insert_full(node) else {
            return Err(OutOfMemory);
        };
        Ok(index as u32)
    }
}

/// The words of a data ROM, in order.
fn data_words(alloc: Global, rom: &Rom<1024, 16>) -> Result<Vec<u16>, OutOfMemory>
    ensures words { IfOk result (λ words. words.items ≡ rom.now) }
    ensures table { IfOk result (λ words. IsTable 1024 16 words.items) }
{
    let mut words = Vec::with_capacity(alloc, 1024)?;
    for at in 0..1024 {
        words.push(rom.get(at) as u16)?;
    }
    Ok(words)
}
