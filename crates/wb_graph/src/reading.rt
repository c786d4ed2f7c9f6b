//! What is read of a graph, as of its terms.
ghost use Rattle.std.specs.Prelude.{◌≡◌, ◌≢◌, ◌<◌, ◌≤◌, ℕ, Bool, true, IfOk, IfSome, IfNone, Some, length, slice_get, slice_index};
ghost use Rattle.wb_term.specs.declared.nodes.Node.{Node as AnyNode};
ghost use Rattle.wb_term.specs.declared.nodes.Node.TheVariants as kind;
ghost use Rattle.wb_term.specs.Nodes.{is_input, Each, children, word_children, bit_children};
ghost use Rattle.wb_term.specs.Terms.{IsGraph, IsKept, HasWord, HasBit, IsPlaced, IsWordPlaced, IsBitPlaced, table_of, table_words};
ghost use Rattle.wb_term.specs.Inputs.{Assignment, IsAssignment};
ghost use Rattle.wb_term.specs.Values.{value, node_value, word_value, bit_value, word_node_value, bit_node_value, IsWord, IsBit};
ghost use Rattle.wb_term.specs.Under.{HasOnly};

use crate::graph::Graph;
use std::alloc::Global;
use wb_term::{BitId, BitNode, Inputs, Node, Scratch, Table, WordId, WordNode};
use wb_word::{OutOfMemory, Side};

impl Graph {
    /// How many nodes there are.
    pub fn len(&self) -> u32
        ensures count { result ≡ length self.now.nodes }
        ensures graph { IsGraph self.now }
    {
        self.terms().len()
    }

    /// The table that holds the data words of one of the two machines.
    pub fn table_of(&self, side: Side) -> Table
        ensures value { result ≡ table_of self.now.tables side }
        ensures kept { IsKept self.now.tables result }
    {
        self.terms().table_of(side)
    }

    /// The word of a data table at a place.
    pub fn table_at(&self, table: Table, at: u16) -> u16
        requires kept { IsKept self.now.tables table }
        requires at_in { at < 1024 }
        ensures value { result ≡ slice_index (table_words self.now.tables table) at }
    {
        self.terms().table_at(table, at)
    }

    /// The node of a number.
    pub fn node_at(&self, number: u32) -> Node
        requires { number < length self.now.nodes }
        ensures node { slice_get self.now.nodes number ≡ Some result }
        ensures below { Each (λ k. k < number) (children result) }
        ensures fits { (inputs : Assignment) → IsAssignment inputs → (k : ℕ) → value inputs self.now k < 65536 }
        ensures placed { IsPlaced self.now result }
        ensures inputs { (allowed : AnyNode → Bool) → HasOnly self.now allowed number → Each (HasOnly self.now allowed) (children result) }
        ensures value { (inputs : Assignment) → value inputs self.now number ≡ node_value self.now.tables inputs (value inputs self.now) result }
    {
        self.terms().node_at(number)
    }

    /// The node of a word's number.
    pub fn word_at(&self, id: WordId) -> WordNode
        requires there { HasWord self.now id }
        ensures fits { (inputs : Assignment) → IsAssignment inputs → (x : WordId) → word_value inputs self.now x < 65536 }
        ensures node { slice_get self.now.nodes id.number ≡ Some (kind.Word result) }
        ensures within { id.number < length self.now.nodes }
        ensures below { Each (λ k. k < id.number) (word_children result) }
        ensures placed { IsWordPlaced self.now result }
        ensures value { (inputs : Assignment) →
            word_value inputs self.now id ≡ word_node_value self.now.tables inputs (word_value inputs self.now) (bit_value inputs self.now) result }
        ensures inputs { (allowed : AnyNode → Bool) → HasOnly self.now allowed id.number → Each (HasOnly self.now allowed) (word_children result) }
    {
        self.terms().word_at(id)
    }

    /// The node of a bit's number.
    pub fn bit_at(&self, id: BitId) -> BitNode
        requires there { HasBit self.now id }
        ensures node { slice_get self.now.nodes id.number ≡ Some (kind.Bit result) }
        ensures within { id.number < length self.now.nodes }
        ensures below { Each (λ k. k < id.number) (bit_children result) }
        ensures placed { IsBitPlaced self.now result }
        ensures value { (inputs : Assignment) →
            bit_value inputs self.now id ≡ bit_node_value (word_value inputs self.now) (bit_value inputs self.now) result }
        ensures inputs { (allowed : AnyNode → Bool) → HasOnly self.now allowed id.number → Each (HasOnly self.now allowed) (bit_children result) }
    {
        self.terms().bit_at(id)
    }

    /// The word node that equals this one, where it stands. It takes no memory.
    pub fn find_word(&self, node: WordNode) -> Option<WordId>
        ensures found { IfSome result (λ id. slice_get self.now.nodes id.number ≡ Some (kind.Word node)) }
        ensures absent { IfNone result ((k : ℕ) → slice_get self.now.nodes k ≢ Some (kind.Word node)) }

        // What that means for those above.
        ensures means { IfSome result (λ id. IsWord self.now id
            (λ inputs. word_node_value self.now.tables inputs (word_value inputs self.now) (bit_value inputs self.now) node)) }
        ensures inputs { IfSome result (λ id. (allowed : AnyNode → Bool) → (is_input (kind.Word node) ≡ true → allowed (kind.Word node) ≡ true) →
            Each (HasOnly self.now allowed) (word_children node) → HasOnly self.now allowed id.number) }
    {
        self.terms().find_word(node)
    }

    /// The bit node that equals this one, where it stands. It takes no memory.
    pub fn find_bit(&self, node: BitNode) -> Option<BitId>
        ensures found { IfSome result (λ id. slice_get self.now.nodes id.number ≡ Some (kind.Bit node)) }
        ensures absent { IfNone result ((k : ℕ) → slice_get self.now.nodes k ≢ Some (kind.Bit node)) }

        // What that means for those above.
        ensures means { IfSome result (λ id. IsBit self.now id
            (λ inputs. bit_node_value (word_value inputs self.now) (bit_value inputs self.now) node)) }
        ensures inputs { IfSome result (λ id. (allowed : AnyNode → Bool) →
            Each (HasOnly self.now allowed) (bit_children node) → HasOnly self.now allowed id.number) }
    {
        self.terms().find_bit(node)
    }

    /// A slot for each node that stands now.
    pub fn scratch(&self, alloc: Global) -> Result<Scratch, OutOfMemory>
        ensures { IfOk result (λ scratch. length scratch ≡ length self.now.nodes) }
    {
        Scratch::for_graph(alloc, self.terms())
    }

    /// The value of a word node. It goes over all nodes below, once each.
    pub fn value_word(&self, id: WordId, inputs: &Inputs, scratch: &mut Scratch) -> u16
        requires there { HasWord self.now id }
        requires covered { id.number < length scratch.old }
        ensures value { result ≡ word_value inputs.now self.now id }
        ensures covers { length scratch.new ≡ length scratch.old }
    {
        self.terms().value_word(id, inputs, scratch)
    }

    /// The value of a bit node. It goes over all nodes below, once each.
    pub fn value_bit(&self, id: BitId, inputs: &Inputs, scratch: &mut Scratch) -> bool
        requires there { HasBit self.now id }
        requires covered { id.number < length scratch.old }
        ensures value { result ≡ bit_value inputs.now self.now id }
        ensures covers { length scratch.new ≡ length scratch.old }
    {
        self.terms().value_bit(id, inputs, scratch)
    }
}
