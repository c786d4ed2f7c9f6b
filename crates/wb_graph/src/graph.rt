//! The graph.
ghost use Rattle.std.specs.Prelude.{◌≡◌, ◌≢◌, ◌<◌, ◌^◌, Bool, true, [], Some, None, IfOk, OnErr, length};
ghost use Rattle.wb_term.specs.declared.nodes.Node.{Node};
ghost use Rattle.wb_term.specs.declared.nodes.Node.TheVariants.{Word};
ghost use Rattle.wb_term.specs.Nodes.{is_input, Each, word_children, bit_children, word_weight, bit_weight};
ghost use Rattle.wb_term.specs.Terms.{IsWordPlaced, IsBitPlaced};
ghost use Rattle.wb_term.specs.Values.{word_value, bit_value, word_node_value, bit_node_value, IsWord, IsBit};
ghost use Rattle.wb_term.specs.Under.{HasOnly};
ghost use Rattle.wb_term.specs.Growth.{Grown, AddsAtMost};

use crate::alike::{bit_like, word_like};
use crate::functions::Functions;
use crate::order::Order;
use crate::rooms::Rooms;
use std::alloc::Global;
use std::marker::Model;
use wb_term::{BitId, BitNode, Graph as Terms, WordId, WordNode};
use wb_word::{OutOfMemory, Rom};

/// A graph of terms in which equal functions have one number, as far as diagrams within limits tell.
#[derive(Drop)]
pub struct Graph {
    terms: Terms,
    functions: Functions,
}

impl Model for Graph {
    ghost use Rattle.wb_term.specs.Terms.{Terms};
    ghost use Rattle.wb_graph.specs.Functions.{IsInformed};

    ghost Value = { Terms };

    ghost view = { λ g. g.terms };

    ghost invariant = { λ g. IsInformed g.terms g.functions };
}

impl Graph {
    /// A graph of no nodes over the data tables of two machines, without diagrams: only equal nodes have one number.
    pub fn new(alloc: Global, a: &Rom<1024, 16>, b: &Rom<1024, 16>) -> Result<Self, OutOfMemory>
        ensures empty { IfOk result (λ graph. graph.nodes ≡ []) }
        ensures one { a.now ≡ b.now → IfOk result (λ graph. graph.tables ≡ record { first = a.now; second = None }) }
        ensures two { a.now ≢ b.now → IfOk result (λ graph. graph.tables ≡ record { first = a.now; second = Some b.now }) }
    {
        let order = Order {
            commands: [false; 16],
        };
        Graph::within(alloc, a, b, order, Rooms::none())
    }

    /// A graph of no nodes over the data tables of two machines, with the order in which diagrams ask for bytes and
    /// what they may take.
    #[tactic(auto, unfolding(crate::specs::Functions::IsInformed))]
    pub fn within(
        alloc: Global,
        a: &Rom<1024, 16>,
        b: &Rom<1024, 16>,
        order: Order,
        rooms: Rooms,
    ) -> Result<Self, OutOfMemory>
        ensures empty { IfOk result (λ graph. graph.nodes ≡ []) }
        ensures one { a.now ≡ b.now → IfOk result (λ graph. graph.tables ≡ record { first = a.now; second = None }) }
        ensures two { a.now ≢ b.now → IfOk result (λ graph. graph.tables ≡ record { first = a.now; second = Some b.now }) }
    {
        Ok(Graph {
            terms: Terms::new(alloc, a, b)?,
            functions: Functions::new(alloc, order, rooms)?,
        })
    }

    /// The terms alone, to be read.
    pub fn terms(&self) -> &Terms
        ensures { result.now ≡ self.now }
    {
        &self.terms
    }

    /// The number of a word: that of an older node of the same function, or of a constant, or of the next node.
    ///
    /// An older node is given only where no input stands under it that doesn't stand under the operands. A refusal
    /// changes nothing.
    #[tactic(auto, unfolding(crate::specs::Functions::IsInformed))]
    pub fn word(&mut self, node: WordNode) -> Result<WordId, OutOfMemory>
        requires placed { IsWordPlaced self.old node }
        requires room { length self.old.nodes < 2 ^ 31 }
        ensures means { IfOk result (λ id. IsWord self.new id
            (λ inputs. word_node_value self.old.tables inputs (word_value inputs self.old) (bit_value inputs self.old) node)) }
        ensures inputs { IfOk result (λ id. (allowed : Node → Bool) → (is_input (Word node) ≡ true → allowed (Word node) ≡ true) →
            Each (HasOnly self.old allowed) (word_children node) → HasOnly self.new allowed id.number) }
        ensures grown { Grown self.old self.new }
        ensures adds { AddsAtMost self.old self.new 1 (word_weight node) }
        ensures refused { OnErr result (self.new ≡ self.old) }
    {
        word_like(&mut self.terms, &mut self.functions, node)
    }

    /// The number of a bit: that of an older node of the same function, or of a constant, or of the next node.
    ///
    /// An older node is given only where no input stands under it that doesn't stand under the operands. A refusal
    /// changes nothing.
    #[tactic(auto, unfolding(crate::specs::Functions::IsInformed))]
    pub fn bit(&mut self, node: BitNode) -> Result<BitId, OutOfMemory>
        requires placed { IsBitPlaced self.old node }
        requires room { length self.old.nodes < 2 ^ 31 }
        ensures means { IfOk result (λ id. IsBit self.new id
            (λ inputs. bit_node_value (word_value inputs self.old) (bit_value inputs self.old) node)) }
        ensures inputs { IfOk result (λ id. (allowed : Node → Bool) →
            Each (HasOnly self.old allowed) (bit_children node) → HasOnly self.new allowed id.number) }
        ensures grown { Grown self.old self.new }
        ensures adds { AddsAtMost self.old self.new 1 (bit_weight node) }
        ensures refused { OnErr result (self.new ≡ self.old) }
    {
        bit_like(&mut self.terms, &mut self.functions, node)
    }
}
