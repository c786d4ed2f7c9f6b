ghost use Rattle.std.specs.Prelude.{◌≡◌, ◌<◌, ◌≤◌, ◌≢◌, ℕ, Bool, true, false, [], ◌∷◌, Some, IfOk, IfErr, OnErr, IfSome, length, slice_get, min, max};
ghost use Rattle.wb_diagram.specs.declared.nodes.Node.{Node};
ghost use Rattle.wb_diagram.specs.declared.nodes.Node.TheVariants.{Leaf};
ghost use Rattle.wb_diagram.specs.Forest.{Forest, IsForest, IsPlaced, HasDiagram, level, node_level, leaf_number};
ghost use Rattle.wb_diagram.specs.Values.{value, node_value, IsLeaf};
ghost use Rattle.wb_diagram.specs.Growth.{Grown, IsInterned, IsJoined, IsRefusal, with_node};

use crate::nodes::{Diagram, Node};
use crate::refused::Refused;
use indexmap::IndexSet;
use std::alloc::Global;
use std::marker::Model;
use wb_word::OutOfMemory;

/// The nodes of all diagrams, numbered in the order in which they were made.
#[derive(Drop)]
pub struct Store {
    nodes: IndexSet<Node>,
    limit: u32,
}

impl Model for Store {
    ghost use Rattle.wb_diagram.specs.Forest.{Forest, IsForest};

    ghost Value = { Forest };

    ghost view = { λ s. record { nodes = s.nodes.keys; limit = s.limit } };

    ghost invariant = { λ s. IsForest (record { nodes = s.nodes.keys; limit = s.limit }) };
}

impl Store {
    /// The two leaves, with room for so many nodes.
    pub fn new(alloc: Global, limit: u32) -> Result<Self, OutOfMemory>
        requires some { 2 ≤ limit }
        requires fits { limit ≤ 4194304 }
        ensures { IfOk result (λ store. store ≡ record { nodes = Leaf false ∷ Leaf true ∷ []; limit = limit }) }
    {
        let mut nodes = IndexSet::new(alloc);
        let Ok(_) = nodes.insert_full(Node::Leaf(false)) else {
            return Err(OutOfMemory);
        };
        let Ok(_) = nodes.insert_full(Node::Leaf(true)) else {
            return Err(OutOfMemory);
        };
        Ok(Store { nodes, limit })
    }

    /// How many nodes there are.
    pub fn len(&self) -> u32
        ensures count { result ≡ length self.now.nodes }
        ensures forest { IsForest self.now }
    {
        self.nodes.len() as u32
    }

    /// The node of a diagram.
    pub fn node_at(&self, d: Diagram) -> Node
        requires { HasDiagram self.now d }
        ensures node { slice_get self.now.nodes d.number ≡ Some result }
        ensures placed { IsPlaced self.now d.number result }
        ensures level { level self.now d ≡ node_level result }
        ensures value { (v : ℕ → Bool) → value v self.now d ≡ node_value v (value v self.now) result }
    {
        self.nodes[d.number as usize]
    }

    /// The diagram of a constant.
    pub fn leaf(&self, constant: bool) -> Diagram
        ensures number { result.number ≡ leaf_number constant }
        ensures leaf { IsLeaf self.now constant result }
        ensures forest { IsForest self.now }
    {
        let _ = &self.nodes;
        Diagram {
            number: u32::from(constant),
        }
    }

    /// The diagram that splits at a variable.
    pub fn join(&mut self, variable: u32, low: Diagram, high: Diagram) -> Result<Diagram, Refused>
        requires low { HasDiagram self.old low }
        requires high { HasDiagram self.old high }
        requires variable { variable < 4294967295 }
        requires over_low { variable < level self.old low }
        requires over_high { variable < level self.old high }
        ensures joined { IfOk result (IsJoined self.old self.new variable low high) }
        ensures grown { Grown self.old self.new }
        ensures refused { IfErr result (λ cause. (steps : ℕ) → IsRefusal self.new steps cause) }
    {
        if low == high {
            return Ok(low);
        }
        self.split(variable, low, high)
    }

    fn split(&mut self, variable: u32, low: Diagram, high: Diagram) -> Result<Diagram, Refused>
        requires low { HasDiagram self.old low }
        requires high { HasDiagram self.old high }
        requires apart { low.number ≢ high.number }
        requires variable { variable < 4294967295 }
        requires over_low { variable < level self.old low }
        requires over_high { variable < level self.old high }
        ensures joined { IfOk result (IsJoined self.old self.new variable low high) }
        ensures grown { Grown self.old self.new }
        ensures refused { IfErr result (λ cause. (steps : ℕ) → IsRefusal self.new steps cause) }
    {
        let node = Node::Split {
            variable,
            low,
            high,
        };
        let number = self.intern(node)?;
        Ok(Diagram { number })
    }

    /// The number of a node: that of the equal node where one stands, else the next one.
    fn intern(&mut self, node: Node) -> Result<u32, Refused>
        requires placed { IsPlaced self.old (length self.old.nodes) node }
        ensures interned { IfOk result (IsInterned self.old self.new node) }
        ensures forest { IsForest self.new }
        ensures grown { Grown self.old self.new }
        ensures cause { IfErr result (λ cause. (steps : ℕ) → IsRefusal self.new steps cause) }
    {
        if self.nodes.len() as u32 >= self.limit {
            let Some(number) = self.find(node) else {
                return Err(Refused::Full);
            };
            return Ok(number);
        }
        let Ok((index, _)) = self.nodes.insert_full(node) else {
            return Err(Refused::Memory);
        };
        Ok(index as u32)
    }

    fn find(&self, node: Node) -> Option<u32>
        ensures found { IfSome result (λ number. slice_get self.now.nodes number ≡ Some node) }
        ensures forest { IsForest self.now }
    {
        let Some(index) = self.nodes.get_index_of(&node) else {
            return None;
        };
        Some(index as u32)
    }
}
