ghost use Rattle.std.specs.Prelude.{◌≡◌, ◌<◌, IfOk, length, slice_index, slice_set};

use crate::graph::Graph;
use std::alloc::Global;
use std::marker::Model;
use wb_word::OutOfMemory;

/// One number for each node of a graph, for walks from the smallest number upwards.
#[derive(Drop)]
pub struct Scratch {
    slots: Vec<u32>,
}

impl Model for Scratch {
    ghost use Rattle.std.specs.Prelude.{List, ℕ};

    ghost Value = { List ℕ };

    ghost view = { λ s. s.slots.items };
}

impl Scratch {
    /// A slot for each node that stands now.
    pub fn for_graph(alloc: Global, graph: &Graph) -> Result<Self, OutOfMemory>
        ensures { IfOk result (λ scratch. length scratch ≡ length graph.now.nodes) }
    {
        let slots = vec![in alloc; 0u32; graph.len() as usize]?;
        Ok(Scratch { slots })
    }

    /// The slot of a node.
    pub fn slot(&self, number: u32) -> u32
        requires { number < length self.now }
        ensures { result ≡ slice_index self.now number }
    {
        self.slots[number as usize]
    }

    /// Replaces the slot of a node. All others stay.
    pub fn set_slot(&mut self, number: u32, value: u32)
        requires { number < length self.old }
        ensures { self.new ≡ slice_set self.old number value }
    {
        self.slots[number as usize] = value;
    }
}
