ghost use Rattle.std.specs.Prelude.{◌≡◌, IfOk, OnOk};
ghost use Rattle.wb_diagram.specs.Forest.{HasDiagram};
ghost use Rattle.wb_diagram.specs.Sizes.{IsAdded, Sees, IsSize};

use crate::diagrams::Diagrams;
use crate::nodes::{Diagram, Node};
use indexmap::IndexSet;
use std::alloc::Global;
use wb_word::OutOfMemory;

impl Diagrams {
    /// How many diagrams stand under one, itself and constants among them. At the limit the count ends.
    pub fn size(&self, alloc: Global, d: Diagram, limit: u32) -> Result<u32, OutOfMemory>
        requires { HasDiagram self.now d }
        ensures { IfOk result (IsSize self.now d limit) }
    {
        let mut seen = IndexSet::new(alloc);
        see(&mut seen, d)?;
        let mut at = 0u32;
        'across: while (at as usize) < seen.len() && at < limit {
            let next = seen[at as usize];
            self.see_children(&mut seen, next)?;
            at += 1;
        }
        Ok(at)
    }

    fn see_children(&self, seen: &mut IndexSet<Diagram>, d: Diagram) -> Result<(), OutOfMemory>
        requires { HasDiagram self.now d }
        ensures { OnOk result (Sees self.now d seen.old.keys seen.new.keys) }
    {
        match self.node_at(d) {
            Node::Leaf(_) => Ok(()),
            Node::Split { low, high, .. } => {
                see(seen, low)?;
                see(seen, high)
            },
        }
    }
}

fn see(seen: &mut IndexSet<Diagram>, d: Diagram) -> Result<(), OutOfMemory>
    ensures { OnOk result (IsAdded seen.old.keys seen.new.keys d) }
{
    let Ok((_place, _)) = seen.insert_full(d) else {
        return Err(OutOfMemory);
    };
    Ok(())
}
