ghost use Rattle.std.specs.Prelude.{◌≡◌, ◌<◌, ℕ, Bool, true, false, if◌then◌else◌, IfOk, IfSome, IfNone};
ghost use Rattle.wb_diagram.specs.Forest.{HasDiagram, leaf_number};
ghost use Rattle.wb_diagram.specs.Values.{value};
ghost use Rattle.wb_diagram.specs.Paths.{assigned, turn_at, IsPath};

use crate::diagrams::Diagrams;
use crate::nodes::{Diagram, Node, Turn};
use std::alloc::Global;
use wb_word::OutOfMemory;

impl Diagrams {
    /// The value of a diagram under values of the variables in order; those past the end are false.
    pub fn value_at(&self, d: Diagram, variables: &[bool]) -> bool
        requires { HasDiagram self.now d }
        ensures { result ≡ value (assigned variables.now) self.now d }
    {
        let mut at = d;
        'down: loop {
            match self.node_at(at) {
                Node::Leaf(constant) => return constant,
                Node::Split {
                    variable,
                    low,
                    high,
                } => at = side_of(low, high, is_set(variables, variable)),
            }
        }
    }

    /// The turns from a diagram to true that take the one side wherever that isn't constantly false.
    ///
    /// There is such a path from every diagram but that of false, and its variables rise.
    pub fn path(
        &self,
        alloc: Global,
        d: Diagram,
        first: bool,
    ) -> Result<Option<Vec<Turn>>, OutOfMemory>
        requires { HasDiagram self.now d }
        ensures some { IfOk result (λ found. IfSome found (λ turns. IsPath self.now first d turns.items)) }
        ensures none { IfOk result (λ found. IfNone found (d.number ≡ leaf_number false)) }
    {
        if d == self.leaf(false) {
            return Ok(None);
        }
        let mut turns = Vec::new(alloc);
        let mut at = d;
        'down: loop {
            match self.node_at(at) {
                Node::Leaf(_) => return Ok(Some(turns)),
                Node::Split {
                    variable,
                    low,
                    high,
                } => {
                    let side = self.turn_at(low, high, first);
                    turns.push(Turn { variable, side })?;
                    at = side_of(low, high, side);
                },
            }
        }
    }

    // The preferred side, where it isn't constantly false.
    fn turn_at(&self, low: Diagram, high: Diagram, first: bool) -> bool
        ensures { result ≡ turn_at first low high }
    {
        if side_of(low, high, first) == self.leaf(false) {
            !first
        } else {
            first
        }
    }
}

fn side_of(low: Diagram, high: Diagram, side: bool) -> Diagram
    ensures { result ≡ (if side then high else low) }
{
    if side { high } else { low }
}

fn is_set(variables: &[bool], variable: u32) -> bool
    ensures { result ≡ assigned variables.now variable }
{
    match variables.get(variable as usize) {
        Some(value) => *value,
        None => false,
    }
}
