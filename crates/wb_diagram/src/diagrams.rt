ghost use Rattle.std.specs.Prelude.{◌≡◌, ◌<◌, ◌≤◌, ℕ, Bool, true, false, not, [], ◌∷◌, Some, IfOk, IfErr, IfSome, IfNone, length, slice_get, min, max};
ghost use Rattle.wb_diagram.specs.declared.nodes.Node.TheVariants.{Leaf};
ghost use Rattle.wb_diagram.specs.Forest.{IsForest, IsPlaced, HasDiagram, level, node_level, leaf_number};
ghost use Rattle.wb_diagram.specs.Values.{value, node_value, IsLeaf};
ghost use Rattle.wb_diagram.specs.Growth.{Grown, IsJoined, IsRefusal};
ghost use Rattle.wb_diagram.specs.Choices.{HasChoice, IsFirst, IsChosen, IsHalf, IsAnswer, choice_value};

use crate::choices::{branch_of, first_variable, is_leaf, settled};
use crate::memo::{Entry, slot};
use crate::nodes::{Choice, Diagram, Node};
use crate::refused::Refused;
use crate::store::Store;
use std::alloc::Global;
use std::marker::Model;
use wb_word::OutOfMemory;

/// How many variables a call goes down, one under the other.
pub(crate) const DEPTH: u32 = 8192;

/// All diagrams that were made, and a memo of choices.
#[derive(Drop)]
pub struct Diagrams {
    store: Store,
    memo: Vec<Entry>,
}

impl Model for Diagrams {
    ghost use Rattle.wb_diagram.specs.Forest.{Forest};
    ghost use Rattle.wb_diagram.specs.Choices.{IsMemo};

    ghost Value = { Forest };

    ghost view = { λ d. d.store };

    ghost invariant = { λ d. IsMemo d.store d.memo.items };
}

impl Diagrams {
    /// The two constants, with room for so many nodes, and a memo of so many places.
    pub fn new(alloc: Global, limit: u32, places: usize) -> Result<Self, OutOfMemory>
        requires some { 2 ≤ limit }
        requires fits { limit ≤ 4194304 }
        requires places { 0 < places }
        ensures { IfOk result (λ diagrams. diagrams ≡ record { nodes = Leaf false ∷ Leaf true ∷ []; limit = limit }) }
    {
        let store = Store::new(alloc, limit)?;
        let leaf = store.leaf(false);
        let choice = Choice {
            test: leaf,
            yes: leaf,
            no: leaf,
        };
        let entry = Entry {
            choice,
            result: leaf,
        };
        let memo = vec![in alloc; entry; places]?;
        Ok(Diagrams { store, memo })
    }

    /// How many nodes there are.
    pub fn len(&self) -> u32
        ensures count { result ≡ length self.now.nodes }
        ensures forest { IsForest self.now }
    {
        self.store.len()
    }

    /// The node of a diagram.
    pub fn node_at(&self, d: Diagram) -> Node
        requires { HasDiagram self.now d }
        ensures node { slice_get self.now.nodes d.number ≡ Some result }
        ensures placed { IsPlaced self.now d.number result }
        ensures level { level self.now d ≡ node_level result }
        ensures value { (v : ℕ → Bool) → value v self.now d ≡ node_value v (value v self.now) result }
    {
        self.store.node_at(d)
    }

    /// The diagram of a constant.
    pub fn leaf(&self, constant: bool) -> Diagram
        ensures number { result.number ≡ leaf_number constant }
        ensures leaf { IsLeaf self.now constant result }
        ensures forest { IsForest self.now }
    {
        self.store.leaf(constant)
    }

    pub(crate) fn join(
        &mut self,
        variable: u32,
        low: Diagram,
        high: Diagram,
    ) -> Result<Diagram, Refused>
        requires low { HasDiagram self.old low }
        requires high { HasDiagram self.old high }
        requires variable { variable < 4294967295 }
        requires over_low { variable < level self.old low }
        requires over_high { variable < level self.old high }
        ensures joined { IfOk result (IsJoined self.old self.new variable low high) }
        ensures grown { Grown self.old self.new }
        ensures refused { IfErr result (λ cause. (steps : ℕ) → IsRefusal self.new steps cause) }
    {
        self.store.join(variable, low, high)
    }

    fn look_up(&self, choice: &Choice) -> Option<Diagram>
        ensures { IfSome result (IsChosen self.now choice.now) }
    {
        let entry = self.memo[slot(choice, self.memo.len())];
        if entry.choice == *choice {
            Some(entry.result)
        } else {
            None
        }
    }

    fn remember(&mut self, choice: &Choice, d: Diagram)
        requires choice { HasChoice self.old choice.now }
        requires chosen { IsChosen self.old choice.now d }
        ensures { self.new ≡ self.old }
    {
        let place = slot(choice, self.memo.len());
        self.memo[place] = Entry {
            choice: *choice,
            result: d,
        };
    }

    /// The diagram of a choice, where it is known without going down.
    fn known(&self, choice: &Choice) -> Option<Diagram>
        requires { HasChoice self.now choice.now }
        ensures some { IfSome result (IsChosen self.now choice.now) }
        ensures none { IfNone result (level self.now choice.now.test < 4294967295) }
    {
        match settled(self, choice) {
            Some(d) => Some(d),
            None => self.look_up(choice),
        }
    }

    /// The diagram of a choice from those of its two halves.
    fn finish(
        &mut self,
        choice: &Choice,
        variable: u32,
        low: Diagram,
        high: Diagram,
    ) -> Result<Diagram, Refused>
        requires choice { HasChoice self.old choice.now }
        requires first { IsFirst self.old choice.now variable }
        requires variable { variable < 4294967295 }
        requires low { IsHalf self.old choice.now variable false low }
        requires high { IsHalf self.old choice.now variable true high }
        ensures chosen { IfOk result (IsChosen self.new choice.now) }
        ensures grown { Grown self.old self.new }
        ensures refused { IfErr result (λ cause. (steps : ℕ) → IsRefusal self.new steps cause) }
    {
        let joined = self.join(variable, low, high)?;
        self.remember(choice, joined);
        Ok(joined)
    }

    /// The diagram of a choice.
    pub(crate) fn choose(
        &mut self,
        choice: Choice,
        depth: u32,
        steps: &mut u32,
    ) -> Result<Diagram, Refused>
        requires { HasChoice self.old choice }
        ensures chosen { IfOk result (IsChosen self.new choice) }
        ensures grown { Grown self.old self.new }
        ensures refused { IfErr result (IsRefusal self.new steps.new) }
    {
        if let Some(known) = self.known(&choice) {
            return Ok(known);
        }
        if *steps == 0 {
            return Err(Refused::Spent);
        }
        if depth == 0 {
            return Err(Refused::Deep);
        }
        *steps -= 1;
        let variable = first_variable(self, &choice);
        let low = branch_of(self, &choice, variable, false);
        let high = branch_of(self, &choice, variable, true);
        let low = self.choose(low, depth - 1, steps)?;
        let high = self.choose(high, depth - 1, steps)?;
        self.finish(&choice, variable, low, high)
    }

    /// Whether a choice has one value under all values of the variables. It makes no node.
    pub(crate) fn decide(
        &mut self,
        choice: Choice,
        wanted: bool,
        depth: u32,
        steps: &mut u32,
    ) -> Result<bool, Refused>
        requires { HasChoice self.old choice }
        ensures answer { IfOk result (IsAnswer self.old choice wanted) }
        ensures same { self.new ≡ self.old }
        ensures refused { IfErr result (IsRefusal self.new steps.new) }
    {
        if let Some(known) = self.known(&choice) {
            return Ok(is_leaf(self, known, wanted));
        }
        if is_leaf(self, choice.yes, !wanted) {
            return Ok(false);
        }
        if is_leaf(self, choice.no, !wanted) {
            return Ok(false);
        }
        if *steps == 0 {
            return Err(Refused::Spent);
        }
        if depth == 0 {
            return Err(Refused::Deep);
        }
        *steps -= 1;
        let variable = first_variable(self, &choice);
        let low = branch_of(self, &choice, variable, false);
        let high = branch_of(self, &choice, variable, true);
        if !self.decide(low, wanted, depth - 1, steps)? {
            return Ok(false);
        }
        if !self.decide(high, wanted, depth - 1, steps)? {
            return Ok(false);
        }
        let leaf = self.leaf(wanted);
        self.remember(&choice, leaf);
        Ok(true)
    }
}
