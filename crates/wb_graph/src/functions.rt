//! What is known of the nodes of a graph.
ghost use Rattle.std.specs.Prelude.{◌≡◌, ◌<◌, ℕ, Bool, true, [], IfOk, IfSome, Some, length, slice_get, ◌==◌};
ghost use Rattle.wb_diagram.specs.Forest.{HasDiagram};
ghost use Rattle.wb_vector.specs.Vectors.{AreThere};
ghost use Rattle.wb_term.specs.declared.nodes.Node.{Node};
ghost use Rattle.wb_term.specs.Inputs.{Assignment, IsAssignment};
ghost use Rattle.wb_term.specs.Terms.{Terms, IsGraph, HasWord, HasBit, holds_bit};
ghost use Rattle.wb_term.specs.Values.{value, word_value, bit_value};
ghost use Rattle.wb_term.specs.Under.{HasOnly};
ghost use Rattle.wb_graph.specs.Places.{AllowsBytes, ArePlaces};
ghost use Rattle.wb_graph.specs.Functions.{IsWordFunction, IsBitFunction, IsFunctionOf, IsSummary, AreRight, Keeps};

use crate::order::{Order, own_variable};
use crate::places::Places;
use crate::rooms::{Room, Rooms};
use crate::summaries::{Function, Summary};
use indexmap::IndexMap;
use std::alloc::Global;
use std::marker::Model;
use wb_diagram::{Diagram, Diagrams};
use wb_term::{BitId, Graph as Terms, WordId};
use wb_vector::{Vector, known_bit, known_word, variables};
use wb_word::OutOfMemory;

/// Diagrams that took no more steps are small, which saves counting their nodes.
const FEW_STEPS: u32 = 64;

/// The diagrams of a graph's nodes, as far as they were made.
#[derive(Drop)]
pub struct Functions {
    pub(crate) alloc: Global,
    pub(crate) diagrams: Diagrams,
    pub(crate) order: Order,
    rooms: Rooms,
    summaries: Vec<Summary>,
    /// The newest node of each function that a word has.
    words: IndexMap<Vector, WordId>,
    /// The newest node of each function that a bit has.
    bits: IndexMap<Diagram, BitId>,
    /// What is left of all steps.
    steps: u32,
    /// What is left of the node's steps.
    pub(crate) node_steps: u32,
}

impl Model for Functions {
    ghost use Rattle.wb_graph.specs.Functions.{Board};

    ghost Value = { Board };

    ghost view = { λ f. record { forest = f.diagrams; summaries = f.summaries.items } };
}

/// Whether this function is known.
fn is_told(known: Option<Function>, function: Function) -> bool
    ensures { result ≡ true → known ≡ Some function }
{
    known == Some(function)
}

impl Functions {
    /// Those of a graph without nodes.
    pub fn new(alloc: Global, order: Order, rooms: Rooms) -> Result<Self, OutOfMemory>
        ensures empty { IfOk result (λ functions. functions.summaries ≡ []) }
        ensures right { IfOk result (λ functions. (g : Terms) → AreRight g functions) }
    {
        Ok(Functions {
            alloc,
            diagrams: Diagrams::new(
                alloc,
                rooms.nodes.clamp(2, 1 << 22),
                rooms.memo.max(1) as usize,
            )?,
            order,
            rooms,
            summaries: Vec::new(alloc),
            words: IndexMap::new(alloc),
            bits: IndexMap::new(alloc),
            steps: rooms.steps,
            node_steps: 0,
        })
    }

    fn summary(&self, number: u32) -> Option<Summary>
        ensures { IfSome result (λ summary. slice_get self.now.summaries number ≡ Some summary) }
    {
        let summary = self.summaries.get(number as usize)?;
        Some(*summary)
    }

    /// Which bytes stand under a node.
    pub fn places_of(&self, number: u32) -> Places
        ensures { (g : Terms) → AreRight g self.now → ArePlaces g number result }
    {
        match self.summary(number) {
            Some(summary) => summary.places,
            None => Places::unknown(),
        }
    }

    /// What the bits of a word are.
    pub fn word(&self, x: WordId) -> Option<Vector>
        ensures { IfSome result (λ w. (g : Terms) → AreRight g self.now → IsWordFunction g self.now.forest (λ inputs. word_value inputs g x) w) }
    {
        match self.summary(x.number())?.function? {
            Function::Word(word) => Some(word),
            Function::Bit(_) => None,
        }
    }

    /// What a bit is.
    pub fn bit(&self, c: BitId) -> Option<Diagram>
        ensures { IfSome result (λ d. (g : Terms) → AreRight g self.now → IsBitFunction g self.now.forest (λ inputs. bit_value inputs g c) d) }
    {
        match self.summary(c.number())?.function? {
            Function::Word(_) => None,
            Function::Bit(bit) => Some(bit),
        }
    }

    /// From here on diagrams take of this room.
    pub fn begin(&mut self, is_sum: bool)
        ensures { self.new ≡ self.old }
    {
        let room = self.room(is_sum);
        self.node_steps = self.steps.min(room.steps);
    }

    fn room(&self, is_sum: bool) -> Room {
        if is_sum {
            self.rooms.sum
        } else {
            self.rooms.choice
        }
    }

    /// Whether the diagrams that were made last are small. The steps that they took are gone.
    pub fn ends_small(&mut self, is_sum: bool, made: &[Diagram]) -> bool
        requires { AreThere self.old.forest made.now }
        ensures { self.new ≡ self.old }
    {
        let room = self.room(is_sum);
        let spent = self.steps.min(room.steps).saturating_sub(self.node_steps);
        self.steps = self.steps.saturating_sub(spent);
        spent <= FEW_STEPS || self.are_small(made, room.nodes)
    }

    fn are_small(&self, made: &[Diagram], limit: u32) -> bool
        requires { AreThere self.now.forest made.now }
    {
        let mut left = limit;
        for at in 0..made.len() {
            let size = self
                .diagrams
                .size(self.alloc, made[at], left)
                .unwrap_or(left);
            left = left.saturating_sub(size);
        }
        left > 0
    }

    /// The word of a node's own variables.
    pub fn own_word(&mut self, number: u32) -> Option<Vector>
        ensures function { IfSome result (λ w. (g : Terms) → IsGraph g → number < length g.nodes → IsWordFunction g self.new.forest (λ inputs. value inputs g number) w) }
        ensures keeps { Keeps self.old self.new }
    {
        let mut names = [0u32; 16];
        for at in 0..16u8 {
            names[usize::from(at)] = own_variable(number, at)?;
        }
        variables(&mut self.diagrams, &names).ok()
    }

    /// The variable that is a bit node's own.
    pub fn own_bit(&mut self, number: u32) -> Option<Diagram>
        ensures function { IfSome result (λ d. (g : Terms) → IsGraph g → holds_bit (slice_get g.nodes number) ≡ true → IsBitFunction g self.new.forest (λ inputs. value inputs g number == 1) d) }
        ensures keeps { Keeps self.old self.new }
    {
        let variable = own_variable(number, 0)?;
        self.diagrams.variable(variable).ok()
    }

    /// The number of a word whose bits are constant.
    pub fn known_word(&self, w: &Vector) -> Option<u16>
        requires { AreThere self.now.forest w.now }
        ensures { IfSome result (λ n. (g : Terms) (meaning : Assignment → ℕ) → IsWordFunction g self.now.forest meaning w.now →
            (inputs : Assignment) → IsAssignment inputs → meaning inputs ≡ n) }
    {
        known_word(&self.diagrams, w)
    }

    /// The constant that a bit is.
    pub fn known_bit(&self, d: Diagram) -> Option<bool>
        requires { HasDiagram self.now.forest d }
        ensures { IfSome result (λ b. (g : Terms) (meaning : Assignment → Bool) → IsBitFunction g self.now.forest meaning d →
            (inputs : Assignment) → IsAssignment inputs → meaning inputs ≡ b) }
    {
        known_bit(&self.diagrams, d)
    }

    /// The first word that had a function.
    fn listed_word(&self, w: &Vector) -> Option<WordId> {
        let id = self.words.get(w)?;
        Some(*id)
    }

    /// The first bit that had a function.
    fn listed_bit(&self, d: Diagram) -> Option<BitId> {
        let id = self.bits.get(&d)?;
        Some(*id)
    }

    /// Whether a node is of this function, and only some of these bytes stand under it.
    fn is_of(&self, number: u32, function: Function, places: &Places) -> bool
        ensures function { result ≡ true → (g : Terms) → AreRight g self.now → IsFunctionOf g self.now.forest number function }
        ensures inputs { result ≡ true → (g : Terms) → AreRight g self.now → (allowed : Node → Bool) → AllowsBytes allowed places.now → HasOnly g allowed number }
    {
        match self.summary(number) {
            Some(summary) => {
                is_told(summary.function, function) && summary.places.are_within(places)
            }
            None => false,
        }
    }

    /// A word of this function under which only some of these bytes stand.
    pub fn older_word(&self, w: &Vector, places: &Places) -> Option<WordId>
        ensures there { IfSome result (λ id. (g : Terms) → AreRight g self.now → HasWord g id) }
        ensures function { IfSome result (λ id. (g : Terms) → AreRight g self.now → IsWordFunction g self.now.forest (λ inputs. word_value inputs g id) w.now) }
        ensures inputs { IfSome result (λ id. (g : Terms) → AreRight g self.now → (allowed : Node → Bool) → AllowsBytes allowed places.now → HasOnly g allowed id.number) }
    {
        let id = self.listed_word(w)?;
        if self.is_of(id.number(), Function::Word(*w), places) {
            Some(id)
        } else {
            None
        }
    }

    /// A bit of this function under which only some of these bytes stand.
    pub fn older_bit(&self, d: Diagram, places: &Places) -> Option<BitId>
        ensures there { IfSome result (λ id. (g : Terms) → AreRight g self.now → HasBit g id) }
        ensures function { IfSome result (λ id. (g : Terms) → AreRight g self.now → IsBitFunction g self.now.forest (λ inputs. bit_value inputs g id) d) }
        ensures inputs { IfSome result (λ id. (g : Terms) → AreRight g self.now → (allowed : Node → Bool) → AllowsBytes allowed places.now → HasOnly g allowed id.number) }
    {
        let id = self.listed_bit(d)?;
        if self.is_of(id.number(), Function::Bit(d), places) {
            Some(id)
        } else {
            None
        }
    }

    /// Keeps what is known of the next node, and tells whether it did.
    fn enter(&mut self, number: u32, summary: Summary) -> bool
        ensures { (g : Terms) → AreRight g self.old → number < length g.nodes → IsSummary g self.old.forest number summary → AreRight g self.new }
    {
        if self.summaries.len() != number as usize {
            return false;
        }
        let Ok(()) = self.summaries.push(summary) else {
            return false;
        };
        true
    }

    fn list_word(&mut self, word: Vector, id: WordId)
        ensures { self.new ≡ self.old }
    {
        let _listed = self.words.insert(word, id).is_ok();
    }

    fn list_bit(&mut self, bit: Diagram, id: BitId)
        ensures { self.new ≡ self.old }
    {
        let _listed = self.bits.insert(bit, id).is_ok();
    }

    /// Keeps what is known of the next word, unless memory is wanting or nothing is known of an earlier node.
    pub fn enter_word(&mut self, id: WordId, summary: Summary)
        ensures right { (g : Terms) → AreRight g self.old → id.number < length g.nodes → IsSummary g self.old.forest id.number summary → AreRight g self.new }
    {
        if self.enter(id.number(), summary) {
            if let Some(Function::Word(word)) = summary.function {
                self.list_word(word, id);
            }
        }
    }

    /// Keeps what is known of the next bit, unless memory is wanting or nothing is known of an earlier node.
    pub fn enter_bit(&mut self, id: BitId, summary: Summary)
        ensures right { (g : Terms) → AreRight g self.old → id.number < length g.nodes → IsSummary g self.old.forest id.number summary → AreRight g self.new }
    {
        if self.enter(id.number(), summary) {
            if let Some(Function::Bit(bit)) = summary.function {
                self.list_bit(bit, id);
            }
        }
    }
}
