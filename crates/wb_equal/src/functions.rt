//! What the variables of a formula say, as decision diagrams over these variables.
ghost use Rattle.std.specs.Prelude.{◌≡◌, ◌+◌, ◌<◌, ◌≤◌, ◌++◌, [], ◌∷◌, ℕ, Bool, true, false, not, ◌&&◌, ◌||◌, if◌then◌else◌, IfOk, IfErr, OnOk, OnErr, IfSome, Some, length, slice_get};
ghost use Rattle.wb_diagram.specs.Forest.{HasDiagram};
ghost use Rattle.wb_diagram.specs.Values.{value, IsFunction, IsLeaf};
ghost use Rattle.wb_diagram.specs.Growth.{Grown};
ghost use Rattle.wb_gate.specs.Circuit.{Assignment, gate_value, lit_value};
ghost use Rattle.wb_equal.specs.Entries.{entry_value, EntryBelow};
ghost use Rattle.wb_equal.specs.Order.{named};
ghost use Rattle.wb_equal.specs.Functions.{IsBoard, HasFunction, HasKnown, Says, SaysKnown, AreRight, IsDiagramOf, IsFunctionOf, IsKnownOf, Keeps};

use crate::entries::{Entry, minus};
use crate::order::Order;
use crate::rooms::Rooms;
use indexmap::IndexMap;
use std::alloc::Global;
use std::marker::Model;
use wb_diagram::{Diagram, Diagrams, Refused, Turn};
use wb_gate::{Gate, Lit};
use wb_word::OutOfMemory;

/// How many choices between diagrams are kept.
const PLACES: usize = 1 << 16;

/// A diagram that took no more steps is small, which saves counting its nodes.
const FEW_STEPS: u32 = 16;

/// A function and its negation.
#[derive(Clone, Copy, PartialEq, Eq, Debug)]
pub struct Function {
    pub(crate) yes: Diagram,
    pub(crate) no: Diagram,
}

impl Function {
    /// The diagram of the function, or that of its negation.
    fn side(&self, negated: bool) -> Diagram
        ensures { result ≡ (if negated then self.now.no else self.now.yes) }
    {
        if negated { self.no } else { self.yes }
    }

    /// The one of both diagrams by which the function is looked up.
    fn key(&self) -> Diagram {
        if self.yes.number() < self.no.number() {
            self.yes
        } else {
            self.no
        }
    }
}

/// What is known of a variable.
#[derive(Clone, Copy, PartialEq, Eq, Debug)]
pub struct Known {
    /// What it says, as far as it was found.
    pub(crate) whole: Option<Function>,
    /// What stands for it in the diagrams of later gates: what it says where that is small, else the variable itself.
    pub(crate) taken: Option<Function>,
}

/// The diagrams of a formula's variables.
#[derive(Drop)]
pub struct Functions {
    alloc: Global,
    diagrams: Diagrams,
    order: Order,
    variables: Vec<Known>,
    /// The variable of a function, by its key.
    numbers: IndexMap<Diagram, u32>,
    rooms: Rooms,
    /// What is left of the formula's steps.
    steps: u32,
    /// What is left of the gate's steps.
    gate_steps: u32,
    /// How many steps the gate took.
    spent: u32,
    /// With fewer nodes the gate's diagram stands for its variable.
    nodes: u32,
    /// Whether gates stand for themselves at once.
    plain: bool,
}

impl Model for Functions {
    ghost use Rattle.wb_equal.specs.Functions.{Board, IsBoard};

    ghost Value = { Board };

    ghost view = { λ f. record { forest = f.diagrams; names = f.order; variables = f.variables.items } };

    ghost invariant = { λ f. IsBoard (record { forest = f.diagrams; names = f.order; variables = f.variables.items }) };
}

impl Functions {
    /// Those of so many inputs, each of which is itself, with the order in which diagrams ask for them and what they
    /// may take.
    pub fn of_inputs(
        alloc: Global,
        inputs: u32,
        order: &[u32],
        rooms: Rooms,
    ) -> Result<Self, OutOfMemory>
        ensures few { IfOk result (λ functions. length functions.variables ≤ inputs) }
        ensures right { IfOk result (λ functions. (v : Assignment) → AreRight v functions) }
    {
        let mut functions = Functions {
            alloc,
            diagrams: Diagrams::new(alloc, rooms.all_nodes(), PLACES)?,
            order: Order::new(alloc, order)?,
            variables: Vec::new(alloc),
            numbers: IndexMap::new(alloc),
            rooms,
            steps: rooms.steps,
            gate_steps: 0,
            spent: 0,
            nodes: 0,
            plain: false,
        };
        for input in 0..inputs {
            functions.enter(input, None)?;
        }
        Ok(functions)
    }

    /// From here on each gate stands for itself at once, or no longer.
    pub fn set_plain(&mut self, plain: bool)
        ensures { self.new ≡ self.old }
    {
        self.plain = plain;
    }

    fn known_at(&self, var: u32) -> Option<Known>
        ensures at { IfSome result (λ known. slice_get self.now.variables var ≡ Some known) }
        ensures there { IfSome result (λ _. var < length self.now.variables) }
        ensures board { IsBoard self.now }
    {
        let known = self.variables.get(var as usize)?;
        Some(*known)
    }

    /// What is known of a variable.
    fn known(&self, var: u32) -> Option<Known>
        ensures known { IfSome result (IsKnownOf self.now (λ v. v var)) }
        ensures there { IfSome result (λ _. var < length self.now.variables) }
    {
        let known = self.known_at(var)?;
        Some(known)
    }

    /// What a variable says.
    fn whole(&self, var: u32) -> Option<Function>
        ensures says { IfSome result (IsFunctionOf self.now (λ v. v var)) }
        ensures there { IfSome result (λ _. var < length self.now.variables) }
    {
        match self.known(var) {
            Some(known) => known.whole,
            None => None,
        }
    }

    /// The variable of the formula for which a variable of the diagrams stands.
    pub(crate) fn name(&self, variable: u32) -> u32 {
        self.order.name(variable)
    }

    /// The path of a literal's diagram to true that goes low wherever it can.
    pub(crate) fn path_of(
        &self,
        alloc: Global,
        lit: Lit,
    ) -> Result<Option<Vec<Turn>>, OutOfMemory> {
        let Some(whole) = self.whole(lit.var) else {
            return Ok(None);
        };
        self.diagrams.path(alloc, whole.side(lit.neg), false)
    }

    /// What stands for a variable.
    fn taken(&self, var: u32) -> Option<Function>
        ensures { IfSome result (IsFunctionOf self.now (λ v. v var)) }
    {
        match self.known(var) {
            Some(known) => known.taken,
            None => None,
        }
    }

    /// What stands for a literal.
    fn side(&self, lit: Lit) -> Option<Diagram>
        ensures { IfSome result (IsDiagramOf self.now (λ v. lit_value v lit)) }
    {
        let taken = self.taken(lit.var)?;
        Some(taken.side(lit.neg))
    }

    fn leaf(&self, constant: bool) -> Diagram
        ensures { IsDiagramOf self.now (λ _. constant) result }
    {
        self.diagrams.leaf(constant)
    }

    /// The diagram of a choice, within the gate's steps.
    #[tactic(auto, using(crate::proofs::Boards::board_grows, crate::proofs::Boards::keeps))]
    fn choose(&mut self, test: Diagram, yes: Diagram, no: Diagram) -> Result<Diagram, Refused>
        requires test { HasDiagram self.old.forest test }
        requires yes { HasDiagram self.old.forest yes }
        requires no { HasDiagram self.old.forest no }
        ensures value { IfOk result (λ d. IsFunction self.new.forest d
            (λ v. if value v self.old.forest test then value v self.old.forest yes else value v self.old.forest no)) }
        ensures keeps { Keeps self.old self.new }
    {
        self.diagrams.ite(test, yes, no, &mut self.gate_steps)
    }

    /// The diagram of a negation, within the gate's steps.
    #[tactic(auto, using(crate::proofs::Boards::board_grows, crate::proofs::Boards::keeps))]
    fn negated(&mut self, d: Diagram) -> Result<Diagram, Refused>
        requires { HasDiagram self.old.forest d }
        ensures value { IfOk result (λ e. IsFunction self.new.forest e (λ v. not (value v self.old.forest d))) }
        ensures keeps { Keeps self.old self.new }
    {
        self.diagrams.not(d, &mut self.gate_steps)
    }

    /// The diagram that a variable of the diagrams is itself.
    fn variable(&mut self, variable: u32) -> Result<Diagram, Refused>
        requires { variable < 4294967295 }
        ensures value { IfOk result (λ d. IsFunction self.new.forest d (λ v. v variable)) }
        ensures keeps { Keeps self.old self.new }
    {
        self.diagrams.variable(variable)
    }

    /// The variable of the diagrams that stands for a variable of the formula.
    fn place_of(&self, var: u32) -> Option<u32>
        ensures there { IfSome result (λ variable. variable < 4294967295) }
        ensures stands { IfSome result (λ variable. (v : Assignment) → named self.now.names v variable ≡ v var) }
    {
        let variable = self.order.variable_of(var)?;
        if variable == u32::MAX {
            None
        } else {
            Some(variable)
        }
    }

    /// The diagram of a choice between literals.
    fn choice_of(&mut self, test: Lit, yes: Diagram, no: Diagram) -> Option<Diagram>
        requires yes { HasDiagram self.old.forest yes }
        requires no { HasDiagram self.old.forest no }
        ensures value { IfSome result (λ d. (a b : Assignment → Bool) → IsDiagramOf self.old a yes → IsDiagramOf self.old b no →
            IsDiagramOf self.new (λ v. if lit_value v test then a v else b v) d) }
        ensures keeps { Keeps self.old self.new }
    {
        let test = self.side(test)?;
        let Ok(chosen) = self.choose(test, yes, no) else {
            return None;
        };
        Some(chosen)
    }

    fn both_of(&mut self, x: Lit, y: Lit) -> Option<Diagram>
        ensures value { IfSome result (IsDiagramOf self.new (λ v. lit_value v x && lit_value v y)) }
        ensures keeps { Keeps self.old self.new }
    {
        let yes = self.side(y)?;
        let no = self.leaf(false);
        self.choice_of(x, yes, no)
    }

    fn either_of(&mut self, x: Lit, y: Lit) -> Option<Diagram>
        ensures value { IfSome result (IsDiagramOf self.new (λ v. lit_value v x || lit_value v y)) }
        ensures keeps { Keeps self.old self.new }
    {
        let yes = self.leaf(true);
        let no = self.side(y)?;
        self.choice_of(x, yes, no)
    }

    fn mux_of(&mut self, test: Lit, x: Lit, y: Lit) -> Option<Diagram>
        ensures value { IfSome result (IsDiagramOf self.new (λ v. if lit_value v test then lit_value v x else lit_value v y)) }
        ensures keeps { Keeps self.old self.new }
    {
        let yes = self.side(x)?;
        let no = self.side(y)?;
        self.choice_of(test, yes, no)
    }

    fn majority_of(&mut self, x: Lit, y: Lit, z: Lit) -> Option<Diagram>
        ensures value { IfSome result (IsDiagramOf self.new (λ v.
            (lit_value v x && lit_value v y) || (lit_value v x && lit_value v z) || (lit_value v y && lit_value v z))) }
        ensures keeps { Keeps self.old self.new }
    {
        let either = self.either_of(y, z)?;
        let both = self.both_of(y, z)?;
        self.choice_of(x, either, both)
    }

    /// The diagram of a gate, over what stands for its literals.
    fn diagram_of(&mut self, gate: Gate) -> Option<Diagram>
        ensures value { IfSome result (IsDiagramOf self.new (λ v. gate_value v gate)) }
        ensures keeps { Keeps self.old self.new }
    {
        match gate {
            Gate::And(x, y) => self.both_of(x, y),
            Gate::Xor(x, y) => self.mux_of(x, minus(y), y),
            Gate::Mux(test, x, y) => self.mux_of(test, x, y),
            Gate::Maj(x, y, z) => self.majority_of(x, y, z),
        }
    }

    fn both_sides(&mut self, gate: Gate) -> Option<Function>
        ensures value { IfSome result (IsFunctionOf self.new (λ v. gate_value v gate)) }
        ensures keeps { Keeps self.old self.new }
    {
        let yes = self.diagram_of(gate)?;
        let Ok(no) = self.negated(yes) else {
            return None;
        };
        Some(Function { yes, no })
    }

    /// The function of a gate, where its diagram is made within the steps that are left.
    pub fn function_of(&mut self, gate: Gate) -> Option<Function>
        ensures value { IfSome result (IsFunctionOf self.new (λ v. gate_value v gate)) }
        ensures keeps { Keeps self.old self.new }
    {
        let room = self.rooms.room_of(gate, self.plain);
        let granted = self.steps.min(room.steps);
        self.gate_steps = granted;
        self.nodes = room.nodes;
        let function = self.both_sides(gate);
        self.spent = granted.saturating_sub(self.gate_steps);
        self.steps = self.steps.saturating_sub(self.spent);
        function
    }

    /// The constant or the literal that has a function, where that was found.
    pub fn entry_of(&self, function: Option<Function>) -> Option<Entry>
        ensures value { IfSome result (λ entry. (m : Assignment → Bool) → IfSome function (IsFunctionOf self.now m) →
            (v : Assignment) → AreRight v self.now → entry_value v entry ≡ m v) }
        ensures there { IfSome result (EntryBelow (length self.now.variables)) }
    {
        let function = function?;
        self.entry_like(function)
    }

    /// The constant or the literal that has a function.
    fn entry_like(&self, function: Function) -> Option<Entry>
        ensures value { IfSome result (λ entry. (v : Assignment) → AreRight v self.now → entry_value v entry ≡ value (named self.now.names v) self.now.forest function.yes) }
        ensures there { IfSome result (EntryBelow (length self.now.variables)) }
    {
        if function.yes == self.leaf(true) {
            Some(Entry::T)
        } else if function.yes == self.leaf(false) {
            Some(Entry::F)
        } else {
            let lit = self.literal_of(function)?;
            Some(Entry::Lit(lit))
        }
    }

    /// The literal that has a function.
    fn literal_of(&self, function: Function) -> Option<Lit>
        ensures value { IfSome result (λ lit. (v : Assignment) → AreRight v self.now → lit_value v lit ≡ value (named self.now.names v) self.now.forest function.yes) }
        ensures there { IfSome result (λ lit. lit.var < length self.now.variables) }
    {
        let var = *self.numbers.get(&function.key())?;
        let whole = self.whole(var)?;
        if whole.yes == function.yes {
            Some(Lit { var, neg: false })
        } else if whole.no == function.yes {
            Some(Lit { var, neg: true })
        } else {
            None
        }
    }

    /// The function that a variable is itself.
    fn own(&mut self, var: u32) -> Option<Function>
        ensures there { IfSome result (HasFunction self.new.forest) }
        ensures says { IfSome result (λ function. (v : Assignment) → Says (named self.new.names v) self.new.forest (v var) function) }
        ensures keeps { Keeps self.old self.new }
    {
        let variable = self.place_of(var)?;
        self.gate_steps = FEW_STEPS;
        let Ok(yes) = self.variable(variable) else {
            return None;
        };
        let Ok(no) = self.negated(yes) else {
            return None;
        };
        Some(Function { yes, no })
    }

    /// Whether the diagram of the gate that was last asked is small.
    fn is_small(&self, d: Diagram) -> bool
        requires { HasDiagram self.now.forest d }
    {
        if self.spent <= FEW_STEPS {
            return true;
        }
        let Ok(size) = self.diagrams.size(self.alloc, d, self.nodes) else {
            return false;
        };
        size < self.nodes
    }

    /// What is to be known of a variable, where its function was found or not.
    fn known_of(&mut self, var: u32, function: Option<Function>) -> Known
        requires there { IfSome function (HasFunction self.old.forest) }
        ensures there { HasKnown self.new.forest result }
        ensures says { (v : Assignment) → IfSome function (Says (named self.old.names v) self.old.forest (v var)) → SaysKnown (named self.new.names v) self.new.forest (v var) result }
        ensures keeps { Keeps self.old self.new }
    {
        let own = self.own(var);
        let Some(function) = function else {
            return Known {
                whole: own,
                taken: own,
            };
        };
        let taken = if self.is_small(function.yes) {
            Some(function)
        } else {
            own
        };
        Known {
            whole: Some(function),
            taken,
        }
    }

    fn push(&mut self, known: Known) -> Result<(), OutOfMemory>
        requires { HasKnown self.old.forest known }
        ensures forest { self.new.forest ≡ self.old.forest }
        ensures names { self.new.names ≡ self.old.names }
        ensures ok { OnOk result (self.new.variables ≡ self.old.variables ++ known ∷ []) }
        ensures err { OnErr result (self.new ≡ self.old) }
    {
        let Ok(()) = self.variables.push(known) else {
            return Err(OutOfMemory);
        };
        Ok(())
    }

    /// Notes which variable has a function.
    fn note(&mut self, var: u32) -> Result<(), OutOfMemory>
        ensures { self.new ≡ self.old }
    {
        let Some(whole) = self.whole(var) else {
            return Ok(());
        };
        let Ok(_) = self.numbers.insert(whole.key(), var) else {
            return Err(OutOfMemory);
        };
        Ok(())
    }

    /// Enters the next variable, with its function where that was found. Any other variable is left out.
    pub fn enter(&mut self, var: u32, function: Option<Function>) -> Result<(), OutOfMemory>
        requires there { IfSome function (HasFunction self.old.forest) }
        ensures few { (n : ℕ) → var < n → length self.old.variables ≤ n → length self.new.variables ≤ n }
        ensures right { (v : Assignment) → AreRight v self.old → IfSome function (Says (named self.old.names v) self.old.forest (v var)) → AreRight v self.new }
    {
        if self.variables.len() != var as usize {
            return Ok(());
        }
        let known = self.known_of(var, function);
        self.push(known)?;
        self.note(var)
    }
}
