ghost use Rattle.std.specs.Prelude.{◌≡◌, ◌<◌, ℕ, Bool, true, false, not, ◌&&◌, ◌||◌, if◌then◌else◌, IfOk, IfErr};
ghost use Rattle.std.specs.Bool.{beq};
ghost use Rattle.wb_diagram.specs.Forest.{HasDiagram};
ghost use Rattle.wb_diagram.specs.Values.{value, IsFunction};
ghost use Rattle.wb_diagram.specs.Growth.{Grown, IsRefusal};
ghost use Rattle.wb_diagram.specs.Choices.{IsImplied, AreDisjoint};

use crate::diagrams::{DEPTH, Diagrams};
use crate::nodes::{Choice, Diagram};
use crate::refused::Refused;

impl Diagrams {
    /// The diagram of a variable.
    pub fn variable(&mut self, variable: u32) -> Result<Diagram, Refused>
        requires { variable < 4294967295 }
        ensures value { IfOk result (λ d. IsFunction self.new d (λ v. v variable)) }
        ensures grown { Grown self.old self.new }
        ensures refused { IfErr result (λ cause. (steps : ℕ) → IsRefusal self.new steps cause) }
    {
        let low = self.leaf(false);
        let high = self.leaf(true);
        self.join(variable, low, high)
    }

    /// The diagram that is `yes` where `test` is true, else `no`.
    ///
    /// Each look at a choice whose diagram isn't known yet takes one of the steps.
    pub fn ite(
        &mut self,
        test: Diagram,
        yes: Diagram,
        no: Diagram,
        steps: &mut u32,
    ) -> Result<Diagram, Refused>
        requires test { HasDiagram self.old test }
        requires yes { HasDiagram self.old yes }
        requires no { HasDiagram self.old no }
        ensures value { IfOk result (λ d. IsFunction self.new d
            (λ v. if value v self.old test then value v self.old yes else value v self.old no)) }
        ensures grown { Grown self.old self.new }
        ensures refused { IfErr result (IsRefusal self.new steps.new) }
    {
        self.choose(Choice { test, yes, no }, DEPTH, steps)
    }

    pub fn not(&mut self, d: Diagram, steps: &mut u32) -> Result<Diagram, Refused>
        requires { HasDiagram self.old d }
        ensures value { IfOk result (λ e. IsFunction self.new e (λ v. not (value v self.old d))) }
        ensures grown { Grown self.old self.new }
        ensures refused { IfErr result (IsRefusal self.new steps.new) }
    {
        let yes = self.leaf(false);
        let no = self.leaf(true);
        self.ite(d, yes, no, steps)
    }

    pub fn and(&mut self, a: Diagram, b: Diagram, steps: &mut u32) -> Result<Diagram, Refused>
        requires a { HasDiagram self.old a }
        requires b { HasDiagram self.old b }
        ensures value { IfOk result (λ d. IsFunction self.new d (λ v. value v self.old a && value v self.old b)) }
        ensures grown { Grown self.old self.new }
        ensures refused { IfErr result (IsRefusal self.new steps.new) }
    {
        let no = self.leaf(false);
        self.ite(a, b, no, steps)
    }

    pub fn or(&mut self, a: Diagram, b: Diagram, steps: &mut u32) -> Result<Diagram, Refused>
        requires a { HasDiagram self.old a }
        requires b { HasDiagram self.old b }
        ensures value { IfOk result (λ d. IsFunction self.new d (λ v. value v self.old a || value v self.old b)) }
        ensures grown { Grown self.old self.new }
        ensures refused { IfErr result (IsRefusal self.new steps.new) }
    {
        let yes = self.leaf(true);
        self.ite(a, yes, b, steps)
    }

    pub fn xor(&mut self, a: Diagram, b: Diagram, steps: &mut u32) -> Result<Diagram, Refused>
        requires a { HasDiagram self.old a }
        requires b { HasDiagram self.old b }
        ensures value { IfOk result (λ d. IsFunction self.new d (λ v. not (beq (value v self.old a) (value v self.old b)))) }
        ensures grown { Grown self.old self.new }
        ensures refused { IfErr result (IsRefusal self.new steps.new) }
    {
        let other = self.not(b, steps)?;
        self.ite(a, other, b, steps)
    }

    /// Whether the second diagram is true wherever the first is. It makes no node.
    pub fn implies(&mut self, a: Diagram, b: Diagram, steps: &mut u32) -> Result<bool, Refused>
        requires a { HasDiagram self.old a }
        requires b { HasDiagram self.old b }
        ensures answer { IfOk result (IsImplied self.old a b) }
        ensures same { self.new ≡ self.old }
        ensures refused { IfErr result (IsRefusal self.new steps.new) }
    {
        let no = self.leaf(true);
        let choice = Choice {
            test: a,
            yes: b,
            no,
        };
        self.decide(choice, true, DEPTH, steps)
    }

    /// Whether the two diagrams are nowhere both true. It makes no node.
    pub fn disjoint(&mut self, a: Diagram, b: Diagram, steps: &mut u32) -> Result<bool, Refused>
        requires a { HasDiagram self.old a }
        requires b { HasDiagram self.old b }
        ensures answer { IfOk result (AreDisjoint self.old a b) }
        ensures same { self.new ≡ self.old }
        ensures refused { IfErr result (IsRefusal self.new steps.new) }
    {
        let no = self.leaf(false);
        let choice = Choice {
            test: a,
            yes: b,
            no,
        };
        self.decide(choice, false, DEPTH, steps)
    }
}
