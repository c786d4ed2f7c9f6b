ghost use Rattle.std.specs.Prelude.{◌≡◌, ◌≢◌, ◌<◌, ◌≤◌, ℕ, Bool, true, false, not, IfSome, IfNone};
ghost use Rattle.wb_diagram.specs.Forest.{IsForest, HasDiagram, level};
ghost use Rattle.wb_diagram.specs.Values.{value, IsLeaf, Reaches};
ghost use Rattle.wb_diagram.specs.Choices.{HasChoice, IsOver, IsFirst, IsChosen, IsBranch, choice_value};

use crate::diagrams::Diagrams;
use crate::nodes::{Choice, Diagram, Node};

/// The place of a diagram's first variable in the order; the leaves come last.
pub fn level(diagrams: &Diagrams, d: Diagram) -> u32
    requires { HasDiagram diagrams.now d }
    ensures { result ≡ level diagrams.now d }
{
    match diagrams.node_at(d) {
        Node::Leaf(_) => u32::MAX,
        Node::Split { variable, .. } => variable,
    }
}

/// A diagram as it is where a variable is set or not, which is the first or comes before it.
pub fn branch(diagrams: &Diagrams, d: Diagram, variable: u32, side: bool) -> Diagram
    requires there { HasDiagram diagrams.now d }
    requires first { variable ≤ level diagrams.now d }
    requires below_leaves { variable < 4294967295 }
    ensures there { HasDiagram diagrams.now result }
    ensures value { (v : ℕ → Bool) → v variable ≡ side → value v diagrams.now result ≡ value v diagrams.now d }
    ensures over { variable < level diagrams.now result }
{
    match diagrams.node_at(d) {
        Node::Leaf(_) => d,
        Node::Split {
            variable: x,
            low,
            high,
        } => {
            if x != variable {
                d
            } else if side {
                high
            } else {
                low
            }
        },
    }
}

/// The first variable of a choice.
pub fn first_variable(diagrams: &Diagrams, choice: &Choice) -> u32
    requires { HasChoice diagrams.now choice.now }
    ensures { IsFirst diagrams.now choice.now result }
{
    let test = level(diagrams, choice.test);
    let yes = level(diagrams, choice.yes);
    let no = level(diagrams, choice.no);
    test.min(yes).min(no)
}

/// A choice as it is where its first variable is set or not.
pub fn branch_of(diagrams: &Diagrams, choice: &Choice, variable: u32, side: bool) -> Choice
    requires there { HasChoice diagrams.now choice.now }
    requires first { IsFirst diagrams.now choice.now variable }
    requires below_leaves { variable < 4294967295 }
    ensures { IsBranch diagrams.now choice.now variable side result }
{
    Choice {
        test: branch(diagrams, choice.test, variable, side),
        yes: branch(diagrams, choice.yes, variable, side),
        no: branch(diagrams, choice.no, variable, side),
    }
}

/// The diagram of a choice, where it needs no other look than at its test.
pub fn settled(diagrams: &Diagrams, choice: &Choice) -> Option<Diagram>
    requires { HasChoice diagrams.now choice.now }
    ensures some { IfSome result (IsChosen diagrams.now choice.now) }
    ensures none { IfNone result (level diagrams.now choice.now.test < 4294967295) }
{
    match diagrams.node_at(choice.test) {
        Node::Leaf(true) => Some(choice.yes),
        Node::Leaf(false) => Some(choice.no),
        Node::Split { .. } => {
            if choice.yes == choice.no {
                Some(choice.yes)
            } else if is_leaf(diagrams, choice.yes, true) && is_leaf(diagrams, choice.no, false) {
                Some(choice.test)
            } else {
                None
            }
        },
    }
}

/// Whether a diagram is that of a constant.
pub fn is_leaf(diagrams: &Diagrams, d: Diagram, constant: bool) -> bool
    requires { HasDiagram diagrams.now d }
    ensures yes { result ≡ true → IsLeaf diagrams.now constant d }
    ensures no { result ≡ false → Reaches diagrams.now (not constant) d }
    ensures forest { IsForest diagrams.now }
{
    d == diagrams.leaf(constant)
}
