//! What a bit is, of what its operands are.
ghost use Rattle.std.specs.Prelude.{◌+◌, ◌/◌, ◌%◌, ◌^◌, ◌<◌, ◌==◌, nat_lt, not, ◌&&◌, ◌||◌, if◌then◌else◌, IfSome};
ghost use Rattle.std.specs.Bool.{beq};
ghost use Rattle.wb_term.specs.Numbers.{bit};
ghost use Rattle.wb_term.specs.Terms.{Terms, IsBitPlaced};
ghost use Rattle.wb_term.specs.Values.{word_value, bit_value, bit_node_value};
ghost use Rattle.wb_graph.specs.Functions.{IsBoard, IsBitFunction, AreRight, Keeps};

use crate::functions::Functions;
use wb_diagram::Diagram;
use wb_term::{BitId, BitNode, Graph as Terms, WordId};
use wb_vector::{borrow_of, carry_of, picked, same_of};

/// Whether a bit is of a kind whose diagrams grow fast.
pub fn bit_is_sum(node: BitNode) -> bool {
    matches!(
        node,
        BitNode::Carry(..) | BitNode::Borrow(..) | BitNode::XorB(..)
    )
}

impl Functions {
    /// What a bit is that may not be there yet, where that is made within the node's steps.
    pub fn bit_function(&mut self, terms: &Terms, node: BitNode) -> Option<Diagram>
        requires placed { IsBitPlaced terms.now node }
        requires right { AreRight terms.now self.old }
        ensures function { IfSome result (IsBitFunction terms.now self.new.forest
            (λ inputs. bit_node_value (word_value inputs terms.now) (bit_value inputs terms.now) node)) }
        ensures keeps { Keeps self.old self.new }
    {
        match node {
            BitNode::Known(constant) => Some(self.diagrams.leaf(constant)),
            BitNode::Pick(x, at) => self.picked_function(x, at),
            BitNode::NotB(c) => self.not_function(c),
            BitNode::AndB(c, d) => self.and_function(c, d),
            BitNode::OrB(c, d) => self.or_function(c, d),
            BitNode::XorB(c, d) => self.xor_function(c, d),
            BitNode::IteB(b, c, d) => self.choice_function(b, c, d),
            BitNode::Same(x, y) => self.same_function(x, y),
            BitNode::Carry(x, y, c) => self.carry_function(x, y, c),
            BitNode::Borrow(x, y, c) => self.borrow_function(x, y, c),
        }
    }

    fn picked_function(&self, x: WordId, at: u8) -> Option<Diagram>
        requires board { IsBoard self.now }
        requires at_in { at < 16 }
        ensures { IfSome result (λ made. (g : Terms) → AreRight g self.now → IsBitFunction g self.now.forest
            (λ inputs. word_value inputs g x / 2 ^ at % 2 == 1) made) }
    {
        let x = self.word(x)?;
        Some(picked(&self.diagrams, &x, usize::from(at)))
    }

    fn not_function(&mut self, c: BitId) -> Option<Diagram>
        requires { IsBoard self.old }
        ensures function { IfSome result (λ made. (g : Terms) → AreRight g self.old → IsBitFunction g self.new.forest
            (λ inputs. not (bit_value inputs g c)) made) }
        ensures keeps { Keeps self.old self.new }
    {
        let c = self.bit(c)?;
        self.diagrams.not(c, &mut self.node_steps).ok()
    }

    fn and_function(&mut self, c: BitId, d: BitId) -> Option<Diagram>
        requires { IsBoard self.old }
        ensures function { IfSome result (λ made. (g : Terms) → AreRight g self.old → IsBitFunction g self.new.forest
            (λ inputs. bit_value inputs g c && bit_value inputs g d) made) }
        ensures keeps { Keeps self.old self.new }
    {
        let c = self.bit(c)?;
        let d = self.bit(d)?;
        self.diagrams.and(c, d, &mut self.node_steps).ok()
    }

    fn or_function(&mut self, c: BitId, d: BitId) -> Option<Diagram>
        requires { IsBoard self.old }
        ensures function { IfSome result (λ made. (g : Terms) → AreRight g self.old → IsBitFunction g self.new.forest
            (λ inputs. bit_value inputs g c || bit_value inputs g d) made) }
        ensures keeps { Keeps self.old self.new }
    {
        let c = self.bit(c)?;
        let d = self.bit(d)?;
        self.diagrams.or(c, d, &mut self.node_steps).ok()
    }

    fn xor_function(&mut self, c: BitId, d: BitId) -> Option<Diagram>
        requires { IsBoard self.old }
        ensures function { IfSome result (λ made. (g : Terms) → AreRight g self.old → IsBitFunction g self.new.forest
            (λ inputs. not (beq (bit_value inputs g c) (bit_value inputs g d))) made) }
        ensures keeps { Keeps self.old self.new }
    {
        let c = self.bit(c)?;
        let d = self.bit(d)?;
        self.diagrams.xor(c, d, &mut self.node_steps).ok()
    }

    fn choice_function(&mut self, b: BitId, c: BitId, d: BitId) -> Option<Diagram>
        requires { IsBoard self.old }
        ensures function { IfSome result (λ made. (g : Terms) → AreRight g self.old → IsBitFunction g self.new.forest
            (λ inputs. if bit_value inputs g b then bit_value inputs g c else bit_value inputs g d) made) }
        ensures keeps { Keeps self.old self.new }
    {
        let b = self.bit(b)?;
        let c = self.bit(c)?;
        let d = self.bit(d)?;
        self.diagrams.ite(b, c, d, &mut self.node_steps).ok()
    }

    fn same_function(&mut self, x: WordId, y: WordId) -> Option<Diagram>
        requires { IsBoard self.old }
        ensures function { IfSome result (λ made. (g : Terms) → AreRight g self.old → IsBitFunction g self.new.forest
            (λ inputs. word_value inputs g x == word_value inputs g y) made) }
        ensures keeps { Keeps self.old self.new }
    {
        let x = self.word(x)?;
        let y = self.word(y)?;
        same_of(&mut self.diagrams, &x, &y, &mut self.node_steps).ok()
    }

    fn carry_function(&mut self, x: WordId, y: WordId, c: BitId) -> Option<Diagram>
        requires { IsBoard self.old }
        ensures function { IfSome result (λ made. (g : Terms) → AreRight g self.old → IsBitFunction g self.new.forest
            (λ inputs. nat_lt 65535 (word_value inputs g x + word_value inputs g y + bit (bit_value inputs g c))) made) }
        ensures keeps { Keeps self.old self.new }
    {
        let x = self.word(x)?;
        let y = self.word(y)?;
        let c = self.bit(c)?;
        carry_of(&mut self.diagrams, &x, &y, c, &mut self.node_steps).ok()
    }

    fn borrow_function(&mut self, x: WordId, y: WordId, c: BitId) -> Option<Diagram>
        requires { IsBoard self.old }
        ensures function { IfSome result (λ made. (g : Terms) → AreRight g self.old → IsBitFunction g self.new.forest
            (λ inputs. nat_lt (word_value inputs g x) (word_value inputs g y + bit (bit_value inputs g c))) made) }
        ensures keeps { Keeps self.old self.new }
    {
        let x = self.word(x)?;
        let y = self.word(y)?;
        let c = self.bit(c)?;
        borrow_of(&mut self.diagrams, &x, &y, c, &mut self.node_steps).ok()
    }
}
