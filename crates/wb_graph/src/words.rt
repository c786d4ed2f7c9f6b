//! What the bits of a word are, of what those of its operands are.
ghost use Rattle.std.specs.Prelude.{◌≡◌, ◌+◌, ◌-◌, ◌*◌, ◌/◌, ◌%◌, ◌^◌, ◌<◌, ℕ, if◌then◌else◌, IfOk, IfSome, length, slice_index};
ghost use Rattle.wb_vector.specs.Operations.{OperationThere};
ghost use Rattle.wb_term.specs.Numbers.{bit, cut, less};
ghost use Rattle.wb_term.specs.Terms.{Terms, IsWordPlaced, IsKept, table_words};
ghost use Rattle.wb_term.specs.Values.{word_value, bit_value, word_node_value};
ghost use Rattle.wb_graph.specs.Functions.{IsBoard, IsWordFunction, IsCombined, AreRight, Keeps};

use crate::functions::Functions;
use std::alloc::Global;
use wb_term::{BitId, Graph as Terms, OutOfMemory, Table, WordId, WordNode};
use wb_vector::{
    Operation, Vector, combine_words, constant_word, difference_of, inverted, look, shifted_left,
    shifted_right, sum_of, variables,
};

/// The words of a data table.
fn table_of(alloc: Global, terms: &Terms, table: Table) -> Result<Vec<u16>, OutOfMemory>
    requires { IsKept terms.now.tables table }
    ensures count { IfOk result (λ words. length words.items ≡ 1024) }
    ensures words { IfOk result (λ words. (k : ℕ) → k < 1024 → slice_index words.items k ≡ slice_index (table_words terms.now.tables table) k) }
{
    let mut words = Vec::with_capacity(alloc, 1024)?;
    for at in 0..1024u16 {
        words.push(terms.table_at(table, at))?;
    }
    Ok(words)
}

/// Whether a word is of a kind whose diagrams grow fast.
pub fn word_is_sum(node: WordNode) -> bool {
    matches!(
        node,
        WordNode::Sum(..) | WordNode::Diff(..) | WordNode::Xor(..)
    )
}

impl Functions {
    /// What the bits of a word are that may not be there yet, where they are made within the node's steps.
    pub fn word_function(&mut self, terms: &Terms, node: WordNode) -> Option<Vector>
        requires placed { IsWordPlaced terms.now node }
        requires right { AreRight terms.now self.old }
        ensures function { IfSome result (IsWordFunction terms.now self.new.forest
            (λ inputs. word_node_value terms.now.tables inputs (word_value inputs terms.now) (bit_value inputs terms.now) node)) }
        ensures keeps { Keeps self.old self.new }
    {
        match node {
            WordNode::Const(value) => Some(constant_word(&self.diagrams, value)),
            WordNode::Byte(place) => self.byte_function(place),
            WordNode::Cell(_) | WordNode::High(..) | WordNode::Low(..) => None,
            WordNode::Not(x) => self.inverted_function(x),
            WordNode::And(x, y) => self.combined(Operation::And, x, y),
            WordNode::Or(x, y) => self.combined(Operation::Or, x, y),
            WordNode::Xor(x, y) => self.combined(Operation::Xor, x, y),
            WordNode::Ite(c, x, y) => self.chosen(c, x, y),
            WordNode::Sum(x, y, c) => self.sum_function(x, y, c),
            WordNode::Diff(x, y, c) => self.difference_function(x, y, c),
            WordNode::Shl(x, count) => self.shifted_left_function(x, count),
            WordNode::Shr(x, count) => self.shifted_right_function(x, count),
            WordNode::Look(table, x) => self.looked_up(terms, table, x),
        }
    }

    fn byte_function(&mut self, place: u8) -> Option<Vector>
        requires { place < 16 }
        ensures function { IfSome result (λ w. (g : Terms) → AreRight g self.old → IsWordFunction g self.new.forest
            (λ inputs. slice_index inputs.bytes place) w) }
        ensures keeps { Keeps self.old self.new }
    {
        let mut names = [0u32; 8];
        for bit in 0..8u8 {
            names[usize::from(bit)] = self.order.variable_of(place, bit);
        }
        variables(&mut self.diagrams, &names).ok()
    }

    fn inverted_function(&mut self, x: WordId) -> Option<Vector>
        requires { IsBoard self.old }
        ensures function { IfSome result (λ w. (g : Terms) → AreRight g self.old → IsWordFunction g self.new.forest
            (λ inputs. 65535 - word_value inputs g x) w) }
        ensures keeps { Keeps self.old self.new }
    {
        let x = self.word(x)?;
        inverted(&mut self.diagrams, &x, &mut self.node_steps).ok()
    }

    fn combined(&mut self, operation: Operation, x: WordId, y: WordId) -> Option<Vector>
        requires board { IsBoard self.old }
        requires operation { OperationThere self.old.forest operation }
        ensures combined { IfSome result (λ w. (g : Terms) → AreRight g self.old →
            IsCombined g self.old.forest self.new.forest operation x y w) }
        ensures keeps { Keeps self.old self.new }
    {
        let x = self.word(x)?;
        let y = self.word(y)?;
        combine_words(&mut self.diagrams, operation, &x, &y, &mut self.node_steps).ok()
    }

    fn chosen(&mut self, c: BitId, x: WordId, y: WordId) -> Option<Vector>
        requires { IsBoard self.old }
        ensures function { IfSome result (λ w. (g : Terms) → AreRight g self.old → IsWordFunction g self.new.forest
            (λ inputs. if bit_value inputs g c then word_value inputs g x else word_value inputs g y) w) }
        ensures keeps { Keeps self.old self.new }
    {
        let c = self.bit(c)?;
        self.combined(Operation::Choose(c), x, y)
    }

    fn sum_function(&mut self, x: WordId, y: WordId, c: BitId) -> Option<Vector>
        requires { IsBoard self.old }
        ensures function { IfSome result (λ w. (g : Terms) → AreRight g self.old → IsWordFunction g self.new.forest
            (λ inputs. cut (word_value inputs g x + word_value inputs g y + bit (bit_value inputs g c))) w) }
        ensures keeps { Keeps self.old self.new }
    {
        let x = self.word(x)?;
        let y = self.word(y)?;
        let c = self.bit(c)?;
        sum_of(&mut self.diagrams, &x, &y, c, &mut self.node_steps).ok()
    }

    fn difference_function(&mut self, x: WordId, y: WordId, c: BitId) -> Option<Vector>
        requires { IsBoard self.old }
        ensures function { IfSome result (λ w. (g : Terms) → AreRight g self.old → IsWordFunction g self.new.forest
            (λ inputs. less (word_value inputs g x) (word_value inputs g y + bit (bit_value inputs g c))) w) }
        ensures keeps { Keeps self.old self.new }
    {
        let x = self.word(x)?;
        let y = self.word(y)?;
        let c = self.bit(c)?;
        difference_of(&mut self.diagrams, &x, &y, c, &mut self.node_steps).ok()
    }

    fn shifted_left_function(&self, x: WordId, count: u8) -> Option<Vector>
        requires board { IsBoard self.now }
        requires count { count < 16 }
        ensures { IfSome result (λ w. (g : Terms) → AreRight g self.now → IsWordFunction g self.now.forest
            (λ inputs. cut (word_value inputs g x * 2 ^ count)) w) }
    {
        let x = self.word(x)?;
        Some(shifted_left(&self.diagrams, &x, usize::from(count)))
    }

    fn shifted_right_function(&self, x: WordId, count: u8) -> Option<Vector>
        requires board { IsBoard self.now }
        requires count { count < 16 }
        ensures { IfSome result (λ w. (g : Terms) → AreRight g self.now → IsWordFunction g self.now.forest
            (λ inputs. word_value inputs g x / 2 ^ count) w) }
    {
        let x = self.word(x)?;
        Some(shifted_right(&self.diagrams, &x, usize::from(count)))
    }

    fn looked_up(&mut self, terms: &Terms, table: Table, x: WordId) -> Option<Vector>
        requires right { AreRight terms.now self.old }
        requires kept { IsKept terms.now.tables table }
        ensures function { IfSome result (IsWordFunction terms.now self.new.forest
            (λ inputs. slice_index (table_words terms.now.tables table) (word_value inputs terms.now x % 1024))) }
        ensures keeps { Keeps self.old self.new }
    {
        let x = self.word(x)?;
        let words = table_of(self.alloc, terms, table).ok()?;
        look(
            &mut self.diagrams,
            words.as_slice(),
            &x,
            &mut self.node_steps,
        )
        .ok()
    }
}
