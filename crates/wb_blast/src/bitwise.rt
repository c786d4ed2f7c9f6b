//! Circuits that work bit by bit on words.
ghost use Rattle.std.specs.Prelude.{◌≡◌, ◌+◌, ◌-◌, ◌≤◌, ℕ, IfOk, length};
ghost use Rattle.wb_gate.specs.Circuit.{Assignment, variables};
ghost use Rattle.wb_gate.specs.Growth.{Extends};
ghost use Rattle.wb_equal.specs.Entries.{entry_value, EntryBelow, IsEntry};
ghost use Rattle.wb_blast.specs.Operations.{on_bits, on_numbers, OperationBelow};
ghost use Rattle.wb_blast.specs.Words.{number, AreBelow, IsNumber};

use crate::words::Word;
use wb_equal::{Entry, Sharing, and, mux, negation, or, xor};
use wb_word::OutOfMemory;

/// What is done to each two bits.
#[derive(Clone, Copy, PartialEq, Eq, Debug)]
pub enum Operation {
    And,
    Or,
    Xor,
    /// The first where the entry is true, else the second.
    Choose(Entry),
}

fn combine(
    formula: &mut Sharing,
    operation: Operation,
    x: Entry,
    y: Entry,
) -> Result<Entry, OutOfMemory>
    requires operation_there { OperationBelow (variables formula.old) operation }
    requires x_there { EntryBelow (variables formula.old) x }
    requires y_there { EntryBelow (variables formula.old) y }
    requires room { length formula.old.gates + 1 ≤ formula.old.limit }
    ensures means { IfOk result (λ e. IsEntry formula.new e (λ v. on_bits v operation (entry_value v x) (entry_value v y))) }
    ensures extends { IfOk result (λ _. Extends formula.old formula.new 1) }
{
    match operation {
        Operation::And => and(formula, x, y),
        Operation::Or => or(formula, x, y),
        Operation::Xor => xor(formula, x, y),
        Operation::Choose(c) => mux(formula, c, x, y),
    }
}

/// Two words combined bit by bit.
pub fn combine_words(
    formula: &mut Sharing,
    operation: Operation,
    x: &Word,
    y: &Word,
) -> Result<Word, OutOfMemory>
    requires operation_there { OperationBelow (variables formula.old) operation }
    requires x_there { AreBelow (variables formula.old) x.now }
    requires y_there { AreBelow (variables formula.old) y.now }
    requires room { length formula.old.gates + 16 ≤ formula.old.limit }
    ensures means { IfOk result (λ w. IsNumber formula.new w (λ v. on_numbers v operation (number v x.now) (number v y.now))) }
    ensures extends { IfOk result (λ _. Extends formula.old formula.new 16) }
{
    let mut done = [Entry::F; 16];
    for at in 0..16 {
        let entry = combine(formula, operation, x[at], y[at])?;
        done[at] = entry;
    }
    Ok(done)
}

/// The word with each bit inverted.
pub fn inverted(x: &Word) -> Word
    ensures value { (v : Assignment) → number v result ≡ 65535 - number v x.now }
    ensures there { (n : ℕ) → AreBelow n x.now → AreBelow n result }
{
    let mut done = [Entry::F; 16];
    for at in 0..16 {
        done[at] = negation(x[at]);
    }
    done
}

/// The word of a number, each bit a constant.
pub fn constant_word(word: u16) -> Word
    ensures value { (v : Assignment) → number v result ≡ word }
    ensures there { (n : ℕ) → AreBelow n result }
{
    let mut done = [Entry::F; 16];
    for at in 0..16 {
        done[at] = constant((word >> at) & 1 == 1);
    }
    done
}

/// The entry of a known bit.
pub fn constant(bit: bool) -> Entry
    ensures value { (v : Assignment) → entry_value v result ≡ bit }
    ensures there { (n : ℕ) → EntryBelow n result }
{
    if bit { Entry::T } else { Entry::F }
}
