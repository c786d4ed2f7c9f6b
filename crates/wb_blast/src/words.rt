//! Circuits over words: sixteen entries, the lowest bit first.
ghost use Rattle.std.specs.Prelude.{◌≡◌, ◌+◌, ◌≤◌, ◌==◌, nat_lt, IfOk, length};
ghost use Rattle.wb_gate.specs.Circuit.{variables};
ghost use Rattle.wb_gate.specs.Growth.{Extends};
ghost use Rattle.wb_term.specs.Numbers.{bit, cut, less};
ghost use Rattle.wb_equal.specs.Entries.{entry_value, EntryBelow, IsEntry};
ghost use Rattle.wb_blast.specs.Words.{number, AreBelow, IsNumber, IsSumOf};

use crate::bitwise::inverted;
use wb_equal::{Entry, Sharing, majority, negation, or, xor};
use wb_word::OutOfMemory;

/// What the bits of a word are, the lowest first.
pub type Word = [Entry; 16];

/// A full adder: the sum of three bits and its carry.
fn add_bits(
    formula: &mut Sharing,
    x: Entry,
    y: Entry,
    z: Entry,
) -> Result<(Entry, Entry), OutOfMemory>
    requires x_there { EntryBelow (variables formula.old) x }
    requires y_there { EntryBelow (variables formula.old) y }
    requires z_there { EntryBelow (variables formula.old) z }
    requires room { length formula.old.gates + 3 ≤ formula.old.limit }
    ensures means { IfOk result (λ r. IsSumOf formula.new r.0 r.1 x y z) }
    ensures extends { IfOk result (λ _. Extends formula.old formula.new 3) }
{
    let half = xor(formula, x, y)?;
    let sum = xor(formula, half, z)?;
    let carry = majority(formula, x, y, z)?;
    Ok((sum, carry))
}

/// Two words and a carry added: the low 16 bits, and whether the sum is over 65535.
pub fn add_words(
    formula: &mut Sharing,
    x: &Word,
    y: &Word,
    c: Entry,
) -> Result<(Word, Entry), OutOfMemory>
    requires x_there { AreBelow (variables formula.old) x.now }
    requires y_there { AreBelow (variables formula.old) y.now }
    requires c_there { EntryBelow (variables formula.old) c }
    requires room { length formula.old.gates + 48 ≤ formula.old.limit }
    ensures sum { IfOk result (λ r. IsNumber formula.new r.0 (λ v. cut (number v x.now + number v y.now + bit (entry_value v c)))) }
    ensures carry { IfOk result (λ r. IsEntry formula.new r.1 (λ v. nat_lt 65535 (number v x.now + number v y.now + bit (entry_value v c)))) }
    ensures extends { IfOk result (λ _. Extends formula.old formula.new 48) }
{
    let mut sum = [Entry::F; 16];
    let mut carry = c;
    for at in 0..16 {
        let (low, high) = add_bits(formula, x[at], y[at], carry)?;
        sum[at] = low;
        carry = high;
    }
    Ok((sum, carry))
}

/// A word less another and a borrow: the low 16 bits.
pub fn subtract_words(
    formula: &mut Sharing,
    x: &Word,
    y: &Word,
    c: Entry,
) -> Result<Word, OutOfMemory>
    requires x_there { AreBelow (variables formula.old) x.now }
    requires y_there { AreBelow (variables formula.old) y.now }
    requires c_there { EntryBelow (variables formula.old) c }
    requires room { length formula.old.gates + 48 ≤ formula.old.limit }
    ensures difference { IfOk result (λ w. IsNumber formula.new w (λ v. less (number v x.now) (number v y.now + bit (entry_value v c)))) }
    ensures extends { IfOk result (λ _. Extends formula.old formula.new 48) }
{
    let (difference, _) = add_words(formula, x, &inverted(y), negation(c))?;
    Ok(difference)
}

/// Whether two words and a carry are over 65535.
pub fn carry_of(formula: &mut Sharing, x: &Word, y: &Word, c: Entry) -> Result<Entry, OutOfMemory>
    requires x_there { AreBelow (variables formula.old) x.now }
    requires y_there { AreBelow (variables formula.old) y.now }
    requires c_there { EntryBelow (variables formula.old) c }
    requires room { length formula.old.gates + 16 ≤ formula.old.limit }
    ensures means { IfOk result (λ e. IsEntry formula.new e (λ v. nat_lt 65535 (number v x.now + number v y.now + bit (entry_value v c)))) }
    ensures extends { IfOk result (λ _. Extends formula.old formula.new 16) }
{
    let mut carry = c;
    for at in 0..16 {
        let next = majority(formula, x[at], y[at], carry)?;
        carry = next;
    }
    Ok(carry)
}

/// Whether a word is below another and a borrow.
pub fn borrow_of(formula: &mut Sharing, x: &Word, y: &Word, c: Entry) -> Result<Entry, OutOfMemory>
    requires x_there { AreBelow (variables formula.old) x.now }
    requires y_there { AreBelow (variables formula.old) y.now }
    requires c_there { EntryBelow (variables formula.old) c }
    requires room { length formula.old.gates + 16 ≤ formula.old.limit }
    ensures means { IfOk result (λ e. IsEntry formula.new e (λ v. nat_lt (number v x.now) (number v y.now + bit (entry_value v c)))) }
    ensures extends { IfOk result (λ _. Extends formula.old formula.new 16) }
{
    let carry = carry_of(formula, x, &inverted(y), negation(c))?;
    Ok(negation(carry))
}

/// Whether two words are equal.
pub fn same_words(formula: &mut Sharing, x: &Word, y: &Word) -> Result<Entry, OutOfMemory>
    requires x_there { AreBelow (variables formula.old) x.now }
    requires y_there { AreBelow (variables formula.old) y.now }
    requires room { length formula.old.gates + 32 ≤ formula.old.limit }
    ensures means { IfOk result (λ e. IsEntry formula.new e (λ v. number v x.now == number v y.now)) }
    ensures extends { IfOk result (λ _. Extends formula.old formula.new 32) }
{
    let mut differs = Entry::F;
    for at in 0..16 {
        let here = xor(formula, x[at], y[at])?;
        let so_far = or(formula, differs, here)?;
        differs = so_far;
    }
    Ok(negation(differs))
}
