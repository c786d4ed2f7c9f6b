//! Products: twice the signed product of two words, cut to 32 bits. The factors are brought in one order first, so that
//! `x * y` and `y * x` are made of equal gates.
ghost use Rattle.std.specs.Prelude.{◌≡◌, ◌+◌, ◌-◌, ◌*◌, ◌/◌, ◌%◌, ◌≤◌, ℕ, if◌then◌else◌, IfOk, length};
ghost use Rattle.wb_gate.specs.Circuit.{Assignment, variables};
ghost use Rattle.wb_gate.specs.Growth.{Extends};
ghost use Rattle.wb_term.specs.Numbers.{bit, product};
ghost use Rattle.wb_blast.specs.Doubles.{double, extended, cut_double, IsDouble, IsDoubleBelow};
ghost use Rattle.wb_equal.specs.Entries.{entry_value, EntryBelow};
ghost use Rattle.wb_blast.specs.Words.{number, AreBelow, IsNumber};

use crate::bitwise::{Operation, combine_words, constant_word, inverted};
use crate::shifts::shifted_left;
use crate::words::{Word, add_words};
use wb_equal::{Entry, Sharing};
use wb_word::OutOfMemory;

/// What 32 bits are, as a low and a high word.
#[derive(Clone, Copy)]
pub struct Double {
    pub low: Word,
    pub high: Word,
}

/// The word with its highest bit repeated.
fn extend(x: &Word) -> Double
    ensures value { (v : Assignment) → double v result ≡ extended (number v x.now) }
    ensures there { (n : ℕ) → AreBelow n x.now → IsDoubleBelow n result }
{
    Double {
        low: *x,
        high: [x[15]; 16],
    }
}

/// Zero.
fn zero() -> Double
    ensures value { (v : Assignment) → double v result ≡ 0 }
    ensures there { (n : ℕ) → IsDoubleBelow n result }
{
    Double {
        low: constant_word(0),
        high: constant_word(0),
    }
}

/// The word shifted to the left by one, with an entry put in.
fn shifted_in(x: &Word, low: Entry) -> Word
    ensures value { (v : Assignment) → number v result ≡ (2 * number v x.now) % 65536 + bit (entry_value v low) }
    ensures there { (n : ℕ) → AreBelow n x.now → EntryBelow n low → AreBelow n result }
{
    let mut shifted = shifted_left(x, 1);
    shifted[0] = low;
    shifted
}

/// Twice the number.
fn twice(x: &Double) -> Double
    ensures value { (v : Assignment) → double v result ≡ cut_double (2 * double v x.now) }
    ensures there { (n : ℕ) → IsDoubleBelow n x.now → IsDoubleBelow n result }
{
    let low = shifted_in(&x.low, Entry::F);
    let high = shifted_in(&x.high, x.low[15]);
    Double { low, high }
}

/// The number with each bit inverted.
fn complement(x: &Double) -> Double
    ensures few { (v : Assignment) → double v x.now ≤ 4294967295 }
    ensures value { (v : Assignment) → double v result ≡ 4294967295 - double v x.now }
    ensures there { (n : ℕ) → IsDoubleBelow n x.now → IsDoubleBelow n result }
{
    let low = inverted(&x.low);
    let high = inverted(&x.high);
    Double { low, high }
}

/// Two numbers and a carry.
fn add_doubles(
    formula: &mut Sharing,
    x: &Double,
    y: &Double,
    c: Entry,
) -> Result<Double, OutOfMemory>
    requires x_there { IsDoubleBelow (variables formula.old) x.now }
    requires y_there { IsDoubleBelow (variables formula.old) y.now }
    requires c_there { EntryBelow (variables formula.old) c }
    requires room { length formula.old.gates + 96 ≤ formula.old.limit }
    ensures means { IfOk result (λ d. IsDouble formula.new d (λ v. cut_double (double v x.now + double v y.now + bit (entry_value v c)))) }
    ensures extends { IfOk result (λ _. Extends formula.old formula.new 96) }
{
    let (low, carry) = add_words(formula, &x.low, &y.low, c)?;
    let (high, _) = add_words(formula, &x.high, &y.high, carry)?;
    Ok(Double { low, high })
}

/// The number where the entry is true, else zero.
fn masked(formula: &mut Sharing, c: Entry, x: &Double) -> Result<Double, OutOfMemory>
    requires c_there { EntryBelow (variables formula.old) c }
    requires x_there { IsDoubleBelow (variables formula.old) x.now }
    requires room { length formula.old.gates + 32 ≤ formula.old.limit }
    ensures means { IfOk result (λ d. IsDouble formula.new d (λ v. if entry_value v c then double v x.now else 0)) }
    ensures extends { IfOk result (λ _. Extends formula.old formula.new 32) }
{
    let none = constant_word(0);
    let low = combine_words(formula, Operation::Choose(c), &x.low, &none)?;
    let high = combine_words(formula, Operation::Choose(c), &x.high, &none)?;
    Ok(Double { low, high })
}

/// The sum with a row added where the entry is true.
fn add_row(
    formula: &mut Sharing,
    sum: &Double,
    c: Entry,
    row: &Double,
) -> Result<Double, OutOfMemory>
    requires c_there { EntryBelow (variables formula.old) c }
    requires sum_there { IsDoubleBelow (variables formula.old) sum.now }
    requires row_there { IsDoubleBelow (variables formula.old) row.now }
    requires room { length formula.old.gates + 128 ≤ formula.old.limit }
    ensures means { IfOk result (λ d. IsDouble formula.new d (λ v. cut_double (double v sum.now + (if entry_value v c then double v row.now else 0)))) }
    ensures extends { IfOk result (λ _. Extends formula.old formula.new 128) }
{
    let row = masked(formula, c, row)?;
    add_doubles(formula, sum, &row, Entry::F)
}

/// The sum with a row subtracted where the entry is true.
fn subtract_row(
    formula: &mut Sharing,
    sum: &Double,
    c: Entry,
    row: &Double,
) -> Result<Double, OutOfMemory>
    requires c_there { EntryBelow (variables formula.old) c }
    requires sum_there { IsDoubleBelow (variables formula.old) sum.now }
    requires row_there { IsDoubleBelow (variables formula.old) row.now }
    requires room { length formula.old.gates + 128 ≤ formula.old.limit }
    ensures means { IfOk result (λ d. IsDouble formula.new d (λ v. cut_double (double v sum.now + 4294967296 - (if entry_value v c then double v row.now else 0)))) }
    ensures extends { IfOk result (λ _. Extends formula.old formula.new 128) }
{
    let row = masked(formula, c, row)?;
    let rest = add_doubles(formula, sum, &complement(&row), Entry::T)?;
    Ok(rest)
}

/// Twice the signed product of two words, cut to 32 bits: a row for each bit of the second word, of which the last,
/// that of the sign, is subtracted.
fn multiply(formula: &mut Sharing, x: &Word, y: &Word) -> Result<Double, OutOfMemory>
    requires x_there { AreBelow (variables formula.old) x.now }
    requires y_there { AreBelow (variables formula.old) y.now }
    requires room { length formula.old.gates + 2048 ≤ formula.old.limit }
    ensures means { IfOk result (λ d. IsDouble formula.new d (λ v. product (number v x.now) (number v y.now))) }
    ensures extends { IfOk result (λ _. Extends formula.old formula.new 2048) }
{
    let mut sum = zero();
    let mut row = twice(&extend(x));
    for at in 0..15 {
        let more = add_row(formula, &sum, y[at], &row)?;
        sum = more;
        row = twice(&row);
    }
    let product = subtract_row(formula, &sum, y[15], &row)?;
    Ok(product)
}

/// What an entry ranks as: constants below literals, these by variable and then by sign.
fn rank(entry: Entry) -> u64 {
    match entry {
        Entry::F => 0,
        Entry::T => 1,
        Entry::Lit(lit) => 2 + 2 * u64::from(lit.var) + u64::from(lit.neg),
    }
}

/// Whether the first word ranks below the second: the highest entries that differ tell.
fn ranks_below(x: &Word, y: &Word) -> bool {
    for from_top in 0..16 {
        let at = 15 - from_top;
        let (mine, other) = (rank(x[at]), rank(y[at]));
        if mine != other {
            return mine < other;
        }
    }
    false
}

/// The two factors in an order that their entries tell: the lower one is last, since the bits of the last tell which
/// rows are added, and none is where a bit is known to be clear.
fn in_order(x: &Word, y: &Word) -> (Word, Word)
    ensures value { (v : Assignment) → product (number v result.0) (number v result.1) ≡ product (number v x.now) (number v y.now) }
    ensures first_there { (n : ℕ) → AreBelow n x.now → AreBelow n y.now → AreBelow n result.0 }
    ensures second_there { (n : ℕ) → AreBelow n x.now → AreBelow n y.now → AreBelow n result.1 }
{
    if ranks_below(x, y) {
        (*y, *x)
    } else {
        (*x, *y)
    }
}

/// Whether some bit of the word isn't known.
fn is_open(x: &Word) -> bool {
    for at in 0..16 {
        if matches!(x[at], Entry::Lit(_)) {
            return true;
        }
    }
    false
}

/// Whether in each of two words some bit isn't known.
fn are_open(x: &Word, y: &Word) -> bool {
    is_open(x) && is_open(y)
}

/// The product, made with no look for large diagrams: those of its gates would outgrow every limit.
fn multiply_plain(formula: &mut Sharing, x: &Word, y: &Word) -> Result<Double, OutOfMemory>
    requires x_there { AreBelow (variables formula.old) x.now }
    requires y_there { AreBelow (variables formula.old) y.now }
    requires room { length formula.old.gates + 2048 ≤ formula.old.limit }
    ensures means { IfOk result (λ d. IsDouble formula.new d (λ v. product (number v x.now) (number v y.now))) }
    ensures extends { IfOk result (λ _. Extends formula.old formula.new 2048) }
{
    formula.set_plain(true);
    let product = multiply(formula, x, y)?;
    formula.set_plain(false);
    Ok(product)
}

/// The product of the factors in their order.
fn multiply_in_order(formula: &mut Sharing, x: &Word, y: &Word) -> Result<Double, OutOfMemory>
    requires x_there { AreBelow (variables formula.old) x.now }
    requires y_there { AreBelow (variables formula.old) y.now }
    requires room { length formula.old.gates + 2048 ≤ formula.old.limit }
    ensures means { IfOk result (λ d. IsDouble formula.new d (λ v. product (number v x.now) (number v y.now))) }
    ensures extends { IfOk result (λ _. Extends formula.old formula.new 2048) }
{
    let (first, second) = in_order(x, y);
    if are_open(x, y) {
        multiply_plain(formula, &first, &second)
    } else {
        multiply(formula, &first, &second)
    }
}

/// The low 16 bits.
fn low_word(x: &Double) -> Word
    ensures value { (v : Assignment) → number v result ≡ double v x.now % 65536 }
    ensures there { (n : ℕ) → IsDoubleBelow n x.now → AreBelow n result }
{
    x.low
}

/// The high 16 bits.
fn high_word(x: &Double) -> Word
    ensures value { (v : Assignment) → number v result ≡ double v x.now / 65536 }
    ensures there { (n : ℕ) → IsDoubleBelow n x.now → AreBelow n result }
{
    x.high
}

/// Bits 15 to 0 of twice the signed product of two words.
pub fn low_product(formula: &mut Sharing, x: &Word, y: &Word) -> Result<Word, OutOfMemory>
    requires x_there { AreBelow (variables formula.old) x.now }
    requires y_there { AreBelow (variables formula.old) y.now }
    requires room { length formula.old.gates + 2048 ≤ formula.old.limit }
    ensures means { IfOk result (λ w. IsNumber formula.new w (λ v. product (number v x.now) (number v y.now) % 65536)) }
    ensures extends { IfOk result (λ _. Extends formula.old formula.new 2048) }
{
    let product = multiply_in_order(formula, x, y)?;
    Ok(low_word(&product))
}

/// Bits 31 to 16 of twice the signed product of two words.
pub fn high_product(formula: &mut Sharing, x: &Word, y: &Word) -> Result<Word, OutOfMemory>
    requires x_there { AreBelow (variables formula.old) x.now }
    requires y_there { AreBelow (variables formula.old) y.now }
    requires room { length formula.old.gates + 2048 ≤ formula.old.limit }
    ensures means { IfOk result (λ w. IsNumber formula.new w (λ v. product (number v x.now) (number v y.now) / 65536)) }
    ensures extends { IfOk result (λ _. Extends formula.old formula.new 2048) }
{
    let product = multiply_in_order(formula, x, y)?;
    Ok(high_word(&product))
}
