//! Look-ups: a word of a data table at a place whose bits are entries.
ghost use Rattle.std.specs.Prelude.{◌≡◌, ◌+◌, ◌-◌, ◌*◌, ◌%◌, ◌^◌, ◌≤◌, ◌<◌, IfOk, length, slice_index};
ghost use Rattle.wb_gate.specs.Circuit.{variables};
ghost use Rattle.wb_gate.specs.Growth.{Extends};
ghost use Rattle.wb_term.specs.Terms.{IsKept, table_words};
ghost use Rattle.wb_blast.specs.Words.{number, AreBelow, IsNumber};

use crate::bitwise::{Operation, combine_words, constant_word};
use crate::words::Word;
use wb_equal::{Entry, Sharing};
use wb_term::{Graph, Table};
use wb_word::OutOfMemory;

/// The word of a table at the number that the lowest bits of a word stand for, counted from a place on: a tree of
/// choices, the highest bit at its root. Where a bit is known, one side is left out.
pub fn look(
    formula: &mut Sharing,
    graph: &Graph,
    table: Table,
    x: &Word,
    first: u16,
    bits: usize,
) -> Result<Word, OutOfMemory>
    requires kept { IsKept graph.now.tables table }
    requires few { bits ≤ 10 }
    requires within { first + 2 ^ bits ≤ 1024 }
    requires there { AreBelow (variables formula.old) x.now }
    requires room { length formula.old.gates + 16 * (2 ^ bits - 1) ≤ formula.old.limit }
    ensures means { IfOk result (λ w. IsNumber formula.new w (λ v. slice_index (table_words graph.now.tables table) (first + number v x.now % 2 ^ bits))) }
    ensures extends { IfOk result (λ _. Extends formula.old formula.new (16 * (2 ^ bits - 1))) }
{
    if bits == 0 {
        return Ok(constant_word(graph.table_at(table, first)));
    }
    let rest = bits - 1;
    let middle = first + (1u16 << rest);
    match x[rest] {
        Entry::T => {
            let high = look(formula, graph, table, x, middle, rest)?;
            Ok(high)
        }
        Entry::F => {
            let low = look(formula, graph, table, x, first, rest)?;
            Ok(low)
        }
        chosen => {
            let high = look(formula, graph, table, x, middle, rest)?;
            let low = look(formula, graph, table, x, first, rest)?;
            let word = combine_words(formula, Operation::Choose(chosen), &high, &low)?;
            Ok(word)
        }
    }
}
