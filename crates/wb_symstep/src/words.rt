ghost use Rattle.std.specs.Prelude.{◌+◌, ◌≤◌, ◌^◌, bit_and, bit_xor, [], ◌∷◌, IfOk, length};
ghost use Rattle.wb_term.specs.Numbers.{cut};
ghost use Rattle.wb_term.specs.Terms.{HasWord};
ghost use Rattle.wb_term.specs.Values.{IsWord, word_value};
ghost use Rattle.wb_term.specs.Growth.{Grown, AddsAtMost};
ghost use Rattle.wb_make.specs.Inputs.{BringsOnly};

use wb_make::{mk_and, mk_const, mk_known, mk_sum, mk_xor};
use wb_term::{Graph, OutOfMemory, WordId};

/// The bits of a word that a mask has.
pub(crate) fn masked(graph: &mut Graph, x: WordId, mask: u16) -> Result<WordId, OutOfMemory>
    requires x { HasWord graph.old x }
    requires room { length graph.old.nodes + 2 ≤ 2 ^ 31 }
    ensures value { IfOk result (λ id. IsWord graph.new id (λ inputs. bit_and (word_value inputs graph.old x) mask)) }
    ensures inputs { IfOk result (λ id. BringsOnly graph.old graph.new (x.number ∷ []) id.number) }
    ensures grown { Grown graph.old graph.new }
    ensures adds { AddsAtMost graph.old graph.new 2 16 }
{
    let mask = mk_const(graph, mask)?;
    mk_and(graph, x, mask)
}

/// A word with some of its bits turned over.
pub(crate) fn turned(graph: &mut Graph, x: WordId, mask: u16) -> Result<WordId, OutOfMemory>
    requires x { HasWord graph.old x }
    requires room { length graph.old.nodes + 2 ≤ 2 ^ 31 }
    ensures value { IfOk result (λ id. IsWord graph.new id (λ inputs. bit_xor (word_value inputs graph.old x) mask)) }
    ensures inputs { IfOk result (λ id. BringsOnly graph.old graph.new (x.number ∷ []) id.number) }
    ensures grown { Grown graph.old graph.new }
    ensures adds { AddsAtMost graph.old graph.new 2 16 }
{
    let mask = mk_const(graph, mask)?;
    mk_xor(graph, x, mask)
}

/// The low 16 bits of a word and a number.
pub(crate) fn raised(graph: &mut Graph, x: WordId, by: u16) -> Result<WordId, OutOfMemory>
    requires x { HasWord graph.old x }
    requires room { length graph.old.nodes + 3 ≤ 2 ^ 31 }
    ensures value { IfOk result (λ id. IsWord graph.new id (λ inputs. cut (word_value inputs graph.old x + by))) }
    ensures inputs { IfOk result (λ id. BringsOnly graph.old graph.new (x.number ∷ []) id.number) }
    ensures grown { Grown graph.old graph.new }
    ensures adds { AddsAtMost graph.old graph.new 3 48 }
{
    let by = mk_const(graph, by)?;
    let carry = mk_known(graph, false)?;
    mk_sum(graph, x, by, carry)
}
