ghost use Rattle.std.specs.Prelude.{◌≡◌, ◌+◌, ◌*◌, ◌≤◌, ◌^◌, Bool, IfOk, length};
ghost use Rattle.wb_term.specs.declared.nodes.Node.{Node};
ghost use Rattle.wb_term.specs.Terms.{HasBit};
ghost use Rattle.wb_term.specs.Under.{HasOnly};
ghost use Rattle.wb_term.specs.Growth.{Grown, AddsAtMost};
ghost use Rattle.wb_fold.specs.Ram.{HasWords, AreWords, WordsHaveOnly, merged};
ghost use Rattle.wb_point.specs.Lists.{HasBits, AreBits, BitsHaveOnly, merged_bit};

use std::alloc::Global;
use wb_make::{mk_ite, mk_iteb};
use wb_term::{BitId, Graph, OutOfMemory, WordId};

/// The words of one list where a bit is set, else those of another.
pub(crate) fn merge_words(
    graph: &mut Graph,
    alloc: Global,
    cond: BitId,
    yes: &[WordId],
    no: &[WordId],
) -> Result<Vec<WordId>, OutOfMemory>
    requires cond { HasBit graph.old cond }
    requires yes { HasWords graph.old yes.now }
    requires no { HasWords graph.old no.now }
    requires lengths { length yes.now ≡ length no.now }
    requires room { length graph.old.nodes + length yes.now ≤ 2 ^ 31 }
    ensures len { IfOk result (λ words. length words.items ≡ length yes.now) }
    ensures value { IfOk result (λ words. AreWords graph.new words.items (λ inputs k. merged inputs graph.old cond yes.now no.now k)) }
    ensures inputs { IfOk result (λ words. (allowed : Node → Bool) → HasOnly graph.old allowed cond.number →
        WordsHaveOnly graph.old allowed yes.now → WordsHaveOnly graph.old allowed no.now → WordsHaveOnly graph.new allowed words.items) }
    ensures grown { Grown graph.old graph.new }
    ensures adds { AddsAtMost graph.old graph.new (length yes.now) (16 * length yes.now) }
{
    let mut words = Vec::with_capacity(alloc, yes.len())?;
    for at in 0..yes.len() {
        let word = mk_ite(graph, cond, yes[at], no[at])?;
        words.push(word)?;
    }
    Ok(words)
}

/// The bits of one list where a bit is set, else those of another.
pub(crate) fn merge_bits(
    graph: &mut Graph,
    alloc: Global,
    cond: BitId,
    yes: &[BitId],
    no: &[BitId],
) -> Result<Vec<BitId>, OutOfMemory>
    requires cond { HasBit graph.old cond }
    requires yes { HasBits graph.old yes.now }
    requires no { HasBits graph.old no.now }
    requires lengths { length yes.now ≡ length no.now }
    requires room { length graph.old.nodes + length yes.now ≤ 2 ^ 31 }
    ensures len { IfOk result (λ bits. length bits.items ≡ length yes.now) }
    ensures value { IfOk result (λ bits. AreBits graph.new bits.items (λ inputs k. merged_bit inputs graph.old cond yes.now no.now k)) }
    ensures inputs { IfOk result (λ bits. (allowed : Node → Bool) → HasOnly graph.old allowed cond.number →
        BitsHaveOnly graph.old allowed yes.now → BitsHaveOnly graph.old allowed no.now → BitsHaveOnly graph.new allowed bits.items) }
    ensures grown { Grown graph.old graph.new }
    ensures adds { AddsAtMost graph.old graph.new (length yes.now) (length yes.now) }
{
    let mut bits = Vec::with_capacity(alloc, yes.len())?;
    for at in 0..yes.len() {
        let bit = mk_iteb(graph, cond, yes[at], no[at])?;
        bits.push(bit)?;
    }
    Ok(bits)
}
