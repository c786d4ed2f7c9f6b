ghost use Rattle.std.specs.Prelude.{◌≡◌, ◌+◌, ◌<◌, ◌≤◌, ◌^◌, Bool, IfOk, OnOk, OnErr, length};
ghost use Rattle.wb_term.specs.declared.nodes.Node.{Node};
ghost use Rattle.wb_term.specs.Terms.{HasWord};
ghost use Rattle.wb_term.specs.Values.{IsWord};
ghost use Rattle.wb_term.specs.Under.{HasOnly};
ghost use Rattle.wb_term.specs.Growth.{Grown, AddsAtMost};
ghost use Rattle.wb_fold.specs.Ram.{HasWords, AreWords, WordsHaveOnly, selected, stored};

use crate::addresses::address_bits;
use crate::select::select;
use crate::store::store;
use std::alloc::Global;
use wb_make::mk_known;
use wb_term::{Graph, OutOfMemory, WordId, WordNode};

/// The word of a RAM of 256 entries at the low 8 bits of an address.
///
/// A constant address gives the entry itself; another makes a tree of choices.
pub fn ram_select(
    graph: &mut Graph,
    alloc: Global,
    ram: &[WordId],
    dp: WordId,
) -> Result<WordId, OutOfMemory>
    requires ram_len { length ram.now ≡ 256 }
    requires ram { HasWords graph.old ram.now }
    requires dp { HasWord graph.old dp }
    requires room { length graph.old.nodes + 300 ≤ 2 ^ 31 }
    ensures value { IfOk result (λ id. IsWord graph.new id (λ inputs. selected inputs graph.old ram.now dp)) }
    ensures inputs { IfOk result (λ id. (allowed : Node → Bool) → WordsHaveOnly graph.old allowed ram.now →
        HasOnly graph.old allowed dp.number → HasOnly graph.new allowed id.number) }
    ensures grown { Grown graph.old graph.new }
    ensures adds { AddsAtMost graph.old graph.new 300 4080 }
{
    if let WordNode::Const(at) = graph.word_at(dp) {
        return Ok(ram[usize::from(at & 0xFF)]);
    }
    let bits = address_bits(graph, alloc, dp)?;
    select(graph, ram, &bits)
}

/// Stores a word in a RAM of 256 entries at the low 8 bits of an address.
///
/// A constant address replaces the entry itself; another makes each entry a choice. A refusal leaves the RAM.
pub fn ram_store(
    graph: &mut Graph,
    alloc: Global,
    ram: &mut [WordId],
    dp: WordId,
    value: WordId,
) -> Result<(), OutOfMemory>
    requires ram_len { length ram.old ≡ 256 }
    requires ram { HasWords graph.old ram.old }
    requires dp { HasWord graph.old dp }
    requires value { HasWord graph.old value }
    requires room { length graph.old.nodes + 800 ≤ 2 ^ 31 }
    ensures value { OnOk result (AreWords graph.new ram.new (λ inputs k. stored inputs graph.old ram.old dp value k)) }
    ensures inputs { OnOk result ((allowed : Node → Bool) → WordsHaveOnly graph.old allowed ram.old →
        HasOnly graph.old allowed dp.number → HasOnly graph.old allowed value.number → WordsHaveOnly graph.new allowed ram.new) }
    ensures refused { OnErr result (ram.new ≡ ram.old) }
    ensures grown { Grown graph.old graph.new }
    ensures adds { AddsAtMost graph.old graph.new 800 4606 }
{
    if let WordNode::Const(at) = graph.word_at(dp) {
        ram[usize::from(at & 0xFF)] = value;
        return Ok(());
    }
    let words = stored_words(graph, alloc, ram, dp, value)?;
    ram.copy_from_slice(&words);
    Ok(())
}

/// The words of a RAM after a store.
fn stored_words(
    graph: &mut Graph,
    alloc: Global,
    ram: &[WordId],
    dp: WordId,
    value: WordId,
) -> Result<Vec<WordId>, OutOfMemory>
    requires ram_len { length ram.now ≡ 256 }
    requires ram { HasWords graph.old ram.now }
    requires dp { HasWord graph.old dp }
    requires value { HasWord graph.old value }
    requires room { length graph.old.nodes + 800 ≤ 2 ^ 31 }
    ensures len { IfOk result (λ words. length words.items ≡ 256) }
    ensures value { IfOk result (λ words. AreWords graph.new words.items (λ inputs k. stored inputs graph.old ram.now dp value k)) }
    ensures inputs { IfOk result (λ words. (allowed : Node → Bool) → WordsHaveOnly graph.old allowed ram.now →
        HasOnly graph.old allowed dp.number → HasOnly graph.old allowed value.number → WordsHaveOnly graph.new allowed words.items) }
    ensures grown { Grown graph.old graph.new }
    ensures adds { AddsAtMost graph.old graph.new 783 4606 }
{
    let mut words = Vec::with_capacity(alloc, 256)?;
    let always = mk_known(graph, true)?;
    let bits = address_bits(graph, alloc, dp)?;
    store(graph, ram, &bits, always, value, &mut words)?;
    Ok(words)
}
