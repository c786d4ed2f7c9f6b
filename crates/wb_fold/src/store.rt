ghost use Rattle.std.specs.Prelude.{◌≡◌, ◌+◌, ◌-◌, ◌*◌, ◌<◌, ◌≤◌, ◌^◌, ◌&&◌, not, Bool, ℕ, [], ◌∷◌, IfOk, OnOk, length};
ghost use Rattle.wb_term.specs.declared.nodes.Node.{Node};
ghost use Rattle.wb_term.specs.Nodes.{Each};
ghost use Rattle.wb_term.specs.Terms.{HasWord, HasBit};
ghost use Rattle.wb_term.specs.Values.{IsBit, bit_value};
ghost use Rattle.wb_term.specs.Under.{HasOnly};
ghost use Rattle.wb_term.specs.Growth.{Grown, AddsAtMost};
ghost use Rattle.wb_fold.specs.Ram.{HasWords, IsAddressBit, AreAddressBits, AppendsStored};

use crate::address::AddressBit;
use wb_make::{mk_andb, mk_ite};
use wb_term::{BitId, Graph, OutOfMemory, WordId};

/// Appends the words after a store at the address that the bits stand for, which happens where `here` is set.
pub(crate) fn store(
    graph: &mut Graph,
    words: &[WordId],
    bits: &[AddressBit],
    here: BitId,
    value: WordId,
    out: &mut Vec<WordId>,
) -> Result<(), OutOfMemory>
    requires len { length words.now ≡ 2 ^ length bits.now }
    requires words { HasWords graph.old words.now }
    requires bits { AreAddressBits graph.old bits.now }
    requires here { HasBit graph.old here }
    requires value { HasWord graph.old value }
    requires room { length graph.old.nodes + 3 * 2 ^ length bits.now ≤ 2 ^ 31 }
    ensures stored { OnOk result (AppendsStored graph.old graph.new words.now bits.now here value out.old.items out.new.items) }
    ensures grown { Grown graph.old graph.new }
    ensures adds { AddsAtMost graph.old graph.new (3 * 2 ^ length bits.now - 2) (18 * 2 ^ length bits.now - 2) }
{
    let Some((top, rest)) = bits.split_first() else {
        let cell = mk_ite(graph, here, value, words[0])?;
        out.push(cell)?;
        return Ok(());
    };
    let (front, back) = words.split_at(words.len() / 2);
    let (low, high) = halves(graph, here, top)?;
    store(graph, front, rest, low, value, out)?;
    store(graph, back, rest, high, value, out)
}

/// Where a bit is set, and a bit of the address is not, and where both are.
fn halves(graph: &mut Graph, here: BitId, top: &AddressBit) -> Result<(BitId, BitId), OutOfMemory>
    requires here { HasBit graph.old here }
    requires top { IsAddressBit graph.old top.now }
    requires room { length graph.old.nodes + 2 ≤ 2 ^ 31 }
    ensures low { IfOk result (λ r. IsBit graph.new r.0 (λ inputs. bit_value inputs graph.old here && not (bit_value inputs graph.old top.now.set))) }
    ensures high { IfOk result (λ r. IsBit graph.new r.1 (λ inputs. bit_value inputs graph.old here && bit_value inputs graph.old top.now.set)) }
    ensures inputs { IfOk result (λ r. (allowed : Node → Bool) →
        Each (HasOnly graph.old allowed) (here.number ∷ top.now.set.number ∷ top.now.clear.number ∷ []) →
        Each (HasOnly graph.new allowed) (r.0.number ∷ r.1.number ∷ [])) }
    ensures grown { Grown graph.old graph.new }
    ensures adds { AddsAtMost graph.old graph.new 2 2 }
{
    let low = mk_andb(graph, here, top.clear)?;
    let high = mk_andb(graph, here, top.set)?;
    Ok((low, high))
}
