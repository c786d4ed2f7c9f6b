ghost use Rattle.std.specs.Prelude.{◌≡◌, ◌+◌, ◌-◌, ◌*◌, ◌<◌, ◌≤◌, ◌^◌, Bool, ℕ, IfOk, length};
ghost use Rattle.wb_term.specs.declared.nodes.Node.{Node};
ghost use Rattle.wb_term.specs.Terms.{HasWord};
ghost use Rattle.wb_term.specs.Values.{IsWord, word_value};
ghost use Rattle.wb_term.specs.Under.{HasOnly};
ghost use Rattle.wb_term.specs.Growth.{Grown, AddsAtMost};
ghost use Rattle.wb_fold.specs.Ram.{word_in, HasWords, WordsHaveOnly, AreAddressBits, AddressHasOnly, address};

use crate::address::AddressBit;
use wb_make::mk_ite;
use wb_term::{Graph, OutOfMemory, WordId};

/// The word at the address that the bits stand for, by a tree of choices.
pub(crate) fn select(
    graph: &mut Graph,
    words: &[WordId],
    bits: &[AddressBit],
) -> Result<WordId, OutOfMemory>
    requires len { length words.now ≡ 2 ^ length bits.now }
    requires words { HasWords graph.old words.now }
    requires bits { AreAddressBits graph.old bits.now }
    requires room { length graph.old.nodes + 2 ^ length bits.now ≤ 2 ^ 31 }
    ensures value { IfOk result (λ id. IsWord graph.new id
        (λ inputs. word_value inputs graph.old (word_in words.now (address inputs graph.old bits.now)))) }
    ensures inputs { IfOk result (λ id. (allowed : Node → Bool) → WordsHaveOnly graph.old allowed words.now →
        AddressHasOnly graph.old allowed bits.now → HasOnly graph.new allowed id.number) }
    ensures grown { Grown graph.old graph.new }
    ensures adds { AddsAtMost graph.old graph.new (2 ^ length bits.now - 1) (16 * (2 ^ length bits.now - 1)) }
{
    let Some((top, rest)) = bits.split_first() else {
        return Ok(words[0]);
    };
    let (front, back) = words.split_at(words.len() / 2);
    let low = select(graph, front, rest)?;
    let high = select(graph, back, rest)?;
    mk_ite(graph, top.set, high, low)
}
