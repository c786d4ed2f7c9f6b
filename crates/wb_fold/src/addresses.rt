ghost use Rattle.std.specs.Prelude.{◌≡◌, ◌+◌, ◌/◌, ◌%◌, ◌<◌, ◌≤◌, ◌^◌, ◌==◌, Bool, ℕ, [], ◌∷◌, IfOk, length};
ghost use Rattle.wb_term.specs.declared.nodes.Node.{Node};
ghost use Rattle.wb_term.specs.Nodes.{Each};
ghost use Rattle.wb_term.specs.Terms.{HasWord};
ghost use Rattle.wb_term.specs.Inputs.{Assignment, IsAssignment};
ghost use Rattle.wb_term.specs.Values.{IsBit, word_value};
ghost use Rattle.wb_term.specs.Under.{HasOnly};
ghost use Rattle.wb_term.specs.Growth.{Grown, AddsAtMost};
ghost use Rattle.wb_fold.specs.Ram.{IsAddressBit, AreAddressBits, AddressHasOnly, address};

use crate::address::AddressBit;
use std::alloc::Global;
use wb_make::{mk_notb, mk_pick};
use wb_term::{Graph, OutOfMemory, WordId};

/// The low 8 bits of a word, the highest first.
pub(crate) fn address_bits(
    graph: &mut Graph,
    alloc: Global,
    dp: WordId,
) -> Result<Vec<AddressBit>, OutOfMemory>
    requires dp { HasWord graph.old dp }
    requires room { length graph.old.nodes + 16 ≤ 2 ^ 31 }
    ensures len { IfOk result (λ bits. length bits.items ≡ 8) }
    ensures bits { IfOk result (λ bits. AreAddressBits graph.new bits.items) }
    ensures value { IfOk result (λ bits. (inputs : Assignment) → IsAssignment inputs →
        address inputs graph.new bits.items ≡ word_value inputs graph.old dp % 256) }
    ensures inputs { IfOk result (λ bits. (allowed : Node → Bool) → HasOnly graph.old allowed dp.number →
        AddressHasOnly graph.new allowed bits.items) }
    ensures grown { Grown graph.old graph.new }
    ensures adds { AddsAtMost graph.old graph.new 16 0 }
{
    let mut bits = Vec::with_capacity(alloc, 8)?;
    for place in 0..8 {
        let bit = address_bit(graph, dp, 7 - place)?;
        bits.push(bit)?;
    }
    Ok(bits)
}

/// A bit of a word and its opposite.
fn address_bit(graph: &mut Graph, dp: WordId, place: u8) -> Result<AddressBit, OutOfMemory>
    requires dp { HasWord graph.old dp }
    requires place { place < 8 }
    requires room { length graph.old.nodes + 2 ≤ 2 ^ 31 }
    ensures bit { IfOk result (λ bit. IsAddressBit graph.new bit) }
    ensures value { IfOk result (λ bit. IsBit graph.new bit.set (λ inputs. word_value inputs graph.old dp / 2 ^ place % 2 == 1)) }
    ensures inputs { IfOk result (λ bit. (allowed : Node → Bool) → HasOnly graph.old allowed dp.number →
        Each (HasOnly graph.new allowed) (bit.set.number ∷ bit.clear.number ∷ [])) }
    ensures grown { Grown graph.old graph.new }
    ensures adds { AddsAtMost graph.old graph.new 2 0 }
{
    let set = mk_pick(graph, dp, place)?;
    let clear = mk_notb(graph, set)?;
    Ok(AddressBit { set, clear })
}
