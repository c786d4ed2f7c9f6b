ghost use Rattle.std.specs.Prelude.{◌≡◌, ◌≢◌, ◌+◌, ◌≤◌, ◌^◌, ◌==◌, not, Bool, false, true, Ok, Some, None, [], ◌∷◌, IfOk, IfSome, IfNone, length, slice_get};
ghost use Rattle.wb_term.specs.declared.nodes.Node.{Node};
ghost use Rattle.wb_term.specs.declared.nodes.Node.TheVariants.{Bit};
ghost use Rattle.wb_term.specs.declared.nodes.BitNode.TheVariants.{Known};
ghost use Rattle.wb_term.specs.Inputs.{Assignment};
ghost use Rattle.wb_term.specs.Terms.{HasWord, HasBit};
ghost use Rattle.wb_term.specs.Values.{IsBit, word_value, bit_value};
ghost use Rattle.wb_term.specs.Under.{HasOnly};
ghost use Rattle.wb_term.specs.Growth.{Grown, AddsAtMost};
ghost use Rattle.wb_make.specs.Inputs.{BringsOnly};
ghost use Rattle.wb_replies.specs.Circuits.{IsCircuit, CircuitHasOnly};
ghost use Rattle.wb_replies.specs.Differences.{AreSame, IsDifference, access_between, are_told_apart, do_wanted_differ};

use crate::circuit::ReplyCircuit;
use wb_make::{mk_andb, mk_notb, mk_orb, mk_same};
use wb_port::Access;
use wb_term::{BitId, BitNode, Graph, Inputs, OutOfMemory, Scratch, WordId};

/// Whether the replies of two circuits differ, to a status read or, where it is wanted, to a data read. None where
/// nothing need be asked: equal nodes or a constant show that they never do.
pub fn differ(
    graph: &mut Graph,
    a: &ReplyCircuit,
    b: &ReplyCircuit,
    want_read: bool,
) -> Result<Option<BitId>, OutOfMemory>
    requires a { IsCircuit graph.old a.now }
    requires b { IsCircuit graph.old b.now }
    requires room { length graph.old.nodes + 7 ≤ 2 ^ 31 }
    ensures value { IfOk result (IsDifference graph.old graph.new a.now b.now want_read) }
    ensures same { AreSame a.now b.now want_read → (result ≡ Ok None) × (graph.new ≡ graph.old) }
    ensures open { IfOk result (λ r. IfSome r (λ bit. slice_get graph.new.nodes bit.number ≢ Some (Bit (Known false)))) }
    ensures inputs { IfOk result (λ r. (allowed : Node → Bool) → CircuitHasOnly graph.old allowed a.now →
        CircuitHasOnly graph.old allowed b.now → IfSome r (λ bit. HasOnly graph.new allowed bit.number)) }
    ensures grown { Grown graph.old graph.new }
    ensures adds { AddsAtMost graph.old graph.new 7 70 }
{
    if a.status == b.status && (!want_read || a.read == b.read) {
        return Ok(None);
    }
    let bit = told_apart(graph, a, b, want_read)?;
    Ok(unless_false(graph, bit))
}

/// The bit that is set where both circuits are present and the wanted words differ.
fn told_apart(
    graph: &mut Graph,
    a: &ReplyCircuit,
    b: &ReplyCircuit,
    want_read: bool,
) -> Result<BitId, OutOfMemory>
    requires a { IsCircuit graph.old a.now }
    requires b { IsCircuit graph.old b.now }
    requires room { length graph.old.nodes + 7 ≤ 2 ^ 31 }
    ensures value { IfOk result (λ bit. IsBit graph.new bit (λ i. are_told_apart i graph.old a.now b.now want_read)) }
    ensures inputs { IfOk result (λ bit. (allowed : Node → Bool) → CircuitHasOnly graph.old allowed a.now →
        CircuitHasOnly graph.old allowed b.now → HasOnly graph.new allowed bit.number) }
    ensures grown { Grown graph.old graph.new }
    ensures adds { AddsAtMost graph.old graph.new 7 70 }
{
    let both = mk_andb(graph, a.present, b.present)?;
    let differ = wanted_differ(graph, a, b, want_read)?;
    mk_andb(graph, both, differ)
}

/// Whether the wanted words of two circuits differ.
fn wanted_differ(
    graph: &mut Graph,
    a: &ReplyCircuit,
    b: &ReplyCircuit,
    want_read: bool,
) -> Result<BitId, OutOfMemory>
    requires a { IsCircuit graph.old a.now }
    requires b { IsCircuit graph.old b.now }
    requires room { length graph.old.nodes + 5 ≤ 2 ^ 31 }
    ensures value { IfOk result (λ bit. IsBit graph.new bit (λ i. do_wanted_differ i graph.old a.now b.now want_read)) }
    ensures inputs { IfOk result (λ bit. (allowed : Node → Bool) → CircuitHasOnly graph.old allowed a.now →
        CircuitHasOnly graph.old allowed b.now → HasOnly graph.new allowed bit.number) }
    ensures grown { Grown graph.old graph.new }
    ensures adds { AddsAtMost graph.old graph.new 5 65 }
{
    let status = words_differ(graph, a.status, b.status)?;
    if !want_read {
        return Ok(status);
    }
    let read = words_differ(graph, a.read, b.read)?;
    mk_orb(graph, status, read)
}

/// Whether two words differ.
fn words_differ(graph: &mut Graph, x: WordId, y: WordId) -> Result<BitId, OutOfMemory>
    requires x { HasWord graph.old x }
    requires y { HasWord graph.old y }
    requires room { length graph.old.nodes + 2 ≤ 2 ^ 31 }
    ensures value { IfOk result (λ bit. IsBit graph.new bit (λ i. not (word_value i graph.old x == word_value i graph.old y))) }
    ensures inputs { IfOk result (λ bit. BringsOnly graph.old graph.new (x.number ∷ y.number ∷ []) bit.number) }
    ensures grown { Grown graph.old graph.new }
    ensures adds { AddsAtMost graph.old graph.new 2 32 }
{
    let same = mk_same(graph, x, y)?;
    mk_notb(graph, same)
}

/// The bit itself, unless it is the constant false.
fn unless_false(graph: &Graph, bit: BitId) -> Option<BitId>
    requires there { HasBit graph.now bit }
    ensures some { IfSome result (λ b. b ≡ bit) }
    ensures open { IfSome result (λ b. slice_get graph.now.nodes b.number ≢ Some (Bit (Known false))) }
    ensures none { IfNone result ((i : Assignment) → bit_value i graph.now bit ≡ false) }
{
    match graph.bit_at(bit) {
        BitNode::Known(false) => None,
        _ => Some(bit),
    }
}

/// The access whose replies differ under inputs under which two circuits are told apart.
pub fn differing_access(
    graph: &Graph,
    a: &ReplyCircuit,
    b: &ReplyCircuit,
    inputs: &Inputs,
    scratch: &mut Scratch,
) -> Access
    requires a { IsCircuit graph.now a.now }
    requires b { IsCircuit graph.now b.now }
    requires covered { length graph.now.nodes ≤ length scratch.old }
    ensures value { result ≡ access_between inputs.now graph.now a.now b.now }
    ensures covers { length scratch.new ≡ length scratch.old }
{
    let _first = graph.word_at(a.status);
    let _second = graph.word_at(b.status);
    let first = graph.value_word(a.status, inputs, scratch);
    let second = graph.value_word(b.status, inputs, scratch);
    if first == second {
        Access::Read
    } else {
        Access::Status
    }
}
