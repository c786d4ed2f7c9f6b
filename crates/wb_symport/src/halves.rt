ghost use Rattle.std.specs.Prelude.{◌≡◌, ◌+◌, ◌*◌, ◌/◌, ◌%◌, ◌<◌, ◌≤◌, ◌^◌, bit_and, Bool, true, false, if◌then◌else◌, [], ◌∷◌, IfOk, length, slice_index};
ghost use Rattle.wb_term.specs.declared.nodes.Node.{Node};
ghost use Rattle.wb_term.specs.declared.nodes.Node.TheVariants.{Word};
ghost use Rattle.wb_term.specs.declared.nodes.WordNode.TheVariants.{Byte};
ghost use Rattle.wb_term.specs.Nodes.{Each};
ghost use Rattle.wb_term.specs.Inputs.{Assignment, IsAssignment};
ghost use Rattle.wb_term.specs.Terms.{HasWord, HasBit};
ghost use Rattle.wb_term.specs.Values.{IsWord, word_value, bit_value};
ghost use Rattle.wb_term.specs.Under.{HasOnly};
ghost use Rattle.wb_term.specs.Growth.{Grown, AddsAtMost};
ghost use Rattle.wb_make.specs.Inputs.{BringsOnly};
ghost use Rattle.wb_port.specs.Port.{half_of, half_replaced};

use wb_make::{mk_and, mk_byte, mk_const, mk_ite, mk_or, mk_shl, mk_shr};
use wb_term::{BitId, BitNode, Graph, OutOfMemory, WordId};

/// The bits of a word that a mask has.
pub(crate) fn masked(graph: &mut Graph, x: WordId, mask: u16) -> Result<WordId, OutOfMemory>
    requires x { HasWord graph.old x }
    requires room { length graph.old.nodes + 2 ≤ 2 ^ 31 }
    ensures value { IfOk result (λ id. IsWord graph.new id (λ inputs. bit_and (word_value inputs graph.old x) mask)) }
    ensures inputs { IfOk result (λ id. BringsOnly graph.old graph.new (x.number ∷ []) id.number) }
    ensures grown { Grown graph.old graph.new }
    ensures adds { AddsAtMost graph.old graph.new 2 16 }
{
    let mask = mk_const(graph, mask)?;
    mk_and(graph, x, mask)
}

/// The half of a word that a transfer gives, by DRC and DRS.
fn half(graph: &mut Graph, single: bool, second: bool, x: WordId) -> Result<WordId, OutOfMemory>
    requires x { HasWord graph.old x }
    requires room { length graph.old.nodes + 2 ≤ 2 ^ 31 }
    ensures value { IfOk result (λ id. IsWord graph.new id (λ inputs. half_of single second (word_value inputs graph.old x))) }
    ensures inputs { IfOk result (λ id. BringsOnly graph.old graph.new (x.number ∷ []) id.number) }
    ensures grown { Grown graph.old graph.new }
    ensures adds { AddsAtMost graph.old graph.new 2 16 }
{
    match (single, second) {
        (false, true) => mk_shr(graph, x, 8),
        _ => masked(graph, x, 0xFF),
    }
}

/// The half of a word that a transfer gives, where a bit says DRC.
pub(crate) fn half_by(
    graph: &mut Graph,
    drc: BitId,
    second: bool,
    x: WordId,
) -> Result<WordId, OutOfMemory>
    requires drc { HasBit graph.old drc }
    requires x { HasWord graph.old x }
    requires room { length graph.old.nodes + 5 ≤ 2 ^ 31 }
    ensures value { IfOk result (λ id. IsWord graph.new id
        (λ inputs. half_of (bit_value inputs graph.old drc) second (word_value inputs graph.old x))) }
    ensures inputs { IfOk result (λ id. BringsOnly graph.old graph.new (drc.number ∷ x.number ∷ []) id.number) }
    ensures grown { Grown graph.old graph.new }
    ensures adds { AddsAtMost graph.old graph.new 5 48 }
{
    match graph.bit_at(drc) {
        BitNode::Known(single) => half(graph, single, second, x),
        _ => either_half(graph, drc, second, x),
    }
}

/// The one or the other half of a word.
fn either_half(
    graph: &mut Graph,
    drc: BitId,
    second: bool,
    x: WordId,
) -> Result<WordId, OutOfMemory>
    requires drc { HasBit graph.old drc }
    requires x { HasWord graph.old x }
    requires room { length graph.old.nodes + 5 ≤ 2 ^ 31 }
    ensures value { IfOk result (λ id. IsWord graph.new id
        (λ inputs. half_of (bit_value inputs graph.old drc) second (word_value inputs graph.old x))) }
    ensures inputs { IfOk result (λ id. BringsOnly graph.old graph.new (drc.number ∷ x.number ∷ []) id.number) }
    ensures grown { Grown graph.old graph.new }
    ensures adds { AddsAtMost graph.old graph.new 5 48 }
{
    let alone = half(graph, true, second, x)?;
    let other = half(graph, false, second, x)?;
    mk_ite(graph, drc, alone, other)
}

/// The byte of a place in the high half of a word.
fn high_byte(graph: &mut Graph, place: u8) -> Result<WordId, OutOfMemory>
    requires place { place < 16 }
    requires room { length graph.old.nodes + 2 ≤ 2 ^ 31 }
    ensures value { IfOk result (λ id. IsWord graph.new id (λ inputs. slice_index inputs.bytes place * 256)) }
    ensures inputs { IfOk result (λ id. (allowed : Node → Bool) →
        allowed (Word (Byte place)) ≡ true → HasOnly graph.new allowed id.number) }
    ensures grown { Grown graph.old graph.new }
    ensures adds { AddsAtMost graph.old graph.new 2 0 }
{
    let byte = mk_byte(graph, place)?;
    mk_shl(graph, byte, 8)
}

/// A word whose low half is the byte of a place.
#[tactic(auto, using(crate::proofs::BitLaws::low_replaced))]
fn with_low(graph: &mut Graph, place: u8, x: WordId) -> Result<WordId, OutOfMemory>
    requires place { place < 16 }
    requires x { HasWord graph.old x }
    requires room { length graph.old.nodes + 4 ≤ 2 ^ 31 }
    ensures value { IfOk result (λ id. IsWord graph.new id
        (λ inputs. word_value inputs graph.old x / 256 * 256 + slice_index inputs.bytes place)) }
    ensures inputs { IfOk result (λ id. (allowed : Node → Bool) → allowed (Word (Byte place)) ≡ true →
        HasOnly graph.old allowed x.number → HasOnly graph.new allowed id.number) }
    ensures grown { Grown graph.old graph.new }
    ensures adds { AddsAtMost graph.old graph.new 4 32 }
{
    let _word = graph.word_at(x);
    let kept = masked(graph, x, 0xFF00)?;
    let byte = mk_byte(graph, place)?;
    mk_or(graph, kept, byte)
}

/// A word whose high half is the byte of a place.
#[tactic(auto, using(crate::proofs::BitLaws::high_replaced))]
fn with_high(graph: &mut Graph, place: u8, x: WordId) -> Result<WordId, OutOfMemory>
    requires place { place < 16 }
    requires x { HasWord graph.old x }
    requires room { length graph.old.nodes + 5 ≤ 2 ^ 31 }
    ensures value { IfOk result (λ id. IsWord graph.new id
        (λ inputs. slice_index inputs.bytes place * 256 + word_value inputs graph.old x % 256)) }
    ensures inputs { IfOk result (λ id. (allowed : Node → Bool) → allowed (Word (Byte place)) ≡ true →
        HasOnly graph.old allowed x.number → HasOnly graph.new allowed id.number) }
    ensures grown { Grown graph.old graph.new }
    ensures adds { AddsAtMost graph.old graph.new 5 32 }
{
    let kept = masked(graph, x, 0xFF)?;
    let byte = high_byte(graph, place)?;
    mk_or(graph, byte, kept)
}

/// A word whose half that a transfer takes, by DRC and DRS, is the byte of a place.
fn with_half(
    graph: &mut Graph,
    single: bool,
    second: bool,
    place: u8,
    x: WordId,
) -> Result<WordId, OutOfMemory>
    requires place { place < 16 }
    requires x { HasWord graph.old x }
    requires room { length graph.old.nodes + 5 ≤ 2 ^ 31 }
    ensures value { IfOk result (λ id. IsWord graph.new id
        (λ inputs. half_replaced single second (slice_index inputs.bytes place) (word_value inputs graph.old x))) }
    ensures inputs { IfOk result (λ id. (allowed : Node → Bool) → allowed (Word (Byte place)) ≡ true →
        HasOnly graph.old allowed x.number → HasOnly graph.new allowed id.number) }
    ensures grown { Grown graph.old graph.new }
    ensures adds { AddsAtMost graph.old graph.new 5 32 }
{
    match (single, second) {
        (false, true) => with_high(graph, place, x),
        _ => with_low(graph, place, x),
    }
}

/// DR after a write: where the transfer has one byte alone, and where it has a half of a word.
#[derive(Clone, Copy)]
pub(crate) struct DrAfter {
    pub(crate) alone: WordId,
    pub(crate) other: WordId,
}

/// A word after a write of the byte of a place, where a bit says DRC. Where that is known, both are the same.
pub(crate) fn written(
    graph: &mut Graph,
    drc: BitId,
    second: bool,
    place: u8,
    x: WordId,
) -> Result<DrAfter, OutOfMemory>
    requires drc { HasBit graph.old drc }
    requires place { place < 16 }
    requires x { HasWord graph.old x }
    requires room { length graph.old.nodes + 10 ≤ 2 ^ 31 }
    ensures alone { IfOk result (λ r. HasWord graph.new r.alone) }
    ensures other { IfOk result (λ r. HasWord graph.new r.other) }
    ensures value { IfOk result (λ r. (inputs : Assignment) → IsAssignment inputs →
        word_value inputs graph.new (if bit_value inputs graph.old drc then r.alone else r.other)
        ≡ half_replaced (bit_value inputs graph.old drc) second (slice_index inputs.bytes place) (word_value inputs graph.old x)) }
    ensures inputs { IfOk result (λ r. (allowed : Node → Bool) → allowed (Word (Byte place)) ≡ true →
        HasOnly graph.old allowed x.number → Each (HasOnly graph.new allowed) (r.alone.number ∷ r.other.number ∷ [])) }
    ensures grown { Grown graph.old graph.new }
    ensures adds { AddsAtMost graph.old graph.new 10 64 }
{
    match graph.bit_at(drc) {
        BitNode::Known(single) => {
            let word = with_half(graph, single, second, place, x)?;
            Ok(DrAfter {
                alone: word,
                other: word,
            })
        }
        _ => either_written(graph, second, place, x),
    }
}

/// A word after a write of one byte alone, and after one of a half of a word.
fn either_written(
    graph: &mut Graph,
    second: bool,
    place: u8,
    x: WordId,
) -> Result<DrAfter, OutOfMemory>
    requires place { place < 16 }
    requires x { HasWord graph.old x }
    requires room { length graph.old.nodes + 10 ≤ 2 ^ 31 }
    ensures alone { IfOk result (λ r. IsWord graph.new r.alone
        (λ inputs. half_replaced true second (slice_index inputs.bytes place) (word_value inputs graph.old x))) }
    ensures other { IfOk result (λ r. IsWord graph.new r.other
        (λ inputs. half_replaced false second (slice_index inputs.bytes place) (word_value inputs graph.old x))) }
    ensures inputs { IfOk result (λ r. (allowed : Node → Bool) → allowed (Word (Byte place)) ≡ true →
        HasOnly graph.old allowed x.number → Each (HasOnly graph.new allowed) (r.alone.number ∷ r.other.number ∷ [])) }
    ensures grown { Grown graph.old graph.new }
    ensures adds { AddsAtMost graph.old graph.new 10 64 }
{
    let alone = with_half(graph, true, second, place, x)?;
    let other = with_half(graph, false, second, place, x)?;
    Ok(DrAfter { alone, other })
}
