ghost use Rattle.std.specs.Prelude.{◌≡◌, ◌≢◌, ◌+◌, ◌-◌, ◌*◌, ◌/◌, ◌%◌, ◌<◌, ◌≤◌, ◌^◌, false, [], ◌∷◌, IfOk, length};
ghost use Rattle.wb_alu.specs.Operation.{alu_result, is_arithmetic, bit, cut};
ghost use Rattle.wb_term.specs.Terms.{HasWord, HasBit};
ghost use Rattle.wb_term.specs.Values.{IsWord, word_value, bit_value};
ghost use Rattle.wb_term.specs.Growth.{Grown, AddsAtMost};
ghost use Rattle.wb_make.specs.Inputs.{BringsOnly};

use wb_make::{mk_and, mk_const, mk_ite, mk_not, mk_or, mk_shl, mk_shr, mk_xor};
use wb_term::{BitId, Graph, OutOfMemory, WordId};
use wb_word::Alu;

/// The result of an operation that neither adds nor takes away.
pub(crate) fn other_value(
    graph: &mut Graph,
    op: Alu,
    q: WordId,
    p: WordId,
    other_c: BitId,
) -> Result<WordId, OutOfMemory>
    requires op { is_arithmetic op ≡ false }
    requires works { op ≢ Alu.Nop }
    requires q { HasWord graph.old q }
    requires p { HasWord graph.old p }
    requires other_c { HasBit graph.old other_c }
    requires room { length graph.old.nodes + 5 ≤ 2 ^ 31 }
    ensures value { IfOk result (λ id. IsWord graph.new id
        (λ inputs. alu_result op (word_value inputs graph.old q) (word_value inputs graph.old p) (bit_value inputs graph.old other_c))) }
    ensures inputs { IfOk result (λ id. BringsOnly graph.old graph.new (q.number ∷ p.number ∷ other_c.number ∷ []) id.number) }
    ensures grown { Grown graph.old graph.new }
    ensures adds { AddsAtMost graph.old graph.new 5 32 }
{
    match op {
        Alu::Or => mk_or(graph, q, p),
        Alu::And => mk_and(graph, q, p),
        Alu::Xor => mk_xor(graph, q, p),
        Alu::Cmp => mk_not(graph, q),
        Alu::Shr1 => halved(graph, q),
        Alu::Shl1 => doubled(graph, q, other_c),
        Alu::Shl2 => filled(graph, q, 2, 3),
        Alu::Shl4 => filled(graph, q, 4, 15),
        Alu::Xchg => exchanged(graph, q),
        _ => unreachable!(),
    }
}

/// A word shifted to the right by one, with its sign kept.
#[tactic(auto, using(crate::proofs::ShiftLaws::halved_is))]
fn halved(graph: &mut Graph, q: WordId) -> Result<WordId, OutOfMemory>
    requires q { HasWord graph.old q }
    requires room { length graph.old.nodes + 4 ≤ 2 ^ 31 }
    ensures value { IfOk result (λ id. IsWord graph.new id
        (λ inputs. word_value inputs graph.old q / 32768 * 32768 + word_value inputs graph.old q / 2)) }
    ensures inputs { IfOk result (λ id. BringsOnly graph.old graph.new (q.number ∷ []) id.number) }
    ensures grown { Grown graph.old graph.new }
    ensures adds { AddsAtMost graph.old graph.new 4 16 }
{
    let _word = graph.word_at(q);
    let sign = sign_alone(graph, q)?;
    let half = mk_shr(graph, q, 1)?;
    mk_or(graph, sign, half)
}

/// Bit 15 of a word alone.
#[tactic(auto, using(crate::proofs::ShiftLaws::sign_alone_is))]
fn sign_alone(graph: &mut Graph, q: WordId) -> Result<WordId, OutOfMemory>
    requires q { HasWord graph.old q }
    requires room { length graph.old.nodes + 2 ≤ 2 ^ 31 }
    ensures value { IfOk result (λ id. IsWord graph.new id (λ inputs. word_value inputs graph.old q / 32768 * 32768)) }
    ensures inputs { IfOk result (λ id. BringsOnly graph.old graph.new (q.number ∷ []) id.number) }
    ensures grown { Grown graph.old graph.new }
    ensures adds { AddsAtMost graph.old graph.new 2 0 }
{
    let _word = graph.word_at(q);
    let sign = mk_shr(graph, q, 15)?;
    mk_shl(graph, sign, 15)
}

/// A word shifted to the left by one, with a bit shifted in.
#[tactic(auto, using(crate::proofs::ShiftLaws::doubled_is))]
fn doubled(graph: &mut Graph, q: WordId, low: BitId) -> Result<WordId, OutOfMemory>
    requires q { HasWord graph.old q }
    requires low { HasBit graph.old low }
    requires room { length graph.old.nodes + 5 ≤ 2 ^ 31 }
    ensures value { IfOk result (λ id. IsWord graph.new id
        (λ inputs. cut (word_value inputs graph.old q * 2 + bit (bit_value inputs graph.old low)))) }
    ensures inputs { IfOk result (λ id. BringsOnly graph.old graph.new (q.number ∷ low.number ∷ []) id.number) }
    ensures grown { Grown graph.old graph.new }
    ensures adds { AddsAtMost graph.old graph.new 5 32 }
{
    let shifted = mk_shl(graph, q, 1)?;
    let bit = bit_as_word(graph, low)?;
    mk_or(graph, shifted, bit)
}

/// A bit as the word 0 or 1.
fn bit_as_word(graph: &mut Graph, c: BitId) -> Result<WordId, OutOfMemory>
    requires c { HasBit graph.old c }
    requires room { length graph.old.nodes + 3 ≤ 2 ^ 31 }
    ensures value { IfOk result (λ id. IsWord graph.new id (λ inputs. bit (bit_value inputs graph.old c))) }
    ensures inputs { IfOk result (λ id. BringsOnly graph.old graph.new (c.number ∷ []) id.number) }
    ensures grown { Grown graph.old graph.new }
    ensures adds { AddsAtMost graph.old graph.new 3 16 }
{
    let one = mk_const(graph, 1)?;
    let zero = mk_const(graph, 0)?;
    mk_ite(graph, c, one, zero)
}

/// A word shifted to the left, with ones shifted in.
#[tactic(auto, using(crate::proofs::ShiftLaws::filled_is))]
fn filled(graph: &mut Graph, q: WordId, count: u8, ones: u16) -> Result<WordId, OutOfMemory>
    requires count { count < 16 }
    requires ones { ones + 1 ≡ 2 ^ count }
    requires q { HasWord graph.old q }
    requires room { length graph.old.nodes + 3 ≤ 2 ^ 31 }
    ensures value { IfOk result (λ id. IsWord graph.new id
        (λ inputs. cut (word_value inputs graph.old q * 2 ^ count + ones))) }
    ensures inputs { IfOk result (λ id. BringsOnly graph.old graph.new (q.number ∷ []) id.number) }
    ensures grown { Grown graph.old graph.new }
    ensures adds { AddsAtMost graph.old graph.new 3 16 }
{
    let shifted = mk_shl(graph, q, count)?;
    let ones = mk_const(graph, ones)?;
    mk_or(graph, shifted, ones)
}

/// A word with its bytes exchanged.
#[tactic(auto, using(crate::proofs::ShiftLaws::exchanged_is))]
fn exchanged(graph: &mut Graph, q: WordId) -> Result<WordId, OutOfMemory>
    requires q { HasWord graph.old q }
    requires room { length graph.old.nodes + 3 ≤ 2 ^ 31 }
    ensures value { IfOk result (λ id. IsWord graph.new id
        (λ inputs. word_value inputs graph.old q % 256 * 256 + word_value inputs graph.old q / 256)) }
    ensures inputs { IfOk result (λ id. BringsOnly graph.old graph.new (q.number ∷ []) id.number) }
    ensures grown { Grown graph.old graph.new }
    ensures adds { AddsAtMost graph.old graph.new 3 16 }
{
    let _word = graph.word_at(q);
    let high = mk_shl(graph, q, 8)?;
    let low = mk_shr(graph, q, 8)?;
    mk_or(graph, high, low)
}
