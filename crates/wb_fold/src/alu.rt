ghost use Rattle.std.specs.Prelude.{◌≡◌, ◌+◌, ◌-◌, ◌*◌, ◌/◌, ◌%◌, ◌<◌, ◌≤◌, ◌^◌, ◌≢◌, ◌==◌, pos, ◌+ℤ◌, ◌-ℤ◌, not, ◌&&◌, nat_lt, Bool, true, false, [], ◌∷◌, IfOk, length};
ghost use Rattle.std.specs.Bool.{beq};
ghost use Rattle.wb_alu.specs.Operation.{alu_result, alu_carry, alu_overflow, alu_flags, is_arithmetic, bit, cut, less, sign, signed, is_outside};
ghost use Rattle.wb_term.specs.declared.nodes.Node.{Node};
ghost use Rattle.wb_term.specs.Nodes.{Each};
ghost use Rattle.wb_term.specs.Terms.{HasWord, HasBit};
ghost use Rattle.wb_term.specs.Values.{IsWord, IsBit, word_value, bit_value};
ghost use Rattle.wb_term.specs.Under.{HasOnly};
ghost use Rattle.wb_term.specs.Growth.{Grown, AddsAtMost};
ghost use Rattle.wb_make.specs.Inputs.{BringsOnly};
ghost use Rattle.wb_fold.specs.Flags.{flags_value, flag_numbers, HasFlags, IsFlags};

use crate::flags::SymFlags;
use crate::operations::other_value;
use crate::signs::{Worked, after_arithmetic, after_other, signs_differ};
use wb_make::{mk_andb, mk_borrow, mk_carry, mk_const, mk_diff, mk_known, mk_pick, mk_sum};
use wb_term::{BitId, Graph, OutOfMemory, WordId};
use wb_word::Alu;

/// One operation of the ALU under all inputs: `q` is the selected accumulator, `p` the operand, `other_c` the
/// carry of the other accumulator, and `flags` those of the selected one.
pub fn alu_terms(
    graph: &mut Graph,
    op: Alu,
    q: WordId,
    p: WordId,
    other_c: BitId,
    flags: SymFlags,
) -> Result<(WordId, SymFlags), OutOfMemory>
    requires q { HasWord graph.old q }
    requires p { HasWord graph.old p }
    requires other_c { HasBit graph.old other_c }
    requires flags { HasFlags graph.old flags }
    requires room { length graph.old.nodes + 64 ≤ 2 ^ 31 }
    ensures value { IfOk result (λ r. IsWord graph.new r.0
        (λ inputs. alu_result op (word_value inputs graph.old q) (word_value inputs graph.old p) (bit_value inputs graph.old other_c))) }
    ensures flags { IfOk result (λ r. IsFlags graph.new r.1
        (λ inputs. alu_flags op (word_value inputs graph.old q) (word_value inputs graph.old p) (bit_value inputs graph.old other_c)
        (flags_value inputs graph.old flags))) }
    ensures inputs { IfOk result (λ r. (allowed : Node → Bool) →
        Each (HasOnly graph.old allowed) (q.number ∷ p.number ∷ other_c.number ∷ flag_numbers flags) →
        Each (HasOnly graph.new allowed) (r.0.number ∷ flag_numbers r.1)) }
    ensures grown { Grown graph.old graph.new }
    ensures adds { AddsAtMost graph.old graph.new 64 1024 }
{
    match op {
        Alu::Nop => Ok((q, flags)),
        _ if adds_or_subtracts(op) => arithmetic_terms(graph, op, q, p, other_c, flags),
        _ => other_terms(graph, op, q, p, other_c, flags),
    }
}

/// Whether the operation is one of the six that add or take away.
fn adds_or_subtracts(op: Alu) -> bool
    ensures { result ≡ is_arithmetic op }
{
    matches!(
        op,
        Alu::Sub | Alu::Add | Alu::Sbb | Alu::Adc | Alu::Dec | Alu::Inc
    )
}

#[tactic(auto, using(crate::proofs::AluFlags::alu_flags_arithmetic))]
fn arithmetic_terms(
    graph: &mut Graph,
    op: Alu,
    q: WordId,
    p: WordId,
    other_c: BitId,
    flags: SymFlags,
) -> Result<(WordId, SymFlags), OutOfMemory>
    requires op { is_arithmetic op ≡ true }
    requires q { HasWord graph.old q }
    requires p { HasWord graph.old p }
    requires other_c { HasBit graph.old other_c }
    requires flags { HasFlags graph.old flags }
    requires room { length graph.old.nodes + 20 ≤ 2 ^ 31 }
    ensures value { IfOk result (λ r. IsWord graph.new r.0
        (λ inputs. alu_result op (word_value inputs graph.old q) (word_value inputs graph.old p) (bit_value inputs graph.old other_c))) }
    ensures flags { IfOk result (λ r. IsFlags graph.new r.1
        (λ inputs. alu_flags op (word_value inputs graph.old q) (word_value inputs graph.old p) (bit_value inputs graph.old other_c)
        (flags_value inputs graph.old flags))) }
    ensures inputs { IfOk result (λ r. (allowed : Node → Bool) →
        Each (HasOnly graph.old allowed) (q.number ∷ p.number ∷ other_c.number ∷ flag_numbers flags) →
        Each (HasOnly graph.new allowed) (r.0.number ∷ flag_numbers r.1)) }
    ensures grown { Grown graph.old graph.new }
    ensures adds { AddsAtMost graph.old graph.new 20 120 }
{
    let work = arithmetic(graph, op, q, p, other_c)?;
    let after = after_arithmetic(graph, work, flags)?;
    Ok((work.value, after))
}

#[tactic(auto, using(crate::proofs::AluFlags::alu_flags_other))]
fn other_terms(
    graph: &mut Graph,
    op: Alu,
    q: WordId,
    p: WordId,
    other_c: BitId,
    flags: SymFlags,
) -> Result<(WordId, SymFlags), OutOfMemory>
    requires op { is_arithmetic op ≡ false }
    requires works { op ≢ Alu.Nop }
    requires q { HasWord graph.old q }
    requires p { HasWord graph.old p }
    requires other_c { HasBit graph.old other_c }
    requires flags { HasFlags graph.old flags }
    requires room { length graph.old.nodes + 11 ≤ 2 ^ 31 }
    ensures value { IfOk result (λ r. IsWord graph.new r.0
        (λ inputs. alu_result op (word_value inputs graph.old q) (word_value inputs graph.old p) (bit_value inputs graph.old other_c))) }
    ensures flags { IfOk result (λ r. IsFlags graph.new r.1
        (λ inputs. alu_flags op (word_value inputs graph.old q) (word_value inputs graph.old p) (bit_value inputs graph.old other_c)
        (flags_value inputs graph.old flags))) }
    ensures inputs { IfOk result (λ r. (allowed : Node → Bool) →
        Each (HasOnly graph.old allowed) (q.number ∷ p.number ∷ other_c.number ∷ flag_numbers flags) →
        Each (HasOnly graph.new allowed) (r.0.number ∷ flag_numbers r.1)) }
    ensures grown { Grown graph.old graph.new }
    ensures adds { AddsAtMost graph.old graph.new 11 65 }
{
    let value = other_value(graph, op, q, p, other_c)?;
    let carry = other_carry(graph, op, q)?;
    let after = after_other(graph, value, carry, flags)?;
    Ok((value, after))
}

/// The result, carry and overflow of an operation that adds or takes away.
fn arithmetic(
    graph: &mut Graph,
    op: Alu,
    q: WordId,
    p: WordId,
    other_c: BitId,
) -> Result<Worked, OutOfMemory>
    requires op { is_arithmetic op ≡ true }
    requires q { HasWord graph.old q }
    requires p { HasWord graph.old p }
    requires other_c { HasBit graph.old other_c }
    requires room { length graph.old.nodes + 11 ≤ 2 ^ 31 }
    ensures value { IfOk result (λ r. IsWord graph.new r.value
        (λ inputs. alu_result op (word_value inputs graph.old q) (word_value inputs graph.old p) (bit_value inputs graph.old other_c))) }
    ensures carry { IfOk result (λ r. IsBit graph.new r.carry
        (λ inputs. alu_carry op (word_value inputs graph.old q) (word_value inputs graph.old p) (bit_value inputs graph.old other_c))) }
    ensures overflow { IfOk result (λ r. IsBit graph.new r.overflow
        (λ inputs. alu_overflow op (word_value inputs graph.old q) (word_value inputs graph.old p) (bit_value inputs graph.old other_c))) }
    ensures inputs { IfOk result (λ r. (allowed : Node → Bool) →
        Each (HasOnly graph.old allowed) (q.number ∷ p.number ∷ other_c.number ∷ []) →
        Each (HasOnly graph.new allowed) (r.value.number ∷ r.carry.number ∷ r.overflow.number ∷ [])) }
    ensures grown { Grown graph.old graph.new }
    ensures adds { AddsAtMost graph.old graph.new 11 83 }
{
    match op {
        Alu::Sub => subtract(graph, q, p),
        Alu::Add => add(graph, q, p),
        Alu::Sbb => difference_of(graph, q, p, other_c),
        Alu::Adc => sum_of(graph, q, p, other_c),
        Alu::Dec => {
            let one = mk_const(graph, 1)?;
            subtract(graph, q, one)
        }
        Alu::Inc => {
            let one = mk_const(graph, 1)?;
            add(graph, q, one)
        }
        _ => unreachable!(),
    }
}

fn add(graph: &mut Graph, q: WordId, p: WordId) -> Result<Worked, OutOfMemory>
    requires q { HasWord graph.old q }
    requires p { HasWord graph.old p }
    requires room { length graph.old.nodes + 10 ≤ 2 ^ 31 }
    ensures value { IfOk result (λ r. IsWord graph.new r.value
        (λ inputs. cut (word_value inputs graph.old q + word_value inputs graph.old p))) }
    ensures carry { IfOk result (λ r. IsBit graph.new r.carry
        (λ inputs. nat_lt 65535 (word_value inputs graph.old q + word_value inputs graph.old p))) }
    ensures overflow { IfOk result (λ r. IsBit graph.new r.overflow
        (λ inputs. is_outside (signed (word_value inputs graph.old q) +ℤ signed (word_value inputs graph.old p)))) }
    ensures inputs { IfOk result (λ r. (allowed : Node → Bool) →
        Each (HasOnly graph.old allowed) (q.number ∷ p.number ∷ []) →
        Each (HasOnly graph.new allowed) (r.value.number ∷ r.carry.number ∷ r.overflow.number ∷ [])) }
    ensures grown { Grown graph.old graph.new }
    ensures adds { AddsAtMost graph.old graph.new 10 83 }
{
    let carry = mk_known(graph, false)?;
    sum_of(graph, q, p, carry)
}

fn subtract(graph: &mut Graph, q: WordId, p: WordId) -> Result<Worked, OutOfMemory>
    requires q { HasWord graph.old q }
    requires p { HasWord graph.old p }
    requires room { length graph.old.nodes + 10 ≤ 2 ^ 31 }
    ensures value { IfOk result (λ r. IsWord graph.new r.value
        (λ inputs. less (word_value inputs graph.old q) (word_value inputs graph.old p))) }
    ensures carry { IfOk result (λ r. IsBit graph.new r.carry
        (λ inputs. nat_lt (word_value inputs graph.old q) (word_value inputs graph.old p))) }
    ensures overflow { IfOk result (λ r. IsBit graph.new r.overflow
        (λ inputs. is_outside (signed (word_value inputs graph.old q) -ℤ signed (word_value inputs graph.old p)))) }
    ensures inputs { IfOk result (λ r. (allowed : Node → Bool) →
        Each (HasOnly graph.old allowed) (q.number ∷ p.number ∷ []) →
        Each (HasOnly graph.new allowed) (r.value.number ∷ r.carry.number ∷ r.overflow.number ∷ [])) }
    ensures grown { Grown graph.old graph.new }
    ensures adds { AddsAtMost graph.old graph.new 10 83 }
{
    let borrow = mk_known(graph, false)?;
    difference_of(graph, q, p, borrow)
}

#[tactic(auto, using(crate::proofs::SignLaws::sum_overflows))]
fn sum_of(graph: &mut Graph, q: WordId, p: WordId, c: BitId) -> Result<Worked, OutOfMemory>
    requires q { HasWord graph.old q }
    requires p { HasWord graph.old p }
    requires c { HasBit graph.old c }
    requires room { length graph.old.nodes + 9 ≤ 2 ^ 31 }
    ensures value { IfOk result (λ r. IsWord graph.new r.value
        (λ inputs. cut (word_value inputs graph.old q + word_value inputs graph.old p + bit (bit_value inputs graph.old c)))) }
    ensures carry { IfOk result (λ r. IsBit graph.new r.carry
        (λ inputs. nat_lt 65535 (word_value inputs graph.old q + word_value inputs graph.old p + bit (bit_value inputs graph.old c)))) }
    ensures overflow { IfOk result (λ r. IsBit graph.new r.overflow
        (λ inputs. is_outside (signed (word_value inputs graph.old q) +ℤ signed (word_value inputs graph.old p)
        +ℤ pos (bit (bit_value inputs graph.old c))))) }
    ensures inputs { IfOk result (λ r. (allowed : Node → Bool) →
        Each (HasOnly graph.old allowed) (q.number ∷ p.number ∷ c.number ∷ []) →
        Each (HasOnly graph.new allowed) (r.value.number ∷ r.carry.number ∷ r.overflow.number ∷ [])) }
    ensures grown { Grown graph.old graph.new }
    ensures adds { AddsAtMost graph.old graph.new 9 83 }
{
    let _word = graph.word_at(q);
    let value = mk_sum(graph, q, p, c)?;
    let carry = mk_carry(graph, q, p, c)?;
    let overflow = sum_overflow(graph, q, p, value)?;
    Ok(Worked {
        value,
        carry,
        overflow,
    })
}

fn difference_of(graph: &mut Graph, q: WordId, p: WordId, c: BitId) -> Result<Worked, OutOfMemory>
    requires q { HasWord graph.old q }
    requires p { HasWord graph.old p }
    requires c { HasBit graph.old c }
    requires room { length graph.old.nodes + 9 ≤ 2 ^ 31 }
    ensures value { IfOk result (λ r. IsWord graph.new r.value
        (λ inputs. less (word_value inputs graph.old q) (word_value inputs graph.old p + bit (bit_value inputs graph.old c)))) }
    ensures carry { IfOk result (λ r. IsBit graph.new r.carry
        (λ inputs. nat_lt (word_value inputs graph.old q) (word_value inputs graph.old p + bit (bit_value inputs graph.old c)))) }
    ensures overflow { IfOk result (λ r. IsBit graph.new r.overflow
        (λ inputs. is_outside (signed (word_value inputs graph.old q) -ℤ signed (word_value inputs graph.old p)
        -ℤ pos (bit (bit_value inputs graph.old c))))) }
    ensures inputs { IfOk result (λ r. (allowed : Node → Bool) →
        Each (HasOnly graph.old allowed) (q.number ∷ p.number ∷ c.number ∷ []) →
        Each (HasOnly graph.new allowed) (r.value.number ∷ r.carry.number ∷ r.overflow.number ∷ [])) }
    ensures grown { Grown graph.old graph.new }
    ensures adds { AddsAtMost graph.old graph.new 9 83 }
{
    let _word = graph.word_at(q);
    let value = mk_diff(graph, q, p, c)?;
    let carry = mk_borrow(graph, q, p, c)?;
    let overflow = difference_overflow(graph, q, p, value)?;
    Ok(Worked {
        value,
        carry,
        overflow,
    })
}

/// Whether the sign of a sum differs from those of both words.
fn sum_overflow(
    graph: &mut Graph,
    q: WordId,
    p: WordId,
    value: WordId,
) -> Result<BitId, OutOfMemory>
    requires q { HasWord graph.old q }
    requires p { HasWord graph.old p }
    requires value { HasWord graph.old value }
    requires room { length graph.old.nodes + 7 ≤ 2 ^ 31 }
    ensures value { IfOk result (λ id. IsBit graph.new id (λ inputs.
        not (beq (sign (word_value inputs graph.old q)) (sign (word_value inputs graph.old value))) &&
        not (beq (sign (word_value inputs graph.old p)) (sign (word_value inputs graph.old value))))) }
    ensures inputs { IfOk result (λ id. BringsOnly graph.old graph.new (q.number ∷ p.number ∷ value.number ∷ []) id.number) }
    ensures grown { Grown graph.old graph.new }
    ensures adds { AddsAtMost graph.old graph.new 7 3 }
{
    let first = signs_differ(graph, q, value)?;
    let second = signs_differ(graph, p, value)?;
    mk_andb(graph, first, second)
}

/// Whether the sign of a difference and that of the second word differ from the first's.
fn difference_overflow(
    graph: &mut Graph,
    q: WordId,
    p: WordId,
    value: WordId,
) -> Result<BitId, OutOfMemory>
    requires q { HasWord graph.old q }
    requires p { HasWord graph.old p }
    requires value { HasWord graph.old value }
    requires room { length graph.old.nodes + 7 ≤ 2 ^ 31 }
    ensures value { IfOk result (λ id. IsBit graph.new id (λ inputs.
        not (beq (sign (word_value inputs graph.old q)) (sign (word_value inputs graph.old p))) &&
        not (beq (sign (word_value inputs graph.old q)) (sign (word_value inputs graph.old value))))) }
    ensures inputs { IfOk result (λ id. BringsOnly graph.old graph.new (q.number ∷ p.number ∷ value.number ∷ []) id.number) }
    ensures grown { Grown graph.old graph.new }
    ensures adds { AddsAtMost graph.old graph.new 7 3 }
{
    let first = signs_differ(graph, q, p)?;
    let second = signs_differ(graph, q, value)?;
    mk_andb(graph, first, second)
}

/// The carry of an operation that neither adds nor takes away: the bit that a shift by one drops.
#[tactic(auto, using(crate::proofs::SignLaws::top_bit_is))]
fn other_carry(graph: &mut Graph, op: Alu, q: WordId) -> Result<BitId, OutOfMemory>
    requires op { is_arithmetic op ≡ false }
    requires q { HasWord graph.old q }
    requires room { length graph.old.nodes < 2 ^ 31 }
    ensures value { IfOk result (λ id. IsBit graph.new id (λ inputs. alu_carry op (word_value inputs graph.old q) 0 false)) }
    ensures inputs { IfOk result (λ id. BringsOnly graph.old graph.new (q.number ∷ []) id.number) }
    ensures grown { Grown graph.old graph.new }
    ensures adds { AddsAtMost graph.old graph.new 1 0 }
{
    let _word = graph.word_at(q);
    match op {
        Alu::Shr1 => mk_pick(graph, q, 0),
        Alu::Shl1 => mk_pick(graph, q, 15),
        _ => mk_known(graph, false),
    }
}
