ghost use Rattle.std.specs.Prelude.{◌≡◌, ◌+◌, ◌<◌, ◌≤◌, ◌^◌, ◌/◌, ◌%◌, ◌==◌, not, ◌&&◌, ◌||◌, Bool, true, false, if◌then◌else◌, [], ◌∷◌, IfOk, length};
ghost use Rattle.std.specs.Bool.{beq};
ghost use Rattle.wb_alu.specs.Operation.{sign, flags_after};
ghost use Rattle.wb_term.specs.declared.nodes.Node.{Node};
ghost use Rattle.wb_term.specs.Nodes.{Each};
ghost use Rattle.wb_term.specs.Terms.{HasWord, HasBit};
ghost use Rattle.wb_term.specs.Values.{IsBit, word_value, bit_value};
ghost use Rattle.wb_term.specs.Under.{HasOnly};
ghost use Rattle.wb_term.specs.Growth.{Grown, AddsAtMost};
ghost use Rattle.wb_make.specs.Inputs.{BringsOnly};
ghost use Rattle.wb_fold.specs.Flags.{flags_value, flag_numbers, HasFlags, IsFlags};

use crate::flags::SymFlags;
use wb_make::{mk_andb, mk_const, mk_iteb, mk_known, mk_notb, mk_orb, mk_pick, mk_same, mk_xorb};
use wb_term::{BitId, Graph, OutOfMemory, WordId};

/// Whether a word is zero.
fn is_zero(graph: &mut Graph, x: WordId) -> Result<BitId, OutOfMemory>
    requires x { HasWord graph.old x }
    requires room { length graph.old.nodes + 2 ≤ 2 ^ 31 }
    ensures value { IfOk result (λ id. IsBit graph.new id (λ inputs. word_value inputs graph.old x == 0)) }
    ensures inputs { IfOk result (λ id. BringsOnly graph.old graph.new (x.number ∷ []) id.number) }
    ensures grown { Grown graph.old graph.new }
    ensures adds { AddsAtMost graph.old graph.new 2 32 }
{
    let zero = mk_const(graph, 0)?;
    mk_same(graph, x, zero)
}

/// Bit 15 of a word.
#[tactic(auto, using(crate::proofs::SignLaws::sign_is))]
fn sign_of(graph: &mut Graph, x: WordId) -> Result<BitId, OutOfMemory>
    requires x { HasWord graph.old x }
    requires room { length graph.old.nodes < 2 ^ 31 }
    ensures value { IfOk result (λ id. IsBit graph.new id (λ inputs. sign (word_value inputs graph.old x))) }
    ensures inputs { IfOk result (λ id. BringsOnly graph.old graph.new (x.number ∷ []) id.number) }
    ensures grown { Grown graph.old graph.new }
    ensures adds { AddsAtMost graph.old graph.new 1 0 }
{
    let _word = graph.word_at(x);
    mk_pick(graph, x, 15)
}

/// Whether the signs of two words differ.
pub(crate) fn signs_differ(graph: &mut Graph, x: WordId, y: WordId) -> Result<BitId, OutOfMemory>
    requires x { HasWord graph.old x }
    requires y { HasWord graph.old y }
    requires room { length graph.old.nodes + 3 ≤ 2 ^ 31 }
    ensures value { IfOk result (λ id. IsBit graph.new id
        (λ inputs. not (beq (sign (word_value inputs graph.old x)) (sign (word_value inputs graph.old y))))) }
    ensures inputs { IfOk result (λ id. BringsOnly graph.old graph.new (x.number ∷ y.number ∷ []) id.number) }
    ensures grown { Grown graph.old graph.new }
    ensures adds { AddsAtMost graph.old graph.new 3 1 }
{
    let first = sign_of(graph, x)?;
    let second = sign_of(graph, y)?;
    mk_xorb(graph, first, second)
}

/// What every operation but NOP makes of its result: the zero flag and the two signs.
#[derive(Clone, Copy)]
struct Signs {
    z: BitId,
    s0: BitId,
    s1: BitId,
}

/// The zero flag and the signs of a result. S1 takes the new S0 where the old OV1 is 0.
fn signs_after(graph: &mut Graph, value: WordId, flags: SymFlags) -> Result<Signs, OutOfMemory>
    requires value { HasWord graph.old value }
    requires ov1 { HasBit graph.old flags.ov1 }
    requires s1 { HasBit graph.old flags.s1 }
    requires room { length graph.old.nodes + 4 ≤ 2 ^ 31 }
    ensures z { IfOk result (λ r. IsBit graph.new r.z (λ inputs. word_value inputs graph.old value == 0)) }
    ensures s0 { IfOk result (λ r. IsBit graph.new r.s0 (λ inputs. sign (word_value inputs graph.old value))) }
    ensures s1 { IfOk result (λ r. IsBit graph.new r.s1 (λ inputs. if bit_value inputs graph.old flags.ov1
        then bit_value inputs graph.old flags.s1 else sign (word_value inputs graph.old value))) }
    ensures inputs { IfOk result (λ r. (allowed : Node → Bool) →
        Each (HasOnly graph.old allowed) (value.number ∷ flags.s1.number ∷ flags.ov1.number ∷ []) →
        Each (HasOnly graph.new allowed) (r.z.number ∷ r.s0.number ∷ r.s1.number ∷ [])) }
    ensures grown { Grown graph.old graph.new }
    ensures adds { AddsAtMost graph.old graph.new 4 33 }
{
    let z = is_zero(graph, value)?;
    let s0 = sign_of(graph, value)?;
    let s1 = mk_iteb(graph, flags.ov1, flags.s1, s0)?;
    Ok(Signs { z, s0, s1 })
}

/// What an addition or a subtraction makes: its result, its carry or borrow, and its signed overflow.
#[derive(Clone, Copy)]
pub(crate) struct Worked {
    pub(crate) value: WordId,
    pub(crate) carry: BitId,
    pub(crate) overflow: BitId,
}

/// Whether two bits are equal.
fn agree(graph: &mut Graph, c: BitId, d: BitId) -> Result<BitId, OutOfMemory>
    requires c { HasBit graph.old c }
    requires d { HasBit graph.old d }
    requires room { length graph.old.nodes + 2 ≤ 2 ^ 31 }
    ensures value { IfOk result (λ id. IsBit graph.new id (λ inputs. beq (bit_value inputs graph.old c) (bit_value inputs graph.old d))) }
    ensures inputs { IfOk result (λ id. BringsOnly graph.old graph.new (c.number ∷ d.number ∷ []) id.number) }
    ensures grown { Grown graph.old graph.new }
    ensures adds { AddsAtMost graph.old graph.new 2 1 }
{
    let differ = mk_xorb(graph, c, d)?;
    mk_notb(graph, differ)
}

/// One bit where two are set, else whether one of the two is.
fn both_or_either(graph: &mut Graph, c: BitId, d: BitId, both: BitId) -> Result<BitId, OutOfMemory>
    requires c { HasBit graph.old c }
    requires d { HasBit graph.old d }
    requires both { HasBit graph.old both }
    requires room { length graph.old.nodes + 3 ≤ 2 ^ 31 }
    ensures value { IfOk result (λ id. IsBit graph.new id (λ inputs. if bit_value inputs graph.old c && bit_value inputs graph.old d
        then bit_value inputs graph.old both else (bit_value inputs graph.old c || bit_value inputs graph.old d))) }
    ensures inputs { IfOk result (λ id. BringsOnly graph.old graph.new (c.number ∷ d.number ∷ both.number ∷ []) id.number) }
    ensures grown { Grown graph.old graph.new }
    ensures adds { AddsAtMost graph.old graph.new 3 3 }
{
    let all = mk_andb(graph, c, d)?;
    let any = mk_orb(graph, c, d)?;
    mk_iteb(graph, all, both, any)
}

/// The flags after an operation that neither adds nor takes away, with its result and carry.
pub(crate) fn after_other(
    graph: &mut Graph,
    value: WordId,
    carry: BitId,
    flags: SymFlags,
) -> Result<SymFlags, OutOfMemory>
    requires value { HasWord graph.old value }
    requires carry { HasBit graph.old carry }
    requires flags { HasFlags graph.old flags }
    requires room { length graph.old.nodes + 5 ≤ 2 ^ 31 }
    ensures value { IfOk result (λ r. IsFlags graph.new r (λ inputs. flags_after false (word_value inputs graph.old value)
        (bit_value inputs graph.old carry) false (flags_value inputs graph.old flags))) }
    ensures inputs { IfOk result (λ r. (allowed : Node → Bool) →
        Each (HasOnly graph.old allowed) (value.number ∷ carry.number ∷ flag_numbers flags) →
        Each (HasOnly graph.new allowed) (flag_numbers r)) }
    ensures grown { Grown graph.old graph.new }
    ensures adds { AddsAtMost graph.old graph.new 5 33 }
{
    let signs = signs_after(graph, value, flags)?;
    let no = mk_known(graph, false)?;
    Ok(SymFlags {
        c: carry,
        z: signs.z,
        s0: signs.s0,
        s1: signs.s1,
        ov0: no,
        ov1: no,
    })
}

/// The flags after an addition or a subtraction, with its result, carry and signed overflow.
pub(crate) fn after_arithmetic(
    graph: &mut Graph,
    work: Worked,
    flags: SymFlags,
) -> Result<SymFlags, OutOfMemory>
    requires value { HasWord graph.old work.value }
    requires carry { HasBit graph.old work.carry }
    requires overflow { HasBit graph.old work.overflow }
    requires flags { HasFlags graph.old flags }
    requires room { length graph.old.nodes + 9 ≤ 2 ^ 31 }
    ensures value { IfOk result (λ r. IsFlags graph.new r (λ inputs. flags_after true (word_value inputs graph.old work.value)
        (bit_value inputs graph.old work.carry) (bit_value inputs graph.old work.overflow) (flags_value inputs graph.old flags))) }
    ensures inputs { IfOk result (λ r. (allowed : Node → Bool) →
        Each (HasOnly graph.old allowed) (work.value.number ∷ work.carry.number ∷ work.overflow.number ∷ flag_numbers flags) →
        Each (HasOnly graph.new allowed) (flag_numbers r)) }
    ensures grown { Grown graph.old graph.new }
    ensures adds { AddsAtMost graph.old graph.new 9 37 }
{
    let signs = signs_after(graph, work.value, flags)?;
    let same = agree(graph, signs.s1, signs.s0)?;
    let ov1 = both_or_either(graph, work.overflow, flags.ov1, same)?;
    Ok(SymFlags {
        c: work.carry,
        z: signs.z,
        s0: signs.s0,
        s1: signs.s1,
        ov0: work.overflow,
        ov1,
    })
}
