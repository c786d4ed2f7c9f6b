ghost use Rattle.std.specs.Prelude.{◌≡◌, ◌≢◌, ◌+◌, ◌%◌, ◌==◌, ◌≤◌, ◌^◌, Bool, true, not, ℕ, [], ◌∷◌, IfOk, IfSome, IfNone, length};
ghost use Rattle.std.specs.Bool.{beq};
ghost use Rattle.wb_term.specs.Terms.{Terms, HasWord};
ghost use Rattle.wb_term.specs.Values.{IsBit, word_value};
ghost use Rattle.wb_term.specs.Growth.{Grown, AddsAtMost};
ghost use Rattle.wb_make.specs.Inputs.{BringsOnly};
ghost use Rattle.wb_machine.specs.declared.registers.Regs.{Regs};
ghost use Rattle.wb_machine.specs.Next.{flags_of, taken};
ghost use Rattle.wb_symstep.specs.State.{status, IsSymState};
ghost use Rattle.wb_symstep.specs.Stepped.{tests_terms};
ghost use Rattle.wb_symstep.specs.Parts.{IsBitPart};
ghost use Rattle.wb_symstep.specs.Tested.{flag_in};

use crate::state::SymState;
use crate::words::masked;
use crate::work::{Flag, FlagTest};
use wb_make::{mk_const, mk_notb, mk_same};
use wb_term::{BitId, Graph, OutOfMemory, WordId};
use wb_word::{Acc, Cond};

/// Whether a jump is taken, where neither a flag nor DP decides it.
#[tactic(auto, unfolding(wb_machine::specs::Next::taken))]
pub(crate) fn decided(cond: Cond, rqm: bool) -> Option<bool>
    ensures some { IfSome result (λ b. (drs : Bool) (word : ℕ) (r : Regs) → r.sr ≡ status rqm drs word → taken cond r ≡ b) }
    ensures none { IfNone result (tests_terms cond ≡ true) }
{
    match cond {
        Cond::Jnrqm => Some(!rqm),
        Cond::Jrqm => Some(rqm),
        Cond::Jnsiak | Cond::Jnsoak | Cond::Jmp | Cond::Call => Some(true),
        Cond::Jsiak | Cond::Jsoak | Cond::Other(_) => Some(false),
        _ => None,
    }
}

fn flag_is(acc: Acc, flag: Flag, set: bool) -> FlagTest
    ensures { result ≡ record { acc = acc; flag = flag; set = set } }
{
    FlagTest { acc, flag, set }
}

/// The flag that a condition tests.
#[tactic(auto, unfolding(wb_machine::specs::Next::taken))]
fn flag_test(cond: Cond) -> FlagTest
    requires terms { tests_terms cond ≡ true }
    requires not_zero { cond ≢ Cond.Jdpl0 }
    requires not_other { cond ≢ Cond.Jdpln0 }
    requires not_last { cond ≢ Cond.Jdplf }
    requires not_before { cond ≢ Cond.Jdplnf }
    ensures { (r : Regs) → beq result.set (flag_in result.flag (flags_of result.acc r)) ≡ taken cond r }
{
    match cond {
        Cond::Jnca => flag_is(Acc::A, Flag::C, false),
        Cond::Jca => flag_is(Acc::A, Flag::C, true),
        Cond::Jncb => flag_is(Acc::B, Flag::C, false),
        Cond::Jcb => flag_is(Acc::B, Flag::C, true),
        Cond::Jnza => flag_is(Acc::A, Flag::Z, false),
        Cond::Jza => flag_is(Acc::A, Flag::Z, true),
        Cond::Jnzb => flag_is(Acc::B, Flag::Z, false),
        Cond::Jzb => flag_is(Acc::B, Flag::Z, true),
        Cond::Jnova0 => flag_is(Acc::A, Flag::Ov0, false),
        Cond::Jova0 => flag_is(Acc::A, Flag::Ov0, true),
        Cond::Jnovb0 => flag_is(Acc::B, Flag::Ov0, false),
        Cond::Jovb0 => flag_is(Acc::B, Flag::Ov0, true),
        Cond::Jnova1 => flag_is(Acc::A, Flag::Ov1, false),
        Cond::Jova1 => flag_is(Acc::A, Flag::Ov1, true),
        Cond::Jnovb1 => flag_is(Acc::B, Flag::Ov1, false),
        Cond::Jovb1 => flag_is(Acc::B, Flag::Ov1, true),
        Cond::Jnsa0 => flag_is(Acc::A, Flag::S0, false),
        Cond::Jsa0 => flag_is(Acc::A, Flag::S0, true),
        Cond::Jnsb0 => flag_is(Acc::B, Flag::S0, false),
        Cond::Jsb0 => flag_is(Acc::B, Flag::S0, true),
        Cond::Jnsa1 => flag_is(Acc::A, Flag::S1, false),
        Cond::Jsa1 => flag_is(Acc::A, Flag::S1, true),
        Cond::Jnsb1 => flag_is(Acc::B, Flag::S1, false),
        Cond::Jsb1 => flag_is(Acc::B, Flag::S1, true),
        _ => unreachable!(),
    }
}

/// The bit of a flag.
fn flag_bit(acc: Acc, flag: Flag, state: &SymState) -> BitId
    ensures { (g : Terms) → IsSymState g state.now → IsBitPart g state.now result (λ m. flag_in flag (flags_of acc m.regs)) }
{
    let flags = match acc {
        Acc::A => state.flags_a,
        Acc::B => state.flags_b,
    };
    match flag {
        Flag::C => flags.c,
        Flag::Z => flags.z,
        Flag::S0 => flags.s0,
        Flag::S1 => flags.s1,
        Flag::Ov0 => flags.ov0,
        Flag::Ov1 => flags.ov1,
    }
}

/// Whether a flag has the value that a test wants.
fn flag_condition(graph: &mut Graph, test: FlagTest, state: &SymState) -> Result<BitId, OutOfMemory>
    requires state { IsSymState graph.old state.now }
    requires room { length graph.old.nodes + 1 ≤ 2 ^ 31 }
    ensures part { IfOk result (λ c. IsBitPart graph.new state.now c (λ m. beq test.set (flag_in test.flag (flags_of test.acc m.regs)))) }
    ensures grown { Grown graph.old graph.new }
    ensures adds { AddsAtMost graph.old graph.new 1 0 }
{
    let bit = flag_bit(test.acc, test.flag, state);
    match test.set {
        true => Ok(bit),
        false => mk_notb(graph, bit),
    }
}

/// Whether a word has a value.
fn equals(graph: &mut Graph, x: WordId, value: u16) -> Result<BitId, OutOfMemory>
    requires x { HasWord graph.old x }
    requires room { length graph.old.nodes + 2 ≤ 2 ^ 31 }
    ensures value { IfOk result (λ c. IsBit graph.new c (λ inputs. word_value inputs graph.old x == value)) }
    ensures inputs { IfOk result (λ c. BringsOnly graph.old graph.new (x.number ∷ []) c.number) }
    ensures grown { Grown graph.old graph.new }
    ensures adds { AddsAtMost graph.old graph.new 2 32 }
{
    let wanted = mk_const(graph, value)?;
    mk_same(graph, x, wanted)
}

/// Whether the low four bits of DP have a value.
fn low_is(graph: &mut Graph, state: &SymState, low: u16) -> Result<BitId, OutOfMemory>
    requires state { IsSymState graph.old state.now }
    requires room { length graph.old.nodes + 4 ≤ 2 ^ 31 }
    ensures part { IfOk result (λ c. IsBitPart graph.new state.now c (λ m. m.regs.dp % 16 == low)) }
    ensures grown { Grown graph.old graph.new }
    ensures adds { AddsAtMost graph.old graph.new 4 48 }
{
    let bits = masked(graph, state.dp, 15)?;
    equals(graph, bits, low)
}

/// Whether they have another.
fn low_is_not(graph: &mut Graph, state: &SymState, low: u16) -> Result<BitId, OutOfMemory>
    requires state { IsSymState graph.old state.now }
    requires room { length graph.old.nodes + 5 ≤ 2 ^ 31 }
    ensures part { IfOk result (λ c. IsBitPart graph.new state.now c (λ m. not (m.regs.dp % 16 == low))) }
    ensures grown { Grown graph.old graph.new }
    ensures adds { AddsAtMost graph.old graph.new 5 48 }
{
    let is = low_is(graph, state, low)?;
    mk_notb(graph, is)
}

/// Whether a jump on a flag or on DP is taken.
#[tactic(auto, unfolding(wb_machine::specs::Next::taken))]
pub(crate) fn condition(
    graph: &mut Graph,
    cond: Cond,
    state: &SymState,
) -> Result<BitId, OutOfMemory>
    requires terms { tests_terms cond ≡ true }
    requires state { IsSymState graph.old state.now }
    requires room { length graph.old.nodes + 5 ≤ 2 ^ 31 }
    ensures part { IfOk result (λ c. IsBitPart graph.new state.now c (λ m. taken cond m.regs)) }
    ensures grown { Grown graph.old graph.new }
    ensures adds { AddsAtMost graph.old graph.new 5 48 }
{
    match cond {
        Cond::Jdpl0 => low_is(graph, state, 0),
        Cond::Jdpln0 => low_is_not(graph, state, 0),
        Cond::Jdplf => low_is(graph, state, 15),
        Cond::Jdplnf => low_is_not(graph, state, 15),
        _ => flag_condition(graph, flag_test(cond), state),
    }
}
