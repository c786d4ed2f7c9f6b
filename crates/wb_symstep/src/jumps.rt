ghost use Rattle.std.specs.Prelude.{◌≡◌, ◌≢◌, ◌+◌, ◌<◌, ◌≤◌, ◌^◌, Bool, true, false, Some, if◌then◌else◌, IfOk, IfSome, IfNone, length, slice_index, slice_set};
ghost use Rattle.wb_term.specs.declared.nodes.Node.{Node};
ghost use Rattle.wb_term.specs.Terms.{Terms};
ghost use Rattle.wb_term.specs.Growth.{Grown, AddsAtMost};
ghost use Rattle.wb_word.specs.declared.numbers.Spare.{Spare};
ghost use Rattle.wb_word.specs.declared.words.Instr.{Instr};
ghost use Rattle.wb_word.specs.declared.words.OpWord.{OpWord};
ghost use Rattle.wb_rom.specs.declared.images.Image.{Image};
ghost use Rattle.wb_machine.specs.Next.{following, next_by, sp_down, sp_up, taken};
ghost use Rattle.wb_symstep.specs.State.{IsSymState};
ghost use Rattle.wb_symstep.specs.Stepped.{is_known, tests_terms, IsOpenJump, ForksAtOpenJump};
ghost use Rattle.wb_symstep.specs.Parts.{IsAfter, IsBitPart, IsDecided, IsSteppedAfter};

use crate::conditions::{condition, decided};
use crate::operate::next_address;
use crate::state::SymState;
use crate::stepped::Stepped;
use wb_term::{BitId, BitNode, Graph, OutOfMemory};
use wb_word::{Addr, Cond};

/// Where a jump leads.
fn target(taken: bool, na: Addr, pc: u16) -> u16
    requires { pc < 2048 }
    ensures value { result ≡ (if taken then na.value else following pc) }
    ensures below { result < 2048 }
{
    if taken { na.value } else { next_address(pc) }
}

/// A jump whose condition is known.
fn plain_branch(state: &SymState, taken: bool, na: Addr) -> Result<Stepped, OutOfMemory>
    requires { state.now.pc < 2048 }
    ensures after { IfOk result (λ r. (g : Terms) (cond : Cond) (image : Image) (spare : Spare) → cond ≢ Cond.Call → IsSymState g state.now →
        IsDecided g state.now cond taken → IsSteppedAfter g state.now r (next_by (Instr.Jp cond na spare) image)) }
    ensures forks { IfOk result (λ r. (g : Terms) (i : Instr) → ForksAtOpenJump g state.now i r) }
{
    let next = state.at(target(taken, na, state.pc))?;
    Ok(Stepped::One(next))
}

/// Both ways of a jump whose condition isn't known.
fn fork(state: &SymState, says: BitId, na: Addr) -> Result<Stepped, OutOfMemory>
    requires { state.now.pc < 2048 }
    ensures after { IfOk result (λ r. (g : Terms) (cond : Cond) (image : Image) (spare : Spare) → cond ≢ Cond.Call → IsSymState g state.now →
        IsBitPart g state.now says (λ m. taken cond m.regs) → IsSteppedAfter g state.now r (next_by (Instr.Jp cond na spare) image)) }
    ensures forks { IfOk result (λ r. (g : Terms) (i : Instr) → IsOpenJump g state.now i says → ForksAtOpenJump g state.now i r) }
{
    let yes = state.at(na.value)?;
    let no = state.at(next_address(state.pc))?;
    Ok(Stepped::Fork {
        cond: says,
        yes,
        no,
    })
}

/// The value of a bit node that is constant.
fn known(node: BitNode) -> Option<bool>
    ensures some { IfSome result (λ v. node ≡ BitNode.Known v) }
    ensures none { IfNone result (is_known (Some (Node.Bit node)) ≡ false) }
{
    match node {
        BitNode::Known(value) => Some(value),
        _ => None,
    }
}

/// A jump that a flag or DP decides.
fn open_branch(
    graph: &mut Graph,
    state: &SymState,
    cond: Cond,
    na: Addr,
) -> Result<Stepped, OutOfMemory>
    requires terms { tests_terms cond ≡ true }
    requires state { IsSymState graph.old state.now }
    requires room { length graph.old.nodes + 5 ≤ 2 ^ 31 }
    ensures after { IfOk result (λ r. (image : Image) (spare : Spare) → IsSteppedAfter graph.new state.now r (next_by (Instr.Jp cond na spare) image)) }
    ensures forks { IfOk result (λ r. (spare : Spare) → ForksAtOpenJump graph.new state.now (Instr.Jp cond na spare) r) }
    ensures grown { Grown graph.old graph.new }
    ensures adds { AddsAtMost graph.old graph.new 5 48 }
{
    let says = condition(graph, cond, state)?;
    match known(graph.bit_at(says)) {
        Some(taken) => plain_branch(state, taken, na),
        None => fork(state, says, na),
    }
}

/// A jump other than a call.
fn branch(graph: &mut Graph, state: &SymState, cond: Cond, na: Addr) -> Result<Stepped, OutOfMemory>
    requires jump { cond ≢ Cond.Call }
    requires state { IsSymState graph.old state.now }
    requires room { length graph.old.nodes + 5 ≤ 2 ^ 31 }
    ensures after { IfOk result (λ r. (image : Image) (spare : Spare) → IsSteppedAfter graph.new state.now r (next_by (Instr.Jp cond na spare) image)) }
    ensures forks { IfOk result (λ r. (spare : Spare) → ForksAtOpenJump graph.new state.now (Instr.Jp cond na spare) r) }
    ensures grown { Grown graph.old graph.new }
    ensures adds { AddsAtMost graph.old graph.new 5 48 }
{
    match decided(cond, state.rqm) {
        Some(taken) => plain_branch(state, taken, na),
        None => open_branch(graph, state, cond, na),
    }
}

/// The level of the stack above one.
fn level_up(sp: u8) -> u8
    requires { sp < 4 }
    ensures value { result ≡ sp_up sp }
    ensures below { result < 4 }
{
    (sp + 1) & 0x3
}

/// The level below it.
fn level_down(sp: u8) -> u8
    requires { sp < 4 }
    ensures value { result ≡ sp_down sp }
    ensures below { result < 4 }
{
    (sp + 3) & 0x3
}

/// The stack with the return address at its level.
fn pushed(state: &SymState, past: u16) -> [u16; 4]
    requires sp { state.now.sp < 4 }
    requires stack { length state.now.stack ≡ 4 }
    ensures { result ≡ slice_set state.now.stack state.now.sp past }
{
    let mut stack = state.stack;
    stack[usize::from(state.sp)] = past;
    stack
}

/// The address at a level of the stack.
fn address_at(state: &SymState, level: u8) -> u16
    requires sp { level < 4 }
    requires stack { length state.now.stack ≡ 4 }
    ensures { result ≡ slice_index state.now.stack level }
{
    state.stack[usize::from(level)]
}

/// A call: the return address goes onto the stack.
fn call(state: &SymState, na: Addr) -> Result<SymState, OutOfMemory>
    requires pc { state.now.pc < 2048 }
    requires sp { state.now.sp < 4 }
    requires stack { length state.now.stack ≡ 4 }
    ensures { IfOk result (λ next. (g : Terms) (image : Image) (spare : Spare) → IsSymState g state.now →
        IsAfter g state.now next (next_by (Instr.Jp Cond.Call na spare) image)) }
{
    let next = state.at(na.value)?;
    Ok(SymState {
        sp: level_up(state.sp),
        stack: pushed(state, next_address(state.pc)),
        ..next
    })
}

/// A jump.
pub(crate) fn jump(
    graph: &mut Graph,
    state: &SymState,
    cond: Cond,
    na: Addr,
) -> Result<Stepped, OutOfMemory>
    requires state { IsSymState graph.old state.now }
    requires room { length graph.old.nodes + 5 ≤ 2 ^ 31 }
    ensures after { IfOk result (λ r. (image : Image) (spare : Spare) → IsSteppedAfter graph.new state.now r (next_by (Instr.Jp cond na spare) image)) }
    ensures forks { IfOk result (λ r. (spare : Spare) → ForksAtOpenJump graph.new state.now (Instr.Jp cond na spare) r) }
    ensures grown { Grown graph.old graph.new }
    ensures adds { AddsAtMost graph.old graph.new 5 48 }
{
    match cond {
        Cond::Call => {
            let next = call(state, na)?;
            Ok(Stepped::One(next))
        }
        _ => branch(graph, state, cond, na),
    }
}

/// A return after the rest of the word's work: the address comes back from the stack.
pub(crate) fn popped(next: SymState, state: &SymState) -> SymState
    requires sp { state.now.sp < 4 }
    requires stack { length state.now.stack ≡ 4 }
    ensures { (g : Terms) (op : OpWord) (image : Image) → IsSymState g state.now → IsAfter g state.now next (next_by (Instr.Op op) image) →
        IsAfter g state.now result (next_by (Instr.Rt op) image) }
{
    let sp = level_down(state.sp);
    SymState {
        pc: address_at(state, sp),
        sp,
        ..next
    }
}
