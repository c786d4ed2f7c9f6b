ghost use Rattle.std.specs.Prelude.{◌≡◌, ◌+◌, ◌≤◌, ◌^◌, Bool, IfOk, length, slice_index};
ghost use Rattle.wb_term.specs.declared.nodes.Node.{Node};
ghost use Rattle.wb_term.specs.Inputs.{Assignment, IsAssignment};
ghost use Rattle.wb_term.specs.Terms.{IsKept, table_of, table_words};
ghost use Rattle.wb_term.specs.Growth.{Grown, AddsAtMost};
ghost use Rattle.wb_word.specs.Encoding.{instr_of};
ghost use Rattle.wb_machine.specs.State.{State, IsState};
ghost use Rattle.wb_machine.specs.Next.{next, next_by};
ghost use Rattle.wb_symstep.specs.State.{StandsFor, IsSymState, StateHasOnly};
ghost use Rattle.wb_symstep.specs.Stepped.{chosen, IsStepped, SteppedHasOnly, ForksAtOpenJump};
ghost use Rattle.wb_symstep.specs.Parts.{IsSteppedAfter};

use crate::jumps::{jump, popped};
use crate::operate::{load, operate};
use crate::state::SymState;
use crate::stepped::Stepped;
use std::alloc::Global;
use wb_rom::Image;
use wb_term::{Graph, OutOfMemory, Table};
use wb_word::{Addr, Instr, Side, decode};

/// One instruction under all inputs.
fn step_by(
    graph: &mut Graph,
    alloc: Global,
    image: &Image,
    table: Table,
    state: &SymState,
    instr: Instr,
) -> Result<Stepped, OutOfMemory>
    requires state { IsSymState graph.old state.now }
    requires kept { IsKept graph.old.tables table }
    requires words { table_words graph.old.tables table ≡ image.now.drom }
    requires room { length graph.old.nodes + 1200 ≤ 2 ^ 31 }
    ensures after { IfOk result (λ r. IsSteppedAfter graph.new state.now r (next_by instr image.now)) }
    ensures forks { IfOk result (ForksAtOpenJump graph.new state.now instr) }
    ensures grown { Grown graph.old graph.new }
    ensures adds { AddsAtMost graph.old graph.new 1200 120000 }
{
    match instr {
        Instr::Op(op) => {
            let next = operate(graph, alloc, image, table, state, &op)?;
            Ok(Stepped::One(next))
        }
        Instr::Rt(op) => {
            let next = operate(graph, alloc, image, table, state, &op)?;
            Ok(Stepped::One(popped(next, state)))
        }
        Instr::Jp { cond, na, .. } => jump(graph, state, cond, na),
        Instr::Ld { value, dst, .. } => {
            let next = load(graph, alloc, image, table, state, value, dst)?;
            Ok(Stepped::One(next))
        }
    }
}

/// One instruction of the chip of a side, at the program counter of the state, under all inputs.
///
/// It forks at a conditional jump alone, and only where the condition isn't a constant node. The graph may have
/// grown after a refusal.
pub fn sym_step(
    graph: &mut Graph,
    alloc: Global,
    image: &Image,
    side: Side,
    state: &SymState,
) -> Result<Stepped, OutOfMemory>
    requires state { IsSymState graph.old state.now }
    requires words { table_words graph.old.tables (table_of graph.old.tables side) ≡ image.now.drom }
    requires room { length graph.old.nodes + 1200 ≤ 2 ^ 31 }
    ensures stands { IfOk result (λ stepped. (inputs : Assignment) → IsAssignment inputs → (m : State) → IsState m → StandsFor inputs graph.old state.now m →
        StandsFor inputs graph.new (chosen inputs graph.new stepped) (next image.now m)) }
    ensures forks { IfOk result (ForksAtOpenJump graph.new state.now (instr_of (slice_index image.now.prog state.now.pc))) }
    ensures state { IfOk result (IsStepped graph.new) }
    ensures inputs { IfOk result (λ stepped. (allowed : Node → Bool) → StateHasOnly graph.old allowed state.now → SteppedHasOnly graph.new allowed stepped) }
    ensures grown { Grown graph.old graph.new }
    ensures adds { AddsAtMost graph.old graph.new 1200 120000 }
{
    let table = graph.table_of(side);
    let word = image.word_at(Addr { value: state.pc });
    step_by(graph, alloc, image, table, state, decode(word))
}
