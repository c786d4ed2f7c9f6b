//! States and kinds to work with.
ghost use Rattle.std.specs.Prelude.{◌≡◌, ◌≤◌, IfOk, length};
ghost use Rattle.wb_term.specs.Terms.{HasBit};
ghost use Rattle.wb_symstep.specs.State.{IsSymState};
ghost use Rattle.wb_point.specs.Shows.{SamePlace};

use std::alloc::Global;
use wb_make::{mk_byte, mk_const, mk_pick};
use wb_point::{OutOfMemory, SymState};
use wb_port::{Kind, Kinds};
use wb_term::{BitId, Graph};
use wb_word::Rom;

/// Two states that differ in A, which is 1 or 2, and a bit: the lowest of the first byte.
#[derive(Drop)]
pub struct Two {
    pub graph: Graph,
    pub low: BitId,
    pub one: SymState,
    pub two: SymState,
}

pub fn two_states(alloc: Global) -> Result<Two, OutOfMemory>
    ensures low { IfOk result (λ t. HasBit t.graph t.low) }
    ensures one { IfOk result (λ t. IsSymState t.graph t.one) }
    ensures two { IfOk result (λ t. IsSymState t.graph t.two) }
    ensures same { IfOk result (λ t. SamePlace t.one t.two) }
    ensures short { IfOk result (λ t. length t.graph.nodes ≤ 32) }
{
    let table = Rom::zero(alloc)?;
    let mut graph = Graph::new(alloc, &table, &table)?;
    let first = mk_const(&mut graph, 1)?;
    let second = mk_const(&mut graph, 2)?;
    let byte = mk_byte(&mut graph, 0)?;
    let low = mk_pick(&mut graph, byte, 0)?;
    let mut one = SymState::reset(&mut graph, alloc)?;
    one.a = first;
    let mut two = one.share()?;
    two.a = second;
    Ok(Two {
        graph,
        low,
        one,
        two,
    })
}

/// A write, a read and a write.
pub fn three_kinds(alloc: Global) -> Result<Kinds, OutOfMemory>
    ensures { IfOk result (λ kinds. length kinds ≡ 3) }
{
    let mut kinds = Kinds::new(alloc);
    kinds.push(Kind::Write)?;
    kinds.push(Kind::Read)?;
    kinds.push(Kind::Write)?;
    Ok(kinds)
}
