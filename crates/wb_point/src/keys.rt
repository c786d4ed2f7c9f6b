ghost use Rattle.std.specs.Prelude.{◌≡◌, ◌↔◌, true};
ghost use Rattle.wb_term.specs.Inputs.{Assignment};
ghost use Rattle.wb_term.specs.Terms.{Terms};
ghost use Rattle.wb_machine.specs.State.{State};
ghost use Rattle.wb_port.specs.NextPoint.{shown_of};
ghost use Rattle.wb_symstep.specs.State.{StandsFor};
ghost use Rattle.wb_point.specs.Shows.{shows, SamePlace};

use wb_port::{Kinds, Point, Shown};
use wb_symstep::SymState;

/// What a point shows of the machine for which a state stands: its concrete parts.
pub fn shown(state: &SymState) -> Shown
    ensures value { result ≡ shows state.now }
    ensures stands { (inputs : Assignment) (g : Terms) (m : State) → StandsFor inputs g state.now m → result ≡ shown_of m }
{
    Shown {
        pc: state.pc,
        sp: state.sp,
        stack: state.stack,
        rqm: state.rqm,
        drs: state.drs,
    }
}

/// Whether the concrete parts of two states are equal.
pub fn same_place(one: &SymState, other: &SymState) -> bool
    ensures { (result ≡ true) ↔ SamePlace one.now other.now }
{
    shown(one) == shown(other)
}

/// Whether two points are equal.
pub fn same_key(one: &Point, other: &Point) -> bool
    ensures { (result ≡ true) ↔ (one.now ≡ other.now) }
{
    same_counts(one, other)
        && shown_by(one) == shown_by(other)
        && same_kinds(&one.kinds, &other.kinds)
}

/// What a point shows of its machine.
fn shown_by(point: &Point) -> Shown
    ensures { result ≡ record { pc = point.now.pc; sp = point.now.sp; stack = point.now.stack; rqm = point.now.rqm; drs = point.now.drs } }
{
    Shown {
        pc: point.pc,
        sp: point.sp,
        stack: point.stack,
        rqm: point.rqm,
        drs: point.drs,
    }
}

/// Whether two points have one side, one count, and both are asked or neither.
fn same_counts(one: &Point, other: &Point) -> bool
    ensures { (result ≡ true) ↔ ((one.now.side ≡ other.now.side) × (one.now.count ≡ other.now.count) × (one.now.asked ≡ other.now.asked)) }
{
    one.count == other.count && one.asked == other.asked && one.side == other.side
}

/// Whether the same transfers were made, in the same order.
fn same_kinds(one: &Kinds, other: &Kinds) -> bool
    ensures { (result ≡ true) ↔ (one.now ≡ other.now) }
{
    one.list() == other.list()
}
