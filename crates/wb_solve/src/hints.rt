//! The hints of a step: the clauses on which its conflict rests.
ghost use Rattle.std.specs.Prelude.{◌≡◌, ◌<◌, ◌≤◌, OnOk, IfSome, IfNone, length, reverse};
ghost use Rattle.std.specs.List.{slice_get};
ghost use Rattle.wb_gate.specs.Circuit.{variables};
ghost use Rattle.wb_derive.specs.Partial.{nothing, refute};
ghost use Rattle.wb_derive.specs.Lawful.{Refutes};
ghost use Rattle.wb_solve.specs.Descent.{clause_of};
ghost use Rattle.wb_solve.specs.Course.{known_to};
ghost use Rattle.wb_solve.specs.Turns.{FalsifiedAt};
ghost use Rattle.wb_solve.specs.Trails.{AllNamed, made, AreJust, assumed_in, marked, MarksAll, MarksMore, MarksClause, IsMarkedReason};

use crate::marks::Marks;
use crate::trail::{Entry, Reason, Trail};
use wb_derive::Step;
use wb_gate::Formula;
use wb_word::OutOfMemory;

/// Marks the variables of the clause of a number: first those of the formula, then those of the steps.
fn mark_number(formula: &Formula, steps: &[Step], marks: &mut Marks, number: u64)
    requires number { number < length (known_to formula.now steps.now) }
    requires named { AllNamed (variables formula.now) (known_to formula.now steps.now) }
    requires covers { length marks.old.stamps ≡ variables formula.now }
    ensures marked { MarksClause (marked marks.new) (known_to formula.now steps.now) number }
    ensures more { MarksMore (marked marks.old) (marked marks.new) }
    ensures stamps { length marks.new.stamps ≡ length marks.old.stamps }
{
    let found = formula.clause_at(number);
    match &found {
        Some(clause) => marks.mark_clause(clause.as_slice()),
        None => {
            let place = (number - formula.clauses()) as usize;
            marks.mark_clause(steps[place].clause.lits());
        }
    }
}

/// The clause that gave a marked variable its value.
fn marked_reason(entry: Entry, marks: &Marks) -> Option<u64>
    ensures { IsMarkedReason (marked marks.now) entry result }
{
    match entry.reason {
        Reason::Assumed => None,
        Reason::Clause(number) => if marks.is_marked(entry.lit.var) {
            Some(number)
        } else {
            None
        },
    }
}

/// Writes the hints of the step of a conflict, in which this clause is falsified: of the clauses that were unit, in
/// order, those on which it rests, and then the clause itself.
pub fn write_hints(
    formula: &Formula,
    steps: &[Step],
    trail: &Trail,
    marks: &mut Marks,
    hints: &mut Vec<u64>,
    number: u64,
) -> Result<(), OutOfMemory>
    requires named { AllNamed (variables formula.now) (known_to formula.now steps.now) }
    requires covers { length marks.old.stamps ≡ variables formula.now }
    requires just { AreJust formula.now.inputs (known_to formula.now steps.now) trail.now.entries }
    requires falsified { FalsifiedAt (known_to formula.now steps.now) (made trail.now.entries) number }
    ensures hints { OnOk result (Refutes (known_to formula.now steps.now) hints.new.items (refute (clause_of (assumed_in trail.now.entries)) nothing)) }
    ensures stamps { length marks.new.stamps ≡ length marks.old.stamps }
{
    marks.restart(steps.len() as u64 + 1);
    hints.clear();
    hints.push(number)?;
    mark_number(formula, steps, marks, number);
    let mut place = trail.len();
    while place > 0 {
        place -= 1;
        if let Some(reason) = marked_reason(trail.entry(place), marks) {
            hints.push(reason)?;
            mark_number(formula, steps, marks, reason);
        }
    }
    hints.reverse();
    Ok(())
}
