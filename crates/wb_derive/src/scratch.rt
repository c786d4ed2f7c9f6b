//! The memory of the checker.
ghost use Rattle.std.specs.Prelude.{◌≡◌, ◌≤◌, ◌<◌, IfOk, vec_len};
ghost use Rattle.wb_derive.specs.Partial.{assume};
ghost use Rattle.wb_derive.specs.Course.{partial_of, StampsWithin};

use std::alloc::Global;
use std::marker::Model;
use wb_gate::{Formula, Lit};
use wb_word::OutOfMemory;

/// The value that a variable had in the step of a stamp.
#[derive(Clone, Copy)]
pub struct Mark {
    pub stamp: u64,
    pub value: bool,
}

/// Room for a value of each variable of a formula, seen as the number of variables that it covers.
#[derive(Drop)]
pub struct CheckScratch {
    pub(crate) marks: Vec<Mark>,
}

impl Model for CheckScratch {
    ghost use Rattle.std.specs.Prelude.{ℕ, vec_len};

    ghost Value = { ℕ };

    ghost view = { λ scratch. vec_len scratch.marks };
}

impl CheckScratch {
    ghost use Rattle.std.specs.Prelude.{◌≡◌, IfOk};
    ghost use Rattle.wb_gate.specs.Circuit.{variables};

    /// Room for the variables of this formula.
    pub fn for_formula(alloc: Global, formula: &Formula) -> Result<CheckScratch, OutOfMemory>
        ensures { IfOk result (λ scratch. scratch ≡ variables formula.now) }
    {
        let empty = Mark {
            stamp: 0,
            value: false,
        };
        let marks = vec![in alloc; empty; formula.variables() as usize]?;
        Ok(CheckScratch { marks })
    }
}

/// Forgets all values.
pub fn clear(marks: &mut Vec<Mark>)
    ensures stamps { StampsWithin 0 marks.new.items }
    ensures length { vec_len marks.new ≡ vec_len marks.old }
{
    for mark in marks.iter_mut() {
        mark.stamp = 0;
    }
}

/// The value of a variable under a stamp.
pub fn value_of(marks: &Vec<Mark>, stamp: u64, var: u32) -> Option<bool>
    ensures { result ≡ partial_of marks.now.items stamp var }
{
    match marks.get(var as usize) {
        Some(mark) if mark.stamp == stamp => Some(mark.value),
        _ => None,
    }
}

/// Makes a literal true under a stamp.
pub fn set_true(marks: &mut Vec<Mark>, stamp: u64, lit: Lit)
    requires { lit.var < vec_len marks.old }
    ensures partial { partial_of marks.new.items stamp ≡ assume (partial_of marks.old.items stamp) lit }
    ensures stamps { StampsWithin stamp marks.old.items → StampsWithin stamp marks.new.items }
    ensures length { vec_len marks.new ≡ vec_len marks.old }
{
    marks[lit.var as usize] = Mark {
        stamp,
        value: !lit.neg,
    };
}
