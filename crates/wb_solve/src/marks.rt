//! Marked variables.
ghost use Rattle.std.specs.Prelude.{◌≡◌, ◌<◌, ◌≤◌, true, IfOk, length};
ghost use Rattle.wb_gate.specs.Clauses.{names_only};
ghost use Rattle.wb_solve.specs.Trails.{marked, MarksAll, MarksMore};

use std::alloc::Global;
use std::marker::Model;
use wb_gate::Lit;
use wb_word::OutOfMemory;

/// Which variables are marked: those with the stamp of now.
#[derive(Drop)]
pub struct Marks {
    stamps: Vec<u64>,
    stamp: u64,
}

impl Model for Marks {
    ghost use Rattle.wb_solve.specs.Trails.{MarkSet};

    ghost Value = { MarkSet };

    ghost view = { λ marks. record { stamp = marks.stamp; stamps = marks.stamps.items } };
}

impl Marks {
    /// Room for marks of so many variables.
    pub fn new(alloc: Global, variables: u32) -> Result<Marks, OutOfMemory>
        ensures { IfOk result (λ marks. length marks.stamps ≡ variables) }
    {
        let stamps = vec![in alloc; 0; variables as usize]?;
        Ok(Marks { stamps, stamp: 0 })
    }

    /// Takes a new stamp, and so takes all marks away.
    pub fn restart(&mut self, stamp: u64)
        ensures { length self.new.stamps ≡ length self.old.stamps }
    {
        self.stamp = stamp;
    }

    /// Whether a variable is marked.
    pub fn is_marked(&self, var: u32) -> bool
        ensures { result ≡ marked self.now var }
    {
        match self.stamps.get(var as usize) {
            Some(stamp) => *stamp == self.stamp,
            None => false,
        }
    }

    /// Marks a variable.
    fn mark(&mut self, var: u32)
        requires { var < length self.old.stamps }
        ensures marked { marked self.new var ≡ true }
        ensures more { MarksMore (marked self.old) (marked self.new) }
        ensures variables { length self.new.stamps ≡ length self.old.stamps }
    {
        self.stamps[var as usize] = self.stamp;
    }

    /// Marks the variables of a clause.
    pub fn mark_clause(&mut self, clause: &[Lit])
        requires { names_only (length self.old.stamps) clause.now ≡ true }
        ensures marked { MarksAll (marked self.new) clause.now }
        ensures more { MarksMore (marked self.old) (marked self.new) }
        ensures variables { length self.new.stamps ≡ length self.old.stamps }
    {
        for lit in clause {
            self.mark(lit.var);
        }
    }
}
