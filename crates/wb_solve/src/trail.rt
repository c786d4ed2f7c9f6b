//! The trail: the literals that were made true, in order.
ghost use Rattle.std.specs.Prelude.{◌≡◌, ◌<◌, ◌≤◌, ◌↔◌, IsTrue, None, Some, [], ◌∷◌, ◌++◌, IfOk, OnOk, IfSome, IfNone, length, slice_get};
ghost use Rattle.wb_derive.specs.Partial.{IsFalse};
ghost use Rattle.wb_solve.specs.Trails.{made, Holds};
ghost use Rattle.wb_solve.specs.Course.{partial_of};

use std::alloc::Global;
use std::marker::Model;
use wb_gate::Lit;
use wb_word::OutOfMemory;

/// Why a literal was made true.
#[derive(Clone, Copy)]
pub enum Reason {
    /// It was assumed.
    Assumed,
    /// The clause of this number was unit.
    Clause(u64),
}

/// A literal that was made true.
#[derive(Clone, Copy)]
pub struct Entry {
    pub lit: Lit,
    pub reason: Reason,
}

/// The literals that were made true, in order, each with its reason, and the values that they give.
#[derive(Drop)]
pub struct Trail {
    entries: Vec<Entry>,
    values: Vec<Option<bool>>,
}

impl Model for Trail {
    ghost use Rattle.std.specs.Prelude.{length};
    ghost use Rattle.wb_solve.specs.Trails.{Track, IsTrail};

    ghost Value = { Track };

    ghost view = { λ trail. record { entries = trail.entries.items; variables = length trail.values.items } };

    ghost invariant = { λ trail. IsTrail trail.entries.items trail.values.items };
}

impl Trail {
    /// A trail over so many variables, on which nothing was made true.
    pub fn new(alloc: Global, variables: u32) -> Result<Trail, OutOfMemory>
        ensures entries { IfOk result (λ trail. trail.entries ≡ []) }
        ensures variables { IfOk result (λ trail. trail.variables ≡ variables) }
    {
        let values = vec![in alloc; None; variables as usize]?;
        Ok(Trail {
            entries: Vec::new(alloc),
            values,
        })
    }

    /// How many literals were made true.
    pub fn len(&self) -> usize
        ensures length { result ≡ length self.now.entries }
        ensures few { result ≤ self.now.variables }
    {
        self.entries.len()
    }

    /// The literal that was made true at a place.
    pub fn entry(&self, place: usize) -> Entry
        requires { place < length self.now.entries }
        ensures entry { slice_get self.now.entries place ≡ Some result }
        ensures below { result.lit.var < self.now.variables }
    {
        self.entries[place]
    }

    /// The value of a variable.
    pub fn value(&self, var: u32) -> Option<bool>
        ensures { result ≡ made self.now.entries var }
    {
        match self.values.get(var as usize) {
            Some(value) => *value,
            None => None,
        }
    }

    /// The values of the variables.
    pub fn values(&self) -> &[Option<bool>]
        ensures values { partial_of result.now ≡ made self.now.entries }
        ensures covers { length result.now ≡ self.now.variables }
    {
        self.values.as_slice()
    }

    /// Makes a literal true.
    pub fn push(&mut self, lit: Lit, reason: Reason) -> Result<(), OutOfMemory>
        requires below { lit.var < self.old.variables }
        requires still_open { made self.old.entries lit.var ≡ None }
        ensures entries { OnOk result (self.new.entries ≡ self.old.entries ++ record { lit = lit; reason = reason } ∷ []) }
        ensures variables { OnOk result (self.new.variables ≡ self.old.variables) }
        ensures few { OnOk result (length self.new.entries ≤ self.new.variables) }
    {
        self.entries.push(Entry { lit, reason })?;
        self.values[lit.var as usize] = Some(!lit.neg);
        Ok(())
    }

    /// Takes back the literal that was made true last.
    pub fn pop(&mut self) -> Option<Entry>
        ensures some { IfSome result (λ entry. self.old.entries ≡ self.new.entries ++ entry ∷ []) }
        ensures none { IfNone result (self.old.entries ≡ []) }
        ensures variables { self.new.variables ≡ self.old.variables }
    {
        match self.entries.pop() {
            Some(entry) => {
                self.values[entry.lit.var as usize] = None;
                Some(entry)
            }
            None => None,
        }
    }
}
