use crate::budget::Budget;
use crate::reached::{Reached, ReachedPoint};
use std::alloc::Global;
use std::marker::Model;
use wb_word::OutOfMemory;

/// The points that an exploration has reached, within its budget.
///
/// They are pairwise different, and never more than the budget has.
#[derive(Drop)]
pub struct Purse {
    budget: Budget,
    reached: Reached,
}

impl Model for Purse {
    ghost use Rattle.wb_explore.specs.Purses.{Holding, IsPurse};

    ghost Value = { Holding };

    ghost view = { λ p. record { budget = p.budget; reached = p.reached } };

    ghost invariant = { λ p. IsPurse (record { budget = p.budget; reached = p.reached }) };
}

impl Purse {
    ghost use Rattle.std.specs.Prelude.{◌≡◌, ◌≢◌, ◌↔◌, ◌<◌, ◌≤◌, true, [], ◌∷◌, ◌++◌, OnOk, OnErr, length, All};
    ghost use Rattle.wb_explore.specs.Purses.{Holding, IsPurse};

    /// A purse of no points.
    pub fn new(alloc: Global, budget: Budget) -> Self
        requires some { 1 ≤ budget.points }
        requires most { budget.points ≤ 8192 }
        ensures budget { result.budget ≡ budget }
        ensures empty { result.reached ≡ [] }
    {
        Purse {
            budget,
            reached: Reached::new(alloc),
        }
    }

    /// How much may be spent.
    pub fn budget(&self) -> Budget
        ensures { result ≡ self.now.budget }
    {
        self.budget
    }

    /// The points that were reached, in order.
    pub fn points(&self) -> &Reached
        ensures value { result.now ≡ self.now.reached }
        ensures purse { IsPurse self.now }
    {
        &self.reached
    }

    /// Whether no further point may be reached.
    pub(crate) fn is_full(&self) -> bool
        ensures full { (result ≡ true) ↔ (length self.now.reached ≡ self.now.budget.points) }
        ensures purse { IsPurse self.now }
    {
        self.reached.len() == self.budget.points as usize
    }

    /// One more point at the end. A refusal changes nothing.
    pub(crate) fn add(&mut self, reached: ReachedPoint) -> Result<(), OutOfMemory>
        requires room { length self.old.reached < self.old.budget.points }
        requires fresh { All (λ r. r.point ≢ reached.point) self.old.reached }
        ensures ok { OnOk result (self.new ≡ record self.old { reached = self.old.reached ++ reached ∷ [] }) }
        ensures err { OnErr result (self.new ≡ self.old) }
    {
        self.reached.push(reached)
    }
}
