//! An oracle that counts how often it is asked.
use std::alloc::Global;
use wb_gate::Formula;
use wb_query::Oracle;
use wb_solve::Answer;
use wb_word::OutOfMemory;

/// An oracle, and how often it was asked. The count stays at its greatest number once it is there.
#[derive(Drop)]
pub struct Counting<O: Oracle> {
    oracle: O,
    asked: u64,
}

impl<O: Oracle> Counting<O> {
    ghost use Rattle.std.specs.Prelude.{◌≡◌};

    pub fn new(oracle: O) -> Self
        ensures oracle { result.oracle ≡ oracle }
        ensures none { result.asked ≡ 0 }
    {
        Counting { oracle, asked: 0 }
    }

    pub fn asked(&self) -> u64
        ensures { result ≡ self.now.asked }
    {
        self.asked
    }
}

impl<O: Oracle> Oracle for Counting<O> {
    ghost use Rattle.std.specs.Prelude.{◌≡◌, ◌+◌, ◌-◌, ◌^◌, min, true, IfOk};
    ghost use Rattle.wb_solve.specs.Answers.{IsAnswer};
    ghost use Rattle.wb_query.specs.Oracles.{AnswersNext};

    ghost is_sound = { λ c. O.is_sound c.oracle };

    ghost limit_of = { λ c. O.limit_of c.oracle };

    ghost held = { λ c. O.held c.oracle };

    ghost given = { λ c. O.given c.oracle };

    fn sound(&self) -> bool {
        self.oracle.sound()
    }

    fn limit(&self) -> u64 {
        self.oracle.limit()
    }

    fn answer(&mut self, alloc: Global, formula: &Formula) -> Result<Answer, OutOfMemory>
        ensures answer { O.is_sound self.old.oracle ≡ true → IfOk result (IsAnswer formula.now (O.limit_of self.old.oracle)) }
        ensures next { IfOk result (AnswersNext formula.now (O.held self.old.oracle) (O.given self.old.oracle) (O.given self.new.oracle)) }
        ensures sound { O.is_sound self.new.oracle ≡ O.is_sound self.old.oracle }
        ensures limit { O.limit_of self.new.oracle ≡ O.limit_of self.old.oracle }
        ensures held { O.held self.new.oracle ≡ O.held self.old.oracle }
        ensures counted { self.new.asked ≡ min (self.old.asked + 1) (2 ^ 64 - 1) }
    {
        self.asked = self.asked.saturating_add(1);
        self.oracle.answer(alloc, formula)
    }
}
