//! Steps of a derivation.
ghost use Rattle.std.specs.Prelude.{◌≡◌, ◌↔◌, [], ◌∷◌, ◌++◌, true, IfOk, IfSome, IsSome, OnOk, OnErr, length};

use crate::rising::rises;
use std::alloc::Global;
use std::marker::Model;
use wb_gate::Lit;
use wb_word::OutOfMemory;

/// A clause whose variables rise.
#[derive(Drop)]
pub struct Clause {
    lits: Vec<Lit>,
}

impl Model for Clause {
    ghost use Rattle.std.specs.Prelude.{◌≡◌, true, List};
    ghost use Rattle.wb_gate.specs.declared.gates.Lit.{Lit};
    ghost use Rattle.wb_derive.specs.Clause.{rises};

    ghost Value = { List Lit };

    ghost view = { λ clause. clause.lits.items };

    ghost invariant = { λ clause. rises clause.lits.items ≡ true };
}

impl Clause {
    ghost use Rattle.wb_derive.specs.Clause.{rises};

    /// A clause of these literals, or none where their variables don't rise strictly.
    pub fn new(alloc: Global, lits: &[Lit]) -> Result<Option<Clause>, OutOfMemory>
        ensures clause { IfOk result (λ made. IfSome made (λ clause. clause ≡ lits.now)) }
        ensures made { IfOk result (λ made. IsSome made ↔ (rises lits.now ≡ true)) }
    {
        if !rises(lits) {
            return Ok(None);
        }
        let lits = lits.to_vec(alloc)?;
        Ok(Some(Clause { lits }))
    }

    /// The literals in order.
    pub fn lits(&self) -> &[Lit]
        ensures lits { result.now ≡ self.now }
        ensures rises { rises self.now ≡ true }
    {
        self.lits.as_slice()
    }
}

/// Numbers of clauses: first those of the formula, then the steps.
#[derive(Drop)]
pub struct Hints {
    numbers: Vec<u64>,
}

impl Model for Hints {
    ghost use Rattle.std.specs.Prelude.{ℕ, List};

    ghost Value = { List ℕ };

    ghost view = { λ hints. hints.numbers.items };
}

impl Hints {
    /// The numbers in order.
    pub fn numbers(&self) -> &[u64]
        ensures { result.now ≡ self.now }
    {
        self.numbers.as_slice()
    }
}

/// A step of a derivation: a clause, and the clauses that imply it, one after the other.
#[derive(Drop)]
pub struct Step {
    pub clause: Clause,
    pub hints: Hints,
}

impl Step {
    /// A step of this clause with these hints. Where memory is refused, the clause is dropped.
    pub fn new(alloc: Global, clause: Clause, hints: &[u64]) -> Result<Step, OutOfMemory>
        ensures clause { IfOk result (λ step. step.clause ≡ clause) }
        ensures hints { IfOk result (λ step. step.hints ≡ hints.now) }
    {
        let numbers = hints.to_vec(alloc)?;
        Ok(Step {
            clause,
            hints: Hints { numbers },
        })
    }
}

/// Steps in order.
#[derive(Drop)]
pub struct Derivation {
    steps: Vec<Step>,
}

impl Model for Derivation {
    ghost use Rattle.std.specs.Prelude.{List};
    ghost use Rattle.wb_derive.specs.declared.steps.Step.{Step};

    ghost Value = { List Step };

    ghost view = { λ derivation. derivation.steps.items };
}

impl Derivation {
    /// No steps, which takes no memory.
    pub fn new(alloc: Global) -> Derivation
        ensures { result ≡ [] }
    {
        Derivation {
            steps: Vec::new(alloc),
        }
    }

    /// One more step at the end. Where memory is refused, the step is dropped, and nothing else changes.
    pub fn push(&mut self, step: Step) -> Result<(), OutOfMemory>
        ensures ok { OnOk result (self.new ≡ self.old ++ step ∷ []) }
        ensures err { OnErr result (self.new ≡ self.old) }
    {
        self.steps.push(step)?;
        Ok(())
    }

    /// The steps in order.
    pub fn steps(&self) -> &[Step]
        ensures { result.now ≡ self.now }
    {
        self.steps.as_slice()
    }
}
