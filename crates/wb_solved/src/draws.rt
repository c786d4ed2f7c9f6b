//! Numbers, gates and formulas that look random, by a seed.
ghost use Rattle.std.specs.Prelude.{◌<◌};
ghost use Rattle.wb_gate.specs.Circuit.{NamesBelow};

use std::alloc::Global;
use wb_gate::{Formula, Gate, GateFault, Goal, Lit};

/// Numbers of a fixed sequence.
#[derive(Drop)]
pub struct Draws {
    pub state: u64,
}

impl Draws {
    /// The next number below an end.
    pub fn below(&mut self, end: u32) -> u32
        requires { 0 < end }
        ensures { result < end }
    {
        self.state = self
            .state
            .wrapping_mul(6364136223846793005)
            .wrapping_add(1442695040888963407);
        ((self.state >> 33) % u64::from(end)) as u32
    }

    fn lit(&mut self, end: u32) -> Lit
        requires { 0 < end }
        ensures { result.var < end }
    {
        let var = self.below(end);
        let neg = self.below(2) == 1;
        Lit { var, neg }
    }

    fn gate(&mut self, end: u32) -> Gate
        requires { 0 < end }
        ensures { NamesBelow end result }
    {
        let x = self.lit(end);
        let y = self.lit(end);
        let z = self.lit(end);
        match self.below(4) {
            0 => Gate::And(x, y),
            1 => Gate::Xor(x, y),
            2 => Gate::Mux(x, y, z),
            _ => Gate::Maj(x, y, z),
        }
    }

    /// A formula of one input to five, and up to eight gates.
    pub fn formula(&mut self, alloc: Global) -> Result<Formula, GateFault> {
        let mut formula = Formula::new(alloc, 1 + self.below(5), 8);
        for _gate in 0..self.below(9) {
            let end = formula.variables();
            if end > 0 && formula.gates() < 8 {
                let gate = self.gate(end);
                formula.add(gate)?;
            }
        }
        let end = formula.variables();
        if end > 0 {
            formula.set_goal(Goal::Lit(self.lit(end)));
        }
        Ok(formula)
    }
}
