ghost use Rattle.std.specs.Prelude.{◌≡◌, IfOk};

use crate::state::SymState;
use wb_term::OutOfMemory;

impl SymState {
    /// The same state. The pages of its RAM are shared.
    pub fn share(&self) -> Result<SymState, OutOfMemory>
        ensures { IfOk result (λ s. s ≡ self.now) }
    {
        self.at(self.pc)
    }

    /// The same state at an address.
    pub(crate) fn at(&self, pc: u16) -> Result<SymState, OutOfMemory>
        ensures { IfOk result (λ s. s ≡ record self.now { pc = pc }) }
    {
        let ram = self.ram.share()?;
        Ok(SymState { pc, ram, ..*self })
    }
}
