//! Literals whose variables rise.
ghost use Rattle.std.specs.Prelude.{◌≡◌};
ghost use Rattle.wb_derive.specs.Clause.{rises};

use wb_gate::Lit;

/// Whether the variables of these literals rise strictly.
pub fn rises(lits: &[Lit]) -> bool
    ensures { result ≡ rises lits.now }
{
    let mut least = 0;
    for lit in lits {
        let var = u64::from(lit.var);
        if var < least {
            return false;
        }
        least = var + 1;
    }
    true
}
