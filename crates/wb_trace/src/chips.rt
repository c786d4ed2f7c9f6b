//! The two chips.
use wb_port::{Chip, requested};
use wb_word::Side;

/// The chips of both sides.
#[derive(Drop)]
pub struct Chips {
    pub a: Chip,
    pub b: Chip,
}

impl Chips {
    ghost use Rattle.std.specs.Prelude.{◌≡◌, is_none};
    ghost use Rattle.wb_trace.specs.Standing.{are_ready, busy_side};
    ghost use Rattle.wb_trace.specs.Trace.{both_fresh};

    /// Both chips at reset.
    pub fn reset() -> Chips
        ensures { result ≡ both_fresh }
    {
        Chips {
            a: Chip::reset(),
            b: Chip::reset(),
        }
    }

    /// Equal chips.
    pub fn copy(&self) -> Chips
        ensures { result ≡ self.now }
    {
        Chips {
            a: self.a.copy(),
            b: self.b.copy(),
        }
    }

    /// The side that has no request for a transfer, A where both have none.
    pub fn busy_side(&self) -> Option<Side>
        ensures side { result ≡ busy_side self.now }
        ensures ready { are_ready self.now ≡ is_none result }
    {
        if !requested(&self.a.machine) {
            Some(Side::A)
        } else if !requested(&self.b.machine) {
            Some(Side::B)
        } else {
            None
        }
    }
}
