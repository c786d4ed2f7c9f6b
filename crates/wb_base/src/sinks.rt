//! The trait of what takes bytes.
ghost use Rattle.std.specs.Prelude.{◌≤◌, ℕ, List, Option};
ghost use Rattle.wb_base.specs.Sink.{IsPut};

use crate::Failed;

/// What takes the bytes of a report, piece by piece.
pub trait Sink {
    // The bytes taken, or `None` where the sink does not tell.
    ghost taken: { Self → Option (List ℕ) };

    ghost faults: { Self → ℕ };

    /// Takes bytes from the front of `piece`, and says how many.
    fn put(&mut self, piece: &[u8]) -> Result<usize, Failed>
        ensures later { faults self.old ≤ faults self.new }
        ensures put { IsPut (taken self.old) (taken self.new) (faults self.old) (faults self.new) piece.now result };
}
