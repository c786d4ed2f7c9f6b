//! The trait of what named contents are read from.
ghost use Rattle.std.specs.Prelude.{◌≡◌, ◌≤◌, ℕ, List, Option};
ghost use Rattle.wb_base.specs.Shelf.{IsRead};

use crate::Failed;

/// Named contents that are read in pieces. Bytes are counted from 0.
pub trait Shelf {
    // By the bytes of a name: `None` where the shelf does not tell, `Some None` where it has no such name.
    ghost content: { Self → List ℕ → Option (Option (List ℕ)) };

    ghost faults: { Self → ℕ };

    /// Reads bytes of a content from the place `at` on into the front of `buf`, and says how many.
    fn read_at(&mut self, name: &str, at: u64, buf: &mut [u8]) -> Result<usize, Failed>
        ensures kept { (n : List ℕ) → content self.new n ≡ content self.old n }
        ensures later { faults self.old ≤ faults self.new }
        ensures read { IsRead (content self.old name.now) at buf.old buf.new (faults self.old) (faults self.new) result };
}
