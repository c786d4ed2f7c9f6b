//! Which bytes of the inputs stand under a node.
ghost use Rattle.std.specs.Prelude.{◌≡◌, ◌<◌, ℕ, ◌||◌, ◌==◌, true, false};
ghost use Rattle.wb_graph.specs.Places.{has_byte};

/// The input bytes under a node, and whether anything else may stand there.
#[derive(Clone, Copy, PartialEq, Eq, Debug)]
pub struct Places {
    /// For each place whether its byte stands under the node.
    pub(crate) bytes: [bool; 16],
    /// Whether words of the RAM's start may stand there, or bytes that aren't told.
    pub(crate) cells: bool,
}

impl Places {
    /// No inputs.
    pub(crate) fn none() -> Self
        ensures bytes { (place : ℕ) → has_byte result place ≡ false }
        ensures cells { result.cells ≡ false }
    {
        Places {
            bytes: [false; 16],
            cells: false,
        }
    }

    /// Nothing is told.
    pub(crate) fn unknown() -> Self
        ensures bytes { (place : ℕ) → has_byte result place ≡ false }
        ensures cells { result.cells ≡ true }
    {
        Places {
            bytes: [false; 16],
            cells: true,
        }
    }

    /// One byte.
    pub(crate) fn of_byte(at: u8) -> Self
        requires { at < 16 }
        ensures bytes { (place : ℕ) → has_byte result place ≡ (place == at) }
        ensures cells { result.cells ≡ false }
    {
        let mut bytes = [false; 16];
        bytes[usize::from(at)] = true;
        Places {
            bytes,
            cells: false,
        }
    }

    /// What stands under the one or the other.
    pub(crate) fn with(&self, other: &Places) -> Self
        ensures bytes { (place : ℕ) → has_byte result place ≡ (has_byte self.now place || has_byte other.now place) }
        ensures cells { result.cells ≡ (self.now.cells || other.now.cells) }
    {
        let mut bytes = self.bytes;
        for at in 0..16 {
            bytes[at] |= other.bytes[at];
        }
        Places {
            bytes,
            cells: self.cells || other.cells,
        }
    }

    /// Whether only bytes are among these, each of which is among the others.
    pub(crate) fn are_within(&self, other: &Places) -> bool
        ensures cells { result ≡ true → self.now.cells ≡ false }
        ensures bytes { result ≡ true → (place : ℕ) → has_byte self.now place ≡ true → has_byte other.now place ≡ true }
    {
        if self.cells {
            return false;
        }
        for at in 0..16 {
            if self.bytes[at] && !other.bytes[at] {
                return false;
            }
        }
        true
    }
}
