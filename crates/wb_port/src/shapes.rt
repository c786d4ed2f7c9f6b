ghost use Rattle.std.specs.Prelude.{◌≡◌, ◌<◌, ◌≤◌, Some, length, slice_get};

use crate::accesses::Letter;
use std::marker::Model;
use wb_word::OutOfMemory;

/// Which transfers the dialogues of a comparison may have: one letter for each place.
#[derive(Drop)]
pub struct Shape {
    letters: [Letter; 16],
    len: usize,
}

impl Model for Shape {
    ghost use Rattle.std.specs.Prelude.{List, ◌≡◌, ◌≤◌, length, take};
    ghost use Rattle.wb_port.specs.declared.accesses.Letter.{Letter};

    ghost Value = { List Letter };

    ghost view = { λ s. take s.len s.letters };

    ghost invariant = { λ s. (s.len ≤ 16) × (length s.letters ≡ 16) };
}

impl Shape {
    /// The shape with these letters. It takes no memory.
    pub fn of(letters: &[Letter]) -> Self
        requires { length letters.now ≤ 16 }
        ensures { result ≡ letters.now }
    {
        let mut kept = [Letter::X; 16];
        kept[..letters.len()].copy_from_slice(letters);
        Shape {
            letters: kept,
            len: letters.len(),
        }
    }

    /// The shape with these letters, which is never refused.
    pub fn from_letters(letters: &[Letter]) -> Result<Self, OutOfMemory>
        requires { length letters.now ≤ 16 }
        ensures { result ≡ Ok letters.now }
    {
        Ok(Shape::of(letters))
    }

    /// How many letters there are, 16 at most.
    pub fn len(&self) -> usize
        ensures value { result ≡ length self.now }
        ensures most { result ≤ 16 }
    {
        self.len
    }

    /// The letter at a place.
    pub fn letter_at(&self, at: usize) -> Letter
        requires { at < length self.now }
        ensures { slice_get self.now at ≡ Some result }
    {
        self.letters[at]
    }

    /// The letter at a place, as lists have it.
    pub fn at(&self, place: usize) -> Letter
        requires { place < length self.now }
        ensures { slice_get self.now place ≡ Some result }
    {
        self.letter_at(place)
    }
}
