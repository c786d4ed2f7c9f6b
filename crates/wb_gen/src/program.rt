ghost use Rattle.std.specs.Prelude.{◌≡◌, ◌+◌, ◌<◌, ◌≤◌, IfOk, [], ◌∷◌, ◌++◌, length};
ghost use Rattle.wb_gen.specs.Demo.{HoldsProgram, closing, opening, padded};

use std::alloc::Global;
use std::marker::Model;
use wb_rom::Image;
use wb_word::{OutOfMemory, Word};

/// A program that is written word after word into an image.
#[derive(Drop)]
pub(crate) struct Program {
    image: Image,
    count: usize,
}

impl Model for Program {
    ghost use Rattle.std.specs.Prelude.{List, ℕ, take};
    ghost use Rattle.wb_gen.specs.Written.{IsWritten};

    ghost Value = { List ℕ };

    ghost view = { λ p. take p.count p.image.prog };

    ghost invariant = { λ p. IsWritten p.count p.image };
}

impl Program {
    /// No words yet. All memory is taken here.
    pub(crate) fn new(alloc: Global) -> Result<Self, OutOfMemory>
        ensures { IfOk result (λ program. program ≡ []) }
    {
        let image = Image::zero(alloc)?;
        Ok(Program { image, count: 0 })
    }

    /// Writes the next word.
    pub(crate) fn push(&mut self, word: Word)
        requires { length self.old < 2048 }
        ensures { self.new ≡ self.old ++ word.value ∷ [] }
    {
        self.image.prog.set(self.count, word.value());
        self.count += 1;
    }

    /// Writes a body word, and a word that does nothing where one has to follow.
    pub(crate) fn push_padded(&mut self, word: Word, followed: bool)
        requires { length self.old + 1 < 2048 }
        ensures { self.new ≡ self.old ++ padded followed (word.value ∷ []) }
    {
        self.push(word);
        if followed {
            self.push(Word { value: 0 });
        }
    }

    /// Writes what stands before each body.
    pub(crate) fn open(&mut self)
        requires { length self.old + 4 ≤ 2048 }
        ensures { self.new ≡ self.old ++ opening }
    {
        self.push(Word { value: 0xC10007 });
        self.push(Word { value: 0x000026 });
        self.push(Word { value: 0x97C008 });
        self.push(Word { value: 0x000091 });
    }

    /// Writes what stands after each body.
    pub(crate) fn close(&mut self)
        requires { length self.old + 2 ≤ 2048 }
        ensures { self.new ≡ self.old ++ closing }
    {
        self.push(Word { value: 0x138010 });
        self.push(Word { value: 0xA00004 });
    }

    /// The image that holds the program.
    pub(crate) fn into_image(self) -> Image
        ensures { HoldsProgram self result }
    {
        self.image
    }
}
