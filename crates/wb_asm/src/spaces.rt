//! A memory that is being laid out.
ghost use Rattle.std.specs.Prelude.{◌≡◌, ◌≤◌, None, Some, IfOk, MatchResult};
ghost use Rattle.wb_asm.specs.Space.{empty, with_word, word_fault, with_words, words_fault};

use crate::faults::AsmKind;
use std::alloc::{AllocError, Global};
use std::marker::Model;

/// A memory that is being laid out: where the next word goes, and whether a word stands at each place.
#[derive(Drop)]
pub struct Space {
    at: u16,
    taken: Vec<bool>,
}

impl Model for Space {
    ghost use Rattle.wb_asm.specs.Space.{Space as Meaning, IsSpace};

    ghost Value = { Meaning };

    ghost view = { λ space. record { at = space.at; taken = space.taken.items } };

    ghost invariant = { λ space. IsSpace (record { at = space.at; taken = space.taken.items }) };
}

impl Space {
    /// A memory without a word.
    #[tactic(auto, unfolding(crate::specs::Space::empty))]
    pub(crate) fn empty(alloc: Global, size: u16) -> Result<Self, AllocError>
        requires { size ≤ 2048 }
        ensures { IfOk result (λ space. space ≡ empty size) }
    {
        let taken = vec![in alloc; false; usize::from(size)]?;
        Ok(Space { at: 0, taken })
    }

    /// Where the next word goes.
    pub(crate) fn at(&self) -> u16
        ensures { result ≡ self.now.at }
    {
        self.at
    }

    /// Goes on at another place.
    pub(crate) fn go_to(&mut self, at: u16)
        requires { at ≤ 2048 }
        ensures { self.new ≡ record self.old { at = at } }
    {
        self.at = at;
    }

    /// Places a word.
    fn place(&mut self) -> Result<(), AsmKind>
        ensures { MatchResult result
            (λ _. (word_fault self.old ≡ None) × (self.new ≡ with_word self.old))
            (λ kind. word_fault self.old ≡ Some kind) }
    {
        let at = usize::from(self.at);
        if at >= self.taken.len() {
            return Err(AsmKind::Past);
        }
        if self.taken[at] {
            return Err(AsmKind::Overlap);
        }
        self.taken[at] = true;
        self.at += 1;
        Ok(())
    }

    /// Places so many words one after the other.
    pub(crate) fn place_all(&mut self, count: usize) -> Result<(), AsmKind>
        ensures { MatchResult result
            (λ _. (words_fault count self.old ≡ None) × (self.new ≡ with_words count self.old))
            (λ kind. words_fault count self.old ≡ Some kind) }
    {
        for _ in 0..count {
            self.place()?;
        }
        Ok(())
    }
}
