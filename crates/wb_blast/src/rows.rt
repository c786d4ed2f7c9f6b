//! What the nodes are in a formula: sixteen entries for a word node, and one for a bit node.
ghost use Rattle.std.specs.Prelude.{◌≡◌, ◌+◌, ◌-◌, ◌<◌, ◌++◌, [], ◌∷◌, OnOk, length, slice_index, slice_set};
ghost use Rattle.wb_blast.specs.Meeting.{IsMet};
ghost use Rattle.wb_blast.specs.Rows.{word_row, bit_row};

use crate::places::Place;
use crate::words::Word;
use wb_equal::Entry;
use wb_term::{BitId, Scratch, WordId};
use wb_word::OutOfMemory;

/// The rows of the nodes that are done.
#[derive(Drop)]
pub struct Rows {
    /// For each input variable its place.
    pub places: Vec<Place>,
    /// One more than the place of a node's row among those of its sort.
    pub slots: Scratch,
    pub words: Vec<Word>,
    pub bits: Vec<Entry>,
}

impl Rows {
    /// The entries of a word node.
    pub fn word(&self, x: WordId) -> Word
        requires covered { x.number < length self.now.slots }
        requires done { IsMet self.now.slots x.number }
        requires within { slice_index self.now.slots x.number - 1 < length self.now.words.items }
        ensures { result ≡ word_row self.now x.number }
    {
        self.words[self.slots.slot(x.number()) as usize - 1]
    }

    /// The entry of a bit node.
    pub fn bit(&self, c: BitId) -> Entry
        requires covered { c.number < length self.now.slots }
        requires done { IsMet self.now.slots c.number }
        requires within { slice_index self.now.slots c.number - 1 < length self.now.bits.items }
        ensures { result ≡ bit_row self.now c.number }
    {
        self.bits[self.slots.slot(c.number()) as usize - 1]
    }

    /// Adds the row of a word node.
    pub fn push_word(&mut self, number: u32, word: Word) -> Result<(), OutOfMemory>
        requires covered { number < length self.old.slots }
        requires few { length self.old.words.items < 4294967295 }
        ensures words { OnOk result (self.new.words.items ≡ self.old.words.items ++ word ∷ []) }
        ensures slots { OnOk result (self.new.slots ≡ slice_set self.old.slots number (length self.old.words.items + 1)) }
        ensures bits { self.new.bits ≡ self.old.bits }
        ensures places { self.new.places ≡ self.old.places }
    {
        self.words.push(word)?;
        self.slots.set_slot(number, self.words.len() as u32);
        Ok(())
    }

    /// Adds the row of a bit node.
    pub fn push_bit(&mut self, number: u32, entry: Entry) -> Result<(), OutOfMemory>
        requires covered { number < length self.old.slots }
        requires few { length self.old.bits.items < 4294967295 }
        ensures bits { OnOk result (self.new.bits.items ≡ self.old.bits.items ++ entry ∷ []) }
        ensures slots { OnOk result (self.new.slots ≡ slice_set self.old.slots number (length self.old.bits.items + 1)) }
        ensures words { self.new.words ≡ self.old.words }
        ensures places { self.new.places ≡ self.old.places }
    {
        self.bits.push(entry)?;
        self.slots.set_slot(number, self.bits.len() as u32);
        Ok(())
    }
}
