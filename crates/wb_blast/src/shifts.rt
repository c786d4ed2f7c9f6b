//! Words that are shifted by a count: the entries move, and no gate is made.
ghost use Rattle.std.specs.Prelude.{◌≡◌, ◌*◌, ◌/◌, ◌^◌, ◌<◌, ℕ};
ghost use Rattle.std.specs.Int.{bit_at};
ghost use Rattle.wb_gate.specs.Circuit.{Assignment};
ghost use Rattle.wb_term.specs.Numbers.{bit, cut};
ghost use Rattle.wb_equal.specs.Entries.{entry_value, EntryBelow};
ghost use Rattle.wb_blast.specs.Words.{number, AreBelow};

use crate::words::Word;
use wb_equal::Entry;

/// The word shifted to the left, filled with zeros.
pub fn shifted_left(x: &Word, count: usize) -> Word
    requires { count < 16 }
    ensures value { (v : Assignment) → number v result ≡ cut (number v x.now * 2 ^ count) }
    ensures there { (n : ℕ) → AreBelow n x.now → AreBelow n result }
{
    let mut done = [Entry::F; 16];
    for at in 0..16 {
        done[at] = from_below(x, at, count);
    }
    done
}

/// The entry that comes to a place from so many places below.
fn from_below(x: &Word, at: usize, count: usize) -> Entry
    requires { at < 16 }
    ensures value { (v : Assignment) → bit (entry_value v result) ≡ bit_at (cut (number v x.now * 2 ^ count)) at }
    ensures there { (n : ℕ) → AreBelow n x.now → EntryBelow n result }
{
    if at < count { Entry::F } else { x[at - count] }
}

/// The word shifted to the right, filled with zeros.
pub fn shifted_right(x: &Word, count: usize) -> Word
    requires { count < 16 }
    ensures value { (v : Assignment) → number v result ≡ number v x.now / 2 ^ count }
    ensures there { (n : ℕ) → AreBelow n x.now → AreBelow n result }
{
    let mut done = [Entry::F; 16];
    for at in 0..16 {
        done[at] = from_above(x, at, count);
    }
    done
}

/// The entry that comes to a place from so many places above.
fn from_above(x: &Word, at: usize, count: usize) -> Entry
    requires at_in { at < 16 }
    requires count_in { count < 16 }
    ensures value { (v : Assignment) → bit (entry_value v result) ≡ bit_at (number v x.now / 2 ^ count) at }
    ensures there { (n : ℕ) → AreBelow n x.now → EntryBelow n result }
{
    if at + count < 16 {
        x[at + count]
    } else {
        Entry::F
    }
}
