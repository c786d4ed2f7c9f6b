//! Words of input variables.
ghost use Rattle.std.specs.Prelude.{◌≡◌, ◌+◌, ◌-◌, ◌≤◌, ◌<◌, ◌==◌, ◌^◌, ℕ};
ghost use Rattle.std.specs.Int.{bit_at};
ghost use Rattle.wb_gate.specs.Circuit.{Assignment};
ghost use Rattle.wb_term.specs.Numbers.{bit};
ghost use Rattle.wb_equal.specs.Entries.{entry_value, EntryBelow};
ghost use Rattle.wb_blast.specs.Words.{number, AreBelow};

use crate::words::Word;
use wb_equal::Entry;
use wb_gate::Lit;

/// The word whose lowest bits are so many variables, the highest bit the first of them, filled with zeros.
pub fn input_word(first: u32, count: u32) -> Word
    requires few { count ≤ 16 }
    requires fits { first + count ≤ 8192 }
    ensures value { (v : Assignment) (word : ℕ) → word < 2 ^ count →
        ((k : ℕ) → k < count → v (first + (count - 1 - k)) ≡ (bit_at word k == 1)) → number v result ≡ word }
    ensures there { (n : ℕ) → first + count ≤ n → AreBelow n result }
{
    let mut done = [Entry::F; 16];
    for at in 0..16 {
        done[at] = input(first, count, at as u32);
    }
    done
}

/// The variable of a place, or a zero past the last.
fn input(first: u32, count: u32, at: u32) -> Entry
    requires at_in { at < 16 }
    requires fits { first + count ≤ 8192 }
    ensures value { (v : Assignment) (word : ℕ) → word < 2 ^ count →
        ((k : ℕ) → k < count → v (first + (count - 1 - k)) ≡ (bit_at word k == 1)) → bit (entry_value v result) ≡ bit_at word at }
    ensures there { (n : ℕ) → first + count ≤ n → EntryBelow n result }
{
    if at < count {
        Entry::Lit(Lit {
            var: first + (count - 1 - at),
            neg: false,
        })
    } else {
        Entry::F
    }
}
