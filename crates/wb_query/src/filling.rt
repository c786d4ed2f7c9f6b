//! The inputs that the values of a formula's variables give.
ghost use Rattle.std.specs.Prelude.{◌≡◌, ◌≢◌, ◌==◌, ◌<◌, ◌≤◌, ℕ, true, false, Some, if◌then◌else◌, IfOk, length, slice_get, slice_index};
ghost use Rattle.std.specs.Int.{bit_at};
ghost use Rattle.wb_term.specs.Inputs.{IsAssignment};
ghost use Rattle.wb_blast.specs.declared.places.Place.{Place};
ghost use Rattle.wb_blast.specs.Places.{place_value, GivesInputs};
ghost use Rattle.wb_query.specs.Filling.{ArePlacesInRange, IsInRange};
ghost use Rattle.wb_query.specs.Oracles.{assigned};

use std::alloc::Global;
use wb_blast::Place;
use wb_term::Inputs;
use wb_word::OutOfMemory;

/// A byte with a bit set.
fn byte_with(byte: u8, bit: u8) -> u8
    requires { bit < 8 }
    ensures { (k : ℕ) → bit_at result k ≡ (if k == bit then 1 else bit_at byte k) }
{
    byte | (1 << bit)
}

/// A word with a bit set.
fn word_with(word: u16, bit: u8) -> u16
    requires { bit < 16 }
    ensures { (k : ℕ) → bit_at result k ≡ (if k == bit then 1 else bit_at word k) }
{
    word | (1 << bit)
}

/// Sets the bit of a place.
fn set_place(bytes: &mut [u8], cells: &mut [u16], place: Place)
    requires bytes_len { length bytes.old ≡ 16 }
    requires cells_len { length cells.old ≡ 256 }
    requires range { IsInRange place }
    ensures bytes_stay { length bytes.new ≡ 16 }
    ensures cells_stay { length cells.new ≡ 256 }
    ensures set { place_value (record { bytes = bytes.new; cells = cells.new }) place ≡ true }
    ensures others { (other : Place) → other ≢ place → place_value (record { bytes = bytes.new; cells = cells.new }) other ≡ place_value (record { bytes = bytes.old; cells = cells.old }) other }
{
    match place {
        Place::Byte(at, bit) => {
            let at = usize::from(at);
            bytes[at] = byte_with(bytes[at], bit);
        }
        Place::Cell(at, bit) => {
            let at = usize::from(at);
            cells[at] = word_with(cells[at], bit);
        }
    }
}

/// Gives the bit of a place a value, where it is false.
fn fill(bytes: &mut [u8], cells: &mut [u16], place: Place, value: bool)
    requires bytes_len { length bytes.old ≡ 16 }
    requires cells_len { length cells.old ≡ 256 }
    requires range { IsInRange place }
    requires open_yet { place_value (record { bytes = bytes.old; cells = cells.old }) place ≡ false }
    ensures bytes_stay { length bytes.new ≡ 16 }
    ensures cells_stay { length cells.new ≡ 256 }
    ensures filled { place_value (record { bytes = bytes.new; cells = cells.new }) place ≡ value }
    ensures others { (other : Place) → other ≢ place → place_value (record { bytes = bytes.new; cells = cells.new }) other ≡ place_value (record { bytes = bytes.old; cells = cells.old }) other }
{
    if value {
        set_place(bytes, cells, place);
    }
}

/// Inputs with the value of each input variable at its place.
pub fn inputs_of(alloc: Global, places: &[Place], values: &[bool]) -> Result<Inputs, OutOfMemory>
    requires places { ArePlacesInRange places.now }
    requires covers { length places.now ≤ length values.now }
    ensures gives { IfOk result (λ inputs. GivesInputs (assigned values.now) places.now inputs) }
    ensures assignment { IfOk result IsAssignment }
{
    let mut bytes = [0u8; 16];
    let mut cells = [0u16; 256];
    for at in 0..places.len() {
        fill(&mut bytes, &mut cells, places[at], values[at]);
    }
    let inputs = Inputs::new(alloc, &bytes, &cells)?;
    let _first = inputs.byte(0);
    Ok(inputs)
}
