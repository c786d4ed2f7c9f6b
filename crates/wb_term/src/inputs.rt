ghost use Rattle.std.specs.Prelude.{◌≡◌, ◌<◌, IfOk, length, slice_index};
ghost use Rattle.wb_term.specs.Inputs.{Assignment, IsAssignment};

use std::alloc::Global;
use std::marker::Model;
use wb_word::OutOfMemory;

/// What the values of a graph depend on: the bytes that the host may write, and the words of the RAM's start.
#[derive(Drop)]
pub struct Inputs {
    bytes: Vec<u8>,
    cells: Vec<u16>,
}

impl Model for Inputs {
    ghost use Rattle.wb_term.specs.Inputs.{Assignment, IsAssignment};

    ghost Value = { Assignment };

    ghost view = { λ i. record { bytes = i.bytes.items; cells = i.cells.items } };

    ghost invariant = { λ i. IsAssignment (record { bytes = i.bytes.items; cells = i.cells.items }) };
}

impl Inputs {
    /// Inputs with these 16 bytes and this start of 256 words.
    pub fn new(alloc: Global, bytes: &[u8], cells: &[u16]) -> Result<Self, OutOfMemory>
        requires bytes_len { length bytes.now ≡ 16 }
        requires cells_len { length cells.now ≡ 256 }
        ensures bytes { IfOk result (λ inputs. inputs.bytes ≡ bytes.now) }
        ensures cells { IfOk result (λ inputs. inputs.cells ≡ cells.now) }
    {
        let bytes = bytes.to_vec(alloc)?;
        let cells = cells.to_vec(alloc)?;
        Ok(Inputs { bytes, cells })
    }

    /// The byte of a place.
    pub fn byte(&self, place: u8) -> u8
        requires { place < 16 }
        ensures value { result ≡ slice_index self.now.bytes place }
        ensures assignment { IsAssignment self.now }
    {
        self.bytes[usize::from(place)]
    }

    /// The word of a place of the RAM's start.
    pub fn cell(&self, place: u8) -> u16
        ensures value { result ≡ slice_index self.now.cells place }
        ensures assignment { IsAssignment self.now }
    {
        self.cells[usize::from(place)]
    }
}
