//! In which order the diagrams of a formula ask for its inputs.
//!
//! A diagram is small where it asks first for what steers, and asks side by side for the bits that sums and comparisons
//! bring together. Which bytes steer isn't known. In most firmware a byte that the host writes first, or after it has
//! read, is a command.
ghost use Rattle.std.specs.Prelude.{◌≡◌, ◌≤◌, IfOk, length};

use crate::places::Place;
use std::alloc::Global;
use wb_word::OutOfMemory;

/// Which bytes of a dialogue are asked for.
#[derive(Clone, Copy)]
struct Bytes([bool; 16]);

impl Bytes {
    fn among(places: &[Place]) -> Self {
        let mut asked = [false; 16];
        for place in places {
            if let Place::Byte(at, _) = *place {
                if at < 16 {
                    asked[usize::from(at)] = true;
                }
            }
        }
        Bytes(asked)
    }

    /// Whether the byte before this one is asked for too, so that this one is hardly a command.
    fn has_before(&self, at: u8) -> bool {
        match at.checked_sub(1) {
            Some(before) => self.0.get(usize::from(before)) == Some(&true),
            None => false,
        }
    }

    /// The rank of a place: the bits of what may be a command, byte by byte, the highest bit first, then the bits of all
    /// other bytes and cells, the highest of all of them first.
    fn rank(&self, place: Place) -> u8 {
        match place {
            Place::Byte(at, bit) if !self.has_before(at) => {
                at.saturating_mul(8).saturating_add(7u8.saturating_sub(bit))
            }
            Place::Byte(_, bit) | Place::Cell(_, bit) => 143u8.saturating_sub(bit),
        }
    }

    fn rank_at(&self, places: &[Place], input: u32) -> u8 {
        match places.get(input as usize) {
            Some(place) => self.rank(*place),
            None => u8::MAX,
        }
    }
}

/// The inputs by the ranks of their places; where these are equal, in order of number.
pub fn inputs_by_rank(alloc: Global, places: &[Place]) -> Result<Vec<u32>, OutOfMemory>
    requires { length places.now ≤ 8192 }
{
    let bytes = Bytes::among(places);
    let mut inputs: Vec<u32> = (0..places.len() as u32).collect(alloc)?;
    inputs.sort_by_key(|input| bytes.rank_at(places, *input))?;
    Ok(inputs)
}
