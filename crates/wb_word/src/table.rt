ghost use Rattle.std.specs.Prelude.{◌≡◌, ◌^◌, ◌<◌, IfOk, replicate, slice_index, slice_set};
ghost use Rattle.wb_word.specs.Table.{IsTable};

use crate::memory::OutOfMemory;
use std::alloc::Global;
use std::marker::Model;

/// A read-only memory of the chip: `N` places, each of which holds a number of `BITS` bits.
///
/// The µPD77C25 has two of them, 2048 program words of 24 bits and 1024 data words of 16 bits.
#[derive(Drop)]
pub struct Rom<const N: usize, const BITS: u32> {
    items: Vec<u32>,
}

impl<const N: usize, const BITS: u32> Model for Rom<N, BITS> {
    ghost use Rattle.std.specs.Prelude.{List, ℕ};
    ghost use Rattle.wb_word.specs.Table.{IsTable};

    ghost Value = { List ℕ };

    ghost view = { λ r. r.items.items };

    ghost invariant = { λ r. IsTable N BITS r.items.items };
}

impl<const N: usize, const BITS: u32> Rom<N, BITS> {
    /// The memory with 0 at every place.
    pub fn zero(alloc: Global) -> Result<Self, OutOfMemory>
        ensures zeros { IfOk result (λ rom. rom ≡ replicate N 0) }
        ensures table { IfOk result (IsTable N BITS) }
    {
        let items = vec![in alloc; 0u32; N]?;
        Ok(Rom { items })
    }

    /// The number at a place.
    pub fn get(&self, at: usize) -> u32
        requires { at < N }
        ensures value { result ≡ slice_index self.now at }
        ensures below { result < 2 ^ BITS }
        ensures table { IsTable N BITS self.now }
    {
        self.items[at]
    }

    /// Writes a number at a place.
    pub fn set(&mut self, at: usize, value: u32)
        requires at_in { at < N }
        requires value_in { value < 2 ^ BITS }
        ensures set { self.new ≡ slice_set self.old at value }
        ensures table { IsTable N BITS self.new }
    {
        self.items[at] = value;
    }
}
