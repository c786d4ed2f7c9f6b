ghost use Rattle.std.specs.Prelude.{All};
ghost use Rattle.wb_port.specs.Talk.{IsByteAccess};

use crate::accesses::Access;
use std::alloc::Global;
use std::marker::Model;
use wb_word::OutOfMemory;

/// A dialogue: what the data RAM holds at power-up, and the accesses of the host in order.
#[derive(Drop)]
pub struct Dialogue {
    start: [u16; 256],
    accesses: Vec<Access>,
}

impl Model for Dialogue {
    ghost use Rattle.wb_port.specs.Talk.{Talk, IsTalk};

    ghost Value = { Talk };

    ghost view = { λ d. record { start = d.start; accesses = d.accesses.items } };

    ghost invariant = { λ d. IsTalk (record { start = d.start; accesses = d.accesses.items }) };
}

impl Dialogue {
    ghost use Rattle.std.specs.Prelude.{◌≡◌, ◌<◌, [], ◌∷◌, ◌++◌, Some, OnOk, OnErr, length, replicate, slice_get, slice_index};
    ghost use Rattle.wb_port.specs.Talk.{dialogue, Talk, IsTalk};

    /// No accesses, from a RAM of zeros.
    pub fn new(alloc: Global) -> Self
        ensures value { result ≡ record { start = replicate 256 0; accesses = [] } }
    {
        Dialogue {
            start: [0; 256],
            accesses: Vec::new(alloc),
        }
    }

    /// These accesses, from a RAM of zeros. It takes no memory.
    pub fn from_vec(accesses: Vec<Access>) -> Self
        ensures { result ≡ dialogue (replicate 256 0) accesses.items }
    {
        see_bytes(&accesses);
        Dialogue {
            start: [0; 256],
            accesses,
        }
    }

    /// One more access at the end.
    pub fn push(&mut self, access: Access) -> Result<(), OutOfMemory>
        ensures ok { OnOk result
            (self.new ≡ record self.old { accesses = self.old.accesses ++ access ∷ [] }) }
        ensures err { OnErr result (self.new ≡ self.old) }
    {
        self.accesses.push(access)?;
        Ok(())
    }

    /// The accesses.
    pub fn list(&self) -> &[Access]
        ensures value { result.now ≡ self.now.accesses }
        ensures lawful { IsTalk self.now }
    {
        self.accesses.as_slice()
    }

    pub fn len(&self) -> usize
        ensures { result ≡ length self.now.accesses }
    {
        self.accesses.len()
    }

    /// The access at a place.
    pub fn at(&self, place: usize) -> Access
        requires { place < length self.now.accesses }
        ensures { slice_get self.now.accesses place ≡ Some result }
    {
        self.accesses[place]
    }

    /// Replaces the content of the RAM at power-up.
    pub fn set_start(&mut self, cells: &[u16])
        requires { length cells.now ≡ 256 }
        ensures { self.new ≡ record self.old { start = cells.now } }
    {
        self.start.copy_from_slice(cells);
    }

    /// The word at an address of the RAM at power-up.
    pub fn start_at(&self, dp: u8) -> u16
        ensures value { result ≡ slice_index self.now.start dp }
        ensures lawful { IsTalk self.now }
    {
        self.start[usize::from(dp)]
    }

    /// The content of the RAM at power-up.
    pub fn start(&self) -> &[u16]
        ensures value { result.now ≡ self.now.start }
        ensures lawful { IsTalk self.now }
    {
        &self.start
    }
}

/// The written bytes are bytes. Nothing is done: to look at each access is to know it.
fn see_bytes(accesses: &[Access])
    ensures { All IsByteAccess accesses.now }
{
    for access in accesses {
        see_byte(*access);
    }
}

/// A written byte is a byte.
fn see_byte(access: Access)
    ensures { IsByteAccess access }
{
    match access {
        Access::Status | Access::Read => {},
        Access::Write(_byte) => {},
    }
}
