//! A file that is read front to back.
ghost use Rattle.std.specs.Prelude.{◌≡◌, ◌+◌, ◌-◌, ◌^◌, ◌<◌, ◌≤◌, ◌↔◌, length, take, drop, min, IsTrue, IfOk, IfSome, IfNone};
ghost use Rattle.std.specs.Io.KnownBytes.{Consumes};

use crate::Failed;
use std::fs;
use std::io::{Read, Seek, SeekFrom};
use std::marker::Model;
use std::rt::Files;

// The greatest length of a path that the system opens.
const PATH_LENGTH: usize = 4095;

// How many bytes are read at a time.
const PIECE_LENGTH: usize = 4096;

// A path, kept without memory of its own.
#[derive(Drop)]
pub(crate) struct PathName {
    bytes: [u8; PATH_LENGTH],
    length: usize,
}

impl Model for PathName {
    ghost use Rattle.std.specs.Prelude.{◌≤◌, List, ℕ, take};

    ghost Value = { List ℕ };

    ghost view = { λ p. take p.length p.bytes };

    ghost invariant = { λ p. p.length ≤ 4095 };
}

impl PathName {
    // None where the system opens no path of that length.
    fn new(name: &str) -> Option<Self>
        ensures some { IfSome result (λ path. path ≡ name.now) }
        ensures none { IfNone result (4095 < length name.now) }
    {
        if name.len() > PATH_LENGTH {
            return None;
        }
        let mut bytes = [0u8; PATH_LENGTH];
        bytes[..name.len()].copy_from_slice(name.as_bytes());
        Some(PathName {
            bytes,
            length: name.len(),
        })
    }

    fn is(&self, name: &str) -> bool
        ensures { IsTrue result ↔ (self.now ≡ name.now) }
    {
        &self.bytes[..self.length] == name.as_bytes()
    }
}

// A file that was opened under a name, and the place of the byte that it gives next.
#[derive(Drop)]
pub(crate) struct Opened<F: Drop> {
    file: F,
    name: PathName,
    place: u64,
}

impl<F: Drop> Opened<F> {
    // Whether the file was opened under this name and gives the byte at this place next.
    pub(crate) fn stands_at(&self, name: &str, at: u64) -> bool
        ensures { IsTrue result ↔ ((self.now.name ≡ name.now) × (self.now.place ≡ at)) }
    {
        self.place == at && self.name.is(name)
    }
}

impl<F: Read + Drop> Opened<F> {
    // Reads the next bytes of the file into the front of the buffer.
    pub(crate) fn read_next(&mut self, buf: &mut [u8]) -> Result<usize, Failed>
        ensures count { IfOk result (λ m. m ≤ length buf.old) }
        ensures rest { IfOk result (λ m. drop m buf.new ≡ drop m buf.old) }
        ensures place { IfOk result (λ m. self.new.place ≡ min (self.old.place + m) (2 ^ 64 - 1)) }
        ensures name { self.new.name ≡ self.old.name }
        ensures bytes { IfOk result (λ m. Consumes (F.remaining self.old.file) (F.remaining self.new.file) (take m buf.new)) }
    {
        let mut piece = [0u8; PIECE_LENGTH];
        let room = buf.len().min(PIECE_LENGTH);
        let count = self.file.read(&mut piece[..room])?;
        buf[..count].copy_from_slice(&piece[..count]);
        self.place = self.place.saturating_add(count as u64);
        Ok(count)
    }
}

// Opens a file so that it gives the byte at this place next. From its front it is not moved, since a
// pipe cannot be.
pub(crate) fn open_at<R: Files>(rt: &R, name: &str, at: u64) -> Result<Opened<R::File>, Failed>
    ensures name { IfOk result (λ opened. opened.name ≡ name.now) }
    ensures place { IfOk result (λ opened. opened.place ≡ at) }
{
    let path = PathName::new(name).ok_or(Failed)?;
    let mut file = fs::open(rt, name)?;
    if at > 0 {
        file.seek(SeekFrom::Start(at))?;
    }
    Ok(Opened {
        file,
        name: path,
        place: at,
    })
}
