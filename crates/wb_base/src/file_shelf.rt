//! The file system as a shelf.
ghost use Rattle.std.specs.Prelude.{◌≡◌, ◌+◌, ◌-◌, ◌^◌, ◌≤◌, length, take, drop, min, IfOk, IfSome, IsSomeAnd, None};
ghost use Rattle.std.specs.Io.KnownBytes.{Consumes};

use crate::opened::{Opened, open_at};
use crate::{Failed, Shelf};
use std::rt::Files;

/// Files under their paths, made as `FileShelf::new(&rt)`. It does not tell their contents.
///
/// A file that is read in order, each read where the one before ended, is opened once and read front to
/// back, so that a pipe can be read. A missing file, a folder and a failing read are counted faults.
#[derive(Drop)]
pub struct FileShelf<R: Files + Drop> {
    rt: R,
    kept: Option<Opened<R::File>>,
    faults: u64,
}

impl<R: Files + Drop> FileShelf<R> {
    /// A shelf that has met no fault.
    pub fn new(rt: R) -> Self
        ensures rt { result.rt ≡ rt }
        ensures kept { result.kept ≡ None }
        ensures faults { result.faults ≡ 0 }
    {
        FileShelf {
            rt,
            kept: None,
            faults: 0,
        }
    }

    // Takes the file that is open at this place, or opens it anew.
    fn open(&mut self, name: &str, at: u64) -> Result<Opened<R::File>, Failed>
        ensures faults { self.new.faults ≡ self.old.faults }
        ensures name { IfOk result (λ opened. opened.name ≡ name.now) }
        ensures place { IfOk result (λ opened. opened.place ≡ at) }
        ensures goes_on { IfSome self.old.kept (λ kept. kept.name ≡ name.now → kept.place ≡ at → IfOk result (λ opened. opened ≡ kept)) }
    {
        match self.kept.take() {
            Some(opened) if opened.stands_at(name, at) => Ok(opened),
            _ => open_at(&self.rt, name, at),
        }
    }

    // Reads on in this file, which stays open where the read went well.
    fn read_on(&mut self, mut opened: Opened<R::File>, buf: &mut [u8]) -> Result<usize, Failed>
        ensures faults { self.new.faults ≡ self.old.faults }
        ensures count { IfOk result (λ m. m ≤ length buf.old) }
        ensures rest { IfOk result (λ m. drop m buf.new ≡ drop m buf.old) }
        ensures stays_open { IfOk result (λ m. IsSomeAnd self.new.kept (λ kept.
            (kept.name ≡ opened.name) × (kept.place ≡ min (opened.place + m) (2 ^ 64 - 1)))) }
        ensures bytes { IfOk result (λ m. IsSomeAnd self.new.kept (λ kept.
            Consumes (R.File.remaining opened.file) (R.File.remaining kept.file) (take m buf.new))) }
    {
        let count = opened.read_next(buf)?;
        self.kept = Some(opened);
        Ok(count)
    }

    // Reads at a place, from the file that is open there or from one that is opened anew. The file stays
    // open where the read went well.
    fn read_open(&mut self, name: &str, at: u64, buf: &mut [u8]) -> Result<usize, Failed>
        ensures faults { self.new.faults ≡ self.old.faults }
        ensures count { IfOk result (λ m. m ≤ length buf.old) }
        ensures rest { IfOk result (λ m. drop m buf.new ≡ drop m buf.old) }
        ensures stays_open { IfOk result (λ m. IsSomeAnd self.new.kept (λ opened.
            (opened.name ≡ name.now) × (opened.place ≡ min (at + m) (2 ^ 64 - 1)))) }
        ensures goes_on { IfSome self.old.kept (λ kept. kept.name ≡ name.now → kept.place ≡ at → IfOk result (λ m.
            IsSomeAnd self.new.kept (λ opened. Consumes (R.File.remaining kept.file) (R.File.remaining opened.file) (take m buf.new)))) }
    {
        let opened = self.open(name, at)?;
        self.read_on(opened, buf)
    }
}

impl<R: Files + Drop> Shelf for FileShelf<R> {
    ghost use Rattle.std.specs.Prelude.{◌≡◌, ◌+◌, ◌-◌, ◌^◌, ◌≤◌, take, min, IfOk, IfSome, IsSomeAnd, None};
    ghost use Rattle.std.specs.Io.KnownBytes.{Consumes};
    ghost use Rattle.wb_base.specs.Shelf.{IsRead};

    ghost content = { λ _ _. None };

    ghost faults = { λ s. s.faults };

    fn read_at(&mut self, name: &str, at: u64, buf: &mut [u8]) -> Result<usize, Failed>
        ensures stays_open { IfOk result (λ m. IsSomeAnd self.new.kept (λ opened.
            (opened.name ≡ name.now) × (opened.place ≡ min (at + m) (2 ^ 64 - 1)))) }
        ensures goes_on { IfSome self.old.kept (λ kept. kept.name ≡ name.now → kept.place ≡ at → IfOk result (λ m.
            IsSomeAnd self.new.kept (λ opened. Consumes (R.File.remaining kept.file) (R.File.remaining opened.file) (take m buf.new)))) }
        ensures later { self.old.faults ≤ self.new.faults }
        ensures read { IsRead None at buf.old buf.new self.old.faults self.new.faults result }
    {
        match self.read_open(name, at, buf) {
            Ok(count) => Ok(count),
            Err(Failed) => {
                self.faults = self.faults.saturating_add(1);
                Err(Failed)
            }
        }
    }
}
