//! A shelf in memory, which tells its contents.
ghost use Rattle.std.specs.Prelude.{◌≡◌, ◌≤◌, ◌-◌, ◌++◌, length, min, take, drop};

use crate::calls::Calls;
use crate::{Failed, OutOfMemory, Shelf};
use std::alloc::Global;
use std::collections::BTreeMap;

/// A shelf in memory, for tests: its reads can be made to fail, and to give little at a time.
#[derive(Drop)]
pub struct MemShelf {
    alloc: Global,
    files: BTreeMap<String, Vec<u8>>,
    most: usize,
    calls: Calls,
    ghost gives_some: { 1 ≤ most },
}

impl MemShelf {
    ghost use Rattle.std.specs.Prelude.{◌∷◌, [], None, OnOk, OnErr, List, ℕ};
    ghost use Rattle.wb_base.specs.Calls.{no_calls};
    ghost use Rattle.wb_base.specs.MemShelf.{content_of, AddsContent};

    /// A shelf without any name, whose reads give all that there is room for.
    pub fn new(alloc: Global) -> Self
        ensures content { (n : List ℕ) → content_of result n ≡ None }
        ensures most { result.most ≡ usize.MAX }
        ensures calls { result.calls ≡ no_calls }
    {
        MemShelf {
            alloc,
            files: BTreeMap::new(alloc),
            most: usize::MAX,
            calls: Calls::new(alloc),
        }
    }

    /// Adds a name with its content, or gives a name that is there a new content.
    pub fn add(&mut self, name: &str, content: &[u8]) -> Result<(), OutOfMemory>
        ensures ok { OnOk result (AddsContent self.old self.new name.now content.now) }
        ensures err { OnErr result ((n : List ℕ) → content_of self.new n ≡ content_of self.old n) }
        ensures most { self.new.most ≡ self.old.most }
        ensures calls { self.new.calls ≡ self.old.calls }
    {
        let key = String::from_str(self.alloc, name)?;
        let bytes = Vec::from_slice(self.alloc, content)?;
        self.files.insert(key, bytes)?;
        Ok(())
    }

    /// Makes the read of that number fail, counted from 1 over all reads of this shelf.
    pub fn fail_call(&mut self, call: u64) -> Result<(), OutOfMemory>
        ensures ok { OnOk result (self.new ≡ record self.old { calls = record self.old.calls { failing = self.old.calls.failing ++ call ∷ [] } }) }
        ensures err { OnErr result (self.new ≡ self.old) }
    {
        self.calls.fail(call)
    }

    /// Bounds what one read gives.
    pub fn at_most(&mut self, bytes: usize)
        requires { 1 ≤ bytes }
        ensures content { (n : List ℕ) → content_of self.new n ≡ content_of self.old n }
        ensures most { self.new.most ≡ bytes }
        ensures calls { self.new.calls ≡ self.old.calls }
    {
        self.most = bytes;
    }
}

impl Shelf for MemShelf {
    ghost use Rattle.std.specs.Prelude.{List, ℕ, Some};
    ghost use Rattle.std.specs.Result.{result_ok};
    ghost use Rattle.wb_base.specs.Calls.{next_fails, after_call};
    ghost use Rattle.wb_base.specs.Shelf.{IsRead};
    ghost use Rattle.wb_base.specs.MemShelf.{content_of, amount_given, buffer_after};

    ghost content = { λ s n. Some (content_of s n) };

    ghost faults = { λ s. s.calls.faults };

    fn read_at(&mut self, name: &str, at: u64, buf: &mut [u8]) -> Result<usize, Failed>
        ensures state { self.new ≡ record self.old { calls = after_call (next_fails self.old.calls) self.old.calls } }
        ensures amount { result_ok result ≡ amount_given (next_fails self.old.calls) (content_of self.old name.now) at (min (length buf.old) self.old.most) }
        ensures buffer { buf.new ≡ buffer_after (content_of self.old name.now) at buf.old (result_ok result) }
        ensures kept { (n : List ℕ) → Some (content_of self.new n) ≡ Some (content_of self.old n) }
        ensures later { self.old.calls.faults ≤ self.new.calls.faults }
        ensures read { IsRead (Some (content_of self.old name.now)) at buf.old buf.new self.old.calls.faults self.new.calls.faults result }
    {
        let fails = self.calls.next_fails();
        self.calls.count(fails);
        if fails {
            return Err(Failed);
        }
        match self.files.get(name) {
            Some(content) => Ok(copy_from(content, at, self.most, buf)),
            None => Err(Failed),
        }
    }
}

// Copies what stands in `content` from the place `at` on, but no more than `most` bytes.
fn copy_from(content: &[u8], at: u64, most: usize, buf: &mut [u8]) -> usize
    ensures count { result ≡ min (min (length buf.old) most) (length content.now - at) }
    ensures copied { buf.new ≡ take result (drop at content.now) ++ drop result buf.old }
{
    let from = (at as usize).min(content.len());
    let rest = &content[from..];
    let count = buf.len().min(most).min(rest.len());
    buf[..count].copy_from_slice(&rest[..count]);
    count
}
