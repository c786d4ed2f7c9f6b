ghost use Rattle.std.specs.Prelude.{◌≡◌, ◌<◌, ℕ, List, [], ◌∷◌, ◌++◌, IfOk, OnOk, OnErr, Some, length, slice_get, slice_index};

use crate::accesses::Kind;
use std::alloc::Global;
use std::marker::Model;
use wb_word::OutOfMemory;

/// The bytes that reads and status reads gave, in order.
#[derive(Drop)]
pub struct Replies {
    bytes: Vec<u8>,
}

impl Model for Replies {
    ghost use Rattle.std.specs.Prelude.{ℕ, List};

    ghost Value = { List ℕ };

    ghost view = { λ r. r.bytes.items };
}

impl Replies {
    /// No bytes.
    pub fn new(alloc: Global) -> Self
        ensures { result ≡ [] }
    {
        Replies {
            bytes: Vec::new(alloc),
        }
    }

    /// These bytes, which takes no memory.
    pub fn from_vec(bytes: Vec<u8>) -> Self
        ensures { result ≡ bytes.items }
    {
        Replies { bytes }
    }

    /// One more byte at the end.
    pub fn push(&mut self, byte: u8) -> Result<(), OutOfMemory>
        ensures ok { OnOk result (self.new ≡ self.old ++ byte ∷ []) }
        ensures err { OnErr result (self.new ≡ self.old) }
    {
        self.bytes.push(byte)?;
        Ok(())
    }

    pub fn len(&self) -> usize
        ensures { result ≡ length self.now }
    {
        self.bytes.len()
    }

    pub fn at(&self, place: usize) -> u8
        requires { place < length self.now }
        ensures { slice_get self.now place ≡ Some result }
    {
        self.bytes[place]
    }

    /// The bytes as a slice.
    pub fn bytes(&self) -> &[u8]
        ensures { result.now ≡ self.now }
    {
        self.bytes.as_slice()
    }
}

/// The kinds of some data transfers, in order.
#[derive(Drop)]
pub struct Kinds {
    items: Vec<Kind>,
}

impl Model for Kinds {
    ghost use Rattle.std.specs.Prelude.{List};
    ghost use Rattle.wb_port.specs.declared.accesses.Kind.{Kind};

    ghost Value = { List Kind };

    ghost view = { λ r. r.items.items };
}

impl Kinds {
    /// No transfers.
    pub fn new(alloc: Global) -> Self
        ensures { result ≡ [] }
    {
        Kinds {
            items: Vec::new(alloc),
        }
    }

    /// These transfers, which takes no memory.
    pub fn from_vec(items: Vec<Kind>) -> Self
        ensures { result ≡ items.items }
    {
        Kinds { items }
    }

    /// An equal list.
    pub fn copy(&self, alloc: Global) -> Result<Self, OutOfMemory>
        ensures { IfOk result (λ kinds. kinds ≡ self.now) }
    {
        Ok(Kinds {
            items: Vec::from_slice(alloc, self.list())?,
        })
    }

    /// The kinds as a slice.
    pub fn list(&self) -> &[Kind]
        ensures { result.now ≡ self.now }
    {
        self.items.as_slice()
    }

    /// One more transfer at the end.
    pub fn push(&mut self, kind: Kind) -> Result<(), OutOfMemory>
        ensures ok { OnOk result (self.new ≡ self.old ++ kind ∷ []) }
        ensures err { OnErr result (self.new ≡ self.old) }
    {
        self.items.push(kind)?;
        Ok(())
    }

    pub fn len(&self) -> usize
        ensures { result ≡ length self.now }
    {
        self.items.len()
    }

    pub fn at(&self, place: usize) -> Kind
        requires { place < length self.now }
        ensures { slice_get self.now place ≡ Some result }
    {
        self.items[place]
    }
}
