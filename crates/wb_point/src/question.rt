use std::alloc::Global;
use std::marker::Model;
use wb_port::{Access, Kinds, Points};
use wb_symstep::OutOfMemory;

/// A bit of an input byte and the value that a question gives it.
#[derive(Clone, Copy, PartialEq, Eq, Debug)]
pub struct FixedBit {
    pub place: u8,
    /// The number of the bit from the low end, below 8.
    pub bit: u8,
    pub value: bool,
}

/// A question about two images, at a pace and a power: under which inputs does the dialogue of these kinds do this?
#[derive(Drop)]
pub struct Query {
    /// The kinds of the dialogue's transfers, in order.
    pub kinds: Kinds,
    /// Points that its held run passes, each on its own side.
    pub marks: Points,
    pub fixed: FixedBits,
    /// Where there are some, the plain runs' answers to one of them differ.
    pub last: Accesses,
}

/// Fixed bits, in order.
#[derive(Drop)]
pub struct FixedBits {
    items: Vec<FixedBit>,
}

impl Model for FixedBits {
    ghost use Rattle.std.specs.Prelude.{List};
    ghost use Rattle.wb_point.specs.declared.question.FixedBit.{FixedBit};

    ghost Value = { List FixedBit };

    ghost view = { λ b. b.items.items };
}

impl FixedBits {
    ghost use Rattle.std.specs.Prelude.{◌≡◌, ◌<◌, [], ◌∷◌, ◌++◌, OnOk, OnErr, Some, length, slice_get};

    /// No bits.
    pub fn new(alloc: Global) -> Self
        ensures { result ≡ [] }
    {
        FixedBits {
            items: Vec::new(alloc),
        }
    }

    /// One more bit at the end.
    pub fn push(&mut self, bit: FixedBit) -> Result<(), OutOfMemory>
        ensures ok { OnOk result (self.new ≡ self.old ++ bit ∷ []) }
        ensures err { OnErr result (self.new ≡ self.old) }
    {
        self.items.push(bit)?;
        Ok(())
    }

    pub fn len(&self) -> usize
        ensures { result ≡ length self.now }
    {
        self.items.len()
    }

    /// The bit at a place of the list.
    pub fn at(&self, place: usize) -> FixedBit
        requires { place < length self.now }
        ensures { slice_get self.now place ≡ Some result }
    {
        self.items[place]
    }
}

/// Accesses, in order.
#[derive(Drop)]
pub struct Accesses {
    items: Vec<Access>,
}

impl Model for Accesses {
    ghost use Rattle.std.specs.Prelude.{List};
    ghost use Rattle.wb_port.specs.declared.accesses.Access.{Access};

    ghost Value = { List Access };

    ghost view = { λ a. a.items.items };
}

impl Accesses {
    ghost use Rattle.std.specs.Prelude.{◌≡◌, ◌<◌, [], ◌∷◌, ◌++◌, OnOk, OnErr, Some, length, slice_get};

    /// No accesses.
    pub fn new(alloc: Global) -> Self
        ensures { result ≡ [] }
    {
        Accesses {
            items: Vec::new(alloc),
        }
    }

    /// One more access at the end.
    pub fn push(&mut self, access: Access) -> Result<(), OutOfMemory>
        ensures ok { OnOk result (self.new ≡ self.old ++ access ∷ []) }
        ensures err { OnErr result (self.new ≡ self.old) }
    {
        self.items.push(access)?;
        Ok(())
    }

    pub fn len(&self) -> usize
        ensures { result ≡ length self.now }
    {
        self.items.len()
    }

    /// The access at a place of the list.
    pub fn at(&self, place: usize) -> Access
        requires { place < length self.now }
        ensures { slice_get self.now place ≡ Some result }
    {
        self.items[place]
    }
}
