ghost use Rattle.std.specs.Prelude.{◌≡◌, ◌<◌, ◌≤◌, ◌^◌, ◌⊎◌, IfSome, IfNone, true, false};
ghost use Rattle.wb_word.specs.Named.{is_named};

use crate::conditions::is_named;

/// A word of the program memory, 24 bits.
#[derive(Clone, Copy, PartialEq, Eq, Debug)]
pub struct Word {
    pub value: u32,
    pub ghost in_range: { value < 2 ^ 24 },
}

/// An address of the program memory, 11 bits.
#[derive(Clone, Copy, PartialEq, Eq, Debug)]
pub struct Addr {
    pub value: u16,
    pub ghost in_range: { value < 2048 },
}

/// A number of four bits.
#[derive(Clone, Copy, PartialEq, Eq, Debug)]
pub struct Nibble {
    pub value: u8,
    pub ghost in_range: { value < 16 },
}

/// The two bits of a word that have no effect.
#[derive(Clone, Copy, PartialEq, Eq, Debug)]
pub struct Spare {
    pub value: u8,
    pub ghost in_range: { value < 4 },
}

/// A branch code, 9 bits, that names no condition.
#[derive(Clone, Copy, PartialEq, Eq, Debug)]
pub struct OtherCode {
    pub value: u16,
    pub ghost in_range: { value < 512 },
    pub ghost unnamed: { is_named value ≡ false },
}

impl Word {
    pub fn new(value: u32) -> Option<Self>
        ensures some { IfSome result (λ word. word.value ≡ value) }
        ensures none { IfNone result (2 ^ 24 ≤ value) }
    {
        if value < 1 << 24 {
            Some(Word { value })
        } else {
            None
        }
    }

    pub fn value(&self) -> u32
        ensures { result ≡ self.now.value }
    {
        self.value
    }
}

impl Addr {
    pub fn new(value: u16) -> Option<Self>
        ensures some { IfSome result (λ addr. addr.value ≡ value) }
        ensures none { IfNone result (2048 ≤ value) }
    {
        if value < 2048 {
            Some(Addr { value })
        } else {
            None
        }
    }

    pub fn value(&self) -> u16
        ensures { result ≡ self.now.value }
    {
        self.value
    }
}

impl Nibble {
    pub fn new(value: u8) -> Option<Self>
        ensures some { IfSome result (λ nibble. nibble.value ≡ value) }
        ensures none { IfNone result (16 ≤ value) }
    {
        if value < 16 {
            Some(Nibble { value })
        } else {
            None
        }
    }

    pub fn value(&self) -> u8
        ensures { result ≡ self.now.value }
    {
        self.value
    }
}

impl Spare {
    pub fn new(value: u8) -> Option<Self>
        ensures some { IfSome result (λ spare. spare.value ≡ value) }
        ensures none { IfNone result (4 ≤ value) }
    {
        if value < 4 {
            Some(Spare { value })
        } else {
            None
        }
    }

    pub fn value(&self) -> u8
        ensures { result ≡ self.now.value }
    {
        self.value
    }
}

impl OtherCode {
    pub fn new(value: u16) -> Option<Self>
        ensures some { IfSome result (λ other. other.value ≡ value) }
        ensures none { IfNone result ((512 ≤ value) ⊎ (is_named value ≡ true)) }
    {
        if value < 512 && !is_named(value) {
            Some(OtherCode { value })
        } else {
            None
        }
    }

    pub fn value(&self) -> u16
        ensures { result ≡ self.now.value }
    {
        self.value
    }
}
