ghost use Rattle.std.specs.Prelude.{◌≡◌, ◌<◌, option_map};
ghost use Rattle.wb_word.specs.Conditions.{cond_code};
ghost use Rattle.wb_word.specs.Named.{is_named};
ghost use Rattle.wb_word.specs.Names.{cond_name};

use crate::numbers::OtherCode;

/// When a jump is taken. SIAK and SOAK are always 0.
#[derive(Clone, Copy, PartialEq, Eq, Debug)]
pub enum Cond {
    /// C of A is 0.
    Jnca,
    /// C of A is 1.
    Jca,
    /// C of B is 0.
    Jncb,
    /// C of B is 1.
    Jcb,
    /// Z of A is 0.
    Jnza,
    /// Z of A is 1.
    Jza,
    /// Z of B is 0.
    Jnzb,
    /// Z of B is 1.
    Jzb,
    /// OV0 of A is 0.
    Jnova0,
    /// OV0 of A is 1.
    Jova0,
    /// OV0 of B is 0.
    Jnovb0,
    /// OV0 of B is 1.
    Jovb0,
    /// OV1 of A is 0.
    Jnova1,
    /// OV1 of A is 1.
    Jova1,
    /// OV1 of B is 0.
    Jnovb1,
    /// OV1 of B is 1.
    Jovb1,
    /// S0 of A is 0.
    Jnsa0,
    /// S0 of A is 1.
    Jsa0,
    /// S0 of B is 0.
    Jnsb0,
    /// S0 of B is 1.
    Jsb0,
    /// S1 of A is 0.
    Jnsa1,
    /// S1 of A is 1.
    Jsa1,
    /// S1 of B is 0.
    Jnsb1,
    /// S1 of B is 1.
    Jsb1,
    /// The low four bits of DP are 0.
    Jdpl0,
    /// They aren't 0.
    Jdpln0,
    /// They are 15.
    Jdplf,
    /// They aren't 15.
    Jdplnf,
    /// SIAK is 0.
    Jnsiak,
    /// SIAK is 1.
    Jsiak,
    /// SOAK is 0.
    Jnsoak,
    /// SOAK is 1.
    Jsoak,
    /// RQM is 0.
    Jnrqm,
    /// RQM is 1.
    Jrqm,
    /// Always.
    Jmp,
    /// Always, after the return address is stored.
    Call,
    /// Never: the code has no name.
    Other(OtherCode),
}

// The table of the named codes takes what is to be made of them.

macro_rules! of_code {
    ($code:expr; $($number:literal $variant:ident $name:literal,)*) => {
        match $code {
            $($number => Cond::$variant,)*
            value => Cond::Other(OtherCode { value }),
        }
    };
}

macro_rules! to_code {
    ($value:expr; $($number:literal $variant:ident $name:literal,)*) => {
        match $value {
            $(Cond::$variant => $number,)*
            Cond::Other(other) => other.value,
        }
    };
}

macro_rules! to_name {
    ($value:expr; $($number:literal $variant:ident $name:literal,)*) => {
        match $value {
            $(Cond::$variant => Some($name),)*
            Cond::Other(_) => None,
        }
    };
}

macro_rules! to_named {
    ($code:expr; $($number:literal $variant:ident $name:literal,)*) => {
        match $code {
            $($number => true,)*
            _ => false,
        }
    };
}

macro_rules! cond_table {
    ($way:ident, $subject:expr) => {
        $way!($subject;
            0x080 Jnca "jnca", 0x082 Jca "jca", 0x084 Jncb "jncb", 0x086 Jcb "jcb",
            0x088 Jnza "jnza", 0x08a Jza "jza", 0x08c Jnzb "jnzb", 0x08e Jzb "jzb",
            0x090 Jnova0 "jnova0", 0x092 Jova0 "jova0", 0x094 Jnovb0 "jnovb0", 0x096 Jovb0 "jovb0",
            0x098 Jnova1 "jnova1", 0x09a Jova1 "jova1", 0x09c Jnovb1 "jnovb1", 0x09e Jovb1 "jovb1",
            0x0a0 Jnsa0 "jnsa0", 0x0a2 Jsa0 "jsa0", 0x0a4 Jnsb0 "jnsb0", 0x0a6 Jsb0 "jsb0",
            0x0a8 Jnsa1 "jnsa1", 0x0aa Jsa1 "jsa1", 0x0ac Jnsb1 "jnsb1", 0x0ae Jsb1 "jsb1",
            0x0b0 Jdpl0 "jdpl0", 0x0b1 Jdpln0 "jdpln0", 0x0b2 Jdplf "jdplf", 0x0b3 Jdplnf "jdplnf",
            0x0b4 Jnsiak "jnsiak", 0x0b6 Jsiak "jsiak", 0x0b8 Jnsoak "jnsoak", 0x0ba Jsoak "jsoak",
            0x0bc Jnrqm "jnrqm", 0x0be Jrqm "jrqm", 0x100 Jmp "jmp", 0x140 Call "call",)
    };
}

/// Whether a branch code names a condition.
pub(crate) fn is_named(code: u16) -> bool
    ensures { result ≡ is_named code }
{
    cond_table!(to_named, code)
}

impl Cond {
    pub fn from_code(code: u16) -> Self
        requires { code < 512 }
        ensures { cond_code result ≡ code }
    {
        cond_table!(of_code, code)
    }

    pub fn code(self) -> u16
        ensures value { result ≡ cond_code self }
        ensures below { result < 512 }
    {
        cond_table!(to_code, self)
    }

    /// The name in the source language, where the code has one.
    pub fn name(self) -> Option<&'static str>
        ensures { option_map (λ name. name.now) result ≡ cond_name self }
    {
        cond_table!(to_name, self)
    }
}
