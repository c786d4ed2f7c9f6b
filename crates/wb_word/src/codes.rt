ghost use Rattle.std.specs.Prelude.{◌≡◌, ◌<◌};
ghost use Rattle.wb_word.specs.Codes.{p_code, alu_code, acc_code, dpl_code, src_code, dst_code};
ghost use Rattle.wb_word.specs.Names.{p_name, alu_name, acc_name, dpl_name, src_name, dst_name};

/// The second operand of the ALU.
#[derive(Clone, Copy, PartialEq, Eq, Debug)]
pub enum P {
    /// RAM at DP.
    Ram,
    /// The bus.
    Idb,
    /// The high half of twice the signed product of K and L.
    M,
    /// Its low half.
    N,
}

/// What the ALU computes, in the order of the codes.
#[derive(Clone, Copy, PartialEq, Eq, Debug)]
pub enum Alu {
    /// Nothing: the accumulator and its flags stay.
    Nop,
    Or,
    And,
    Xor,
    Sub,
    Add,
    /// A difference that also takes away the other accumulator's carry.
    Sbb,
    /// A sum that also adds the other accumulator's carry.
    Adc,
    Dec,
    Inc,
    /// Inverts each bit: the complement, and no comparison.
    Cmp,
    /// Shifts right by 1 and keeps bit 15.
    Shr1,
    /// Shifts left by 1; the other accumulator's carry comes in.
    Shl1,
    /// Shifts left by 2; ones come in.
    Shl2,
    /// Shifts left by 4; ones come in.
    Shl4,
    /// Exchanges the two bytes.
    Xchg,
}

/// An accumulator.
#[derive(Clone, Copy, PartialEq, Eq, Debug)]
pub enum Acc {
    A,
    B,
}

/// What happens to the low four bits of DP.
#[derive(Clone, Copy, PartialEq, Eq, Debug)]
pub enum Dpl {
    /// They stay.
    DpNop,
    /// One is added, without a carry into the high four.
    DpInc,
    /// One is taken, without a borrow from the high four.
    DpDec,
    /// They become 0.
    DpClr,
}

/// What an instruction puts on the bus.
#[derive(Clone, Copy, PartialEq, Eq, Debug)]
pub enum Src {
    /// The second temporary register.
    Trb,
    A,
    B,
    Tr,
    Dp,
    Rp,
    /// The data ROM at RP.
    Ro,
    /// 7FFF where S1 of A is 1, else 8000: after an overflow the limit on its side.
    Sgn,
    /// The data register; a request is raised.
    Dr,
    /// The data register, without a request.
    Drnf,
    Sr,
    /// The serial input, which is idle: 0.
    Sim,
    /// The serial input in the other order of bits, idle too: 0.
    Sil,
    K,
    L,
    /// The RAM at DP.
    Mem,
}

/// Where the bus is moved to.
#[derive(Clone, Copy, PartialEq, Eq, Debug)]
pub enum Dst {
    /// Nowhere.
    Non,
    A,
    B,
    Tr,
    Dp,
    Rp,
    /// The data register; a request is raised.
    Dr,
    /// The bits of the status register that an instruction may write.
    Sr,
    /// The serial output register.
    Sol,
    /// The serial output register too: the orders of bits don't differ here.
    Som,
    K,
    /// K takes the bus, and L the data ROM at RP.
    Klr,
    /// L takes the bus, and K the RAM at DP with its bit 6 set.
    Klm,
    L,
    /// The second temporary register.
    Trb,
    /// The RAM at DP.
    Mem,
}

// Each table below holds a field's codes, variants and names, and takes what is to be made of them.

macro_rules! of_code {
    ($code:expr; $field:ident; $($number:literal $variant:ident $name:literal,)*) => {
        match $code {
            $($number => $field::$variant,)*
            _ => unreachable!(),
        }
    };
}

macro_rules! to_code {
    ($value:expr; $field:ident; $($number:literal $variant:ident $name:literal,)*) => {
        match $value {
            $($field::$variant => $number,)*
        }
    };
}

macro_rules! to_name {
    ($value:expr; $field:ident; $($number:literal $variant:ident $name:literal,)*) => {
        match $value {
            $($field::$variant => $name,)*
        }
    };
}

macro_rules! p_table {
    ($way:ident, $subject:expr) => {
        $way!($subject; P;
            0 Ram "ram", 1 Idb "idb", 2 M "m", 3 N "n",)
    };
}

macro_rules! alu_table {
    ($way:ident, $subject:expr) => {
        $way!($subject; Alu;
            0 Nop "nop", 1 Or "or", 2 And "and", 3 Xor "xor",
            4 Sub "sub", 5 Add "add", 6 Sbb "sbb", 7 Adc "adc",
            8 Dec "dec", 9 Inc "inc", 10 Cmp "cmp", 11 Shr1 "shr1",
            12 Shl1 "shl1", 13 Shl2 "shl2", 14 Shl4 "shl4", 15 Xchg "xchg",)
    };
}

macro_rules! acc_table {
    ($way:ident, $subject:expr) => {
        $way!($subject; Acc;
            0 A "a", 1 B "b",)
    };
}

macro_rules! dpl_table {
    ($way:ident, $subject:expr) => {
        $way!($subject; Dpl;
            0 DpNop "dpnop", 1 DpInc "dpinc", 2 DpDec "dpdec", 3 DpClr "dpclr",)
    };
}

macro_rules! src_table {
    ($way:ident, $subject:expr) => {
        $way!($subject; Src;
            0 Trb "trb", 1 A "a", 2 B "b", 3 Tr "tr",
            4 Dp "dp", 5 Rp "rp", 6 Ro "ro", 7 Sgn "sgn",
            8 Dr "dr", 9 Drnf "drnf", 10 Sr "sr", 11 Sim "sim",
            12 Sil "sil", 13 K "k", 14 L "l", 15 Mem "mem",)
    };
}

macro_rules! dst_table {
    ($way:ident, $subject:expr) => {
        $way!($subject; Dst;
            0 Non "non", 1 A "a", 2 B "b", 3 Tr "tr",
            4 Dp "dp", 5 Rp "rp", 6 Dr "dr", 7 Sr "sr",
            8 Sol "sol", 9 Som "som", 10 K "k", 11 Klr "klr",
            12 Klm "klm", 13 L "l", 14 Trb "trb", 15 Mem "mem",)
    };
}

impl P {
    pub fn from_code(code: u32) -> Self
        requires { code < 4 }
        ensures { p_code result ≡ code }
    {
        p_table!(of_code, code)
    }

    pub fn code(self) -> u32
        ensures value { result ≡ p_code self }
        ensures below { result < 4 }
    {
        p_table!(to_code, self)
    }

    /// The name in the source language.
    pub fn name(self) -> &'static str
        ensures { result.now ≡ p_name self }
    {
        p_table!(to_name, self)
    }
}

impl Alu {
    pub fn from_code(code: u32) -> Self
        requires { code < 16 }
        ensures { alu_code result ≡ code }
    {
        alu_table!(of_code, code)
    }

    pub fn code(self) -> u32
        ensures value { result ≡ alu_code self }
        ensures below { result < 16 }
    {
        alu_table!(to_code, self)
    }

    /// The name in the source language.
    pub fn name(self) -> &'static str
        ensures { result.now ≡ alu_name self }
    {
        alu_table!(to_name, self)
    }
}

impl Acc {
    pub fn from_code(code: u32) -> Self
        requires { code < 2 }
        ensures { acc_code result ≡ code }
    {
        acc_table!(of_code, code)
    }

    pub fn code(self) -> u32
        ensures value { result ≡ acc_code self }
        ensures below { result < 2 }
    {
        acc_table!(to_code, self)
    }

    /// The name in the source language.
    pub fn name(self) -> &'static str
        ensures { result.now ≡ acc_name self }
    {
        acc_table!(to_name, self)
    }
}

impl Dpl {
    pub fn from_code(code: u32) -> Self
        requires { code < 4 }
        ensures { dpl_code result ≡ code }
    {
        dpl_table!(of_code, code)
    }

    pub fn code(self) -> u32
        ensures value { result ≡ dpl_code self }
        ensures below { result < 4 }
    {
        dpl_table!(to_code, self)
    }

    /// The name in the source language.
    pub fn name(self) -> &'static str
        ensures { result.now ≡ dpl_name self }
    {
        dpl_table!(to_name, self)
    }
}

impl Src {
    pub fn from_code(code: u32) -> Self
        requires { code < 16 }
        ensures { src_code result ≡ code }
    {
        src_table!(of_code, code)
    }

    pub fn code(self) -> u32
        ensures value { result ≡ src_code self }
        ensures below { result < 16 }
    {
        src_table!(to_code, self)
    }

    /// The name in the source language.
    pub fn name(self) -> &'static str
        ensures { result.now ≡ src_name self }
    {
        src_table!(to_name, self)
    }
}

impl Dst {
    pub fn from_code(code: u32) -> Self
        requires { code < 16 }
        ensures { dst_code result ≡ code }
    {
        dst_table!(of_code, code)
    }

    pub fn code(self) -> u32
        ensures value { result ≡ dst_code self }
        ensures below { result < 16 }
    {
        dst_table!(to_code, self)
    }

    /// The name in the source language.
    pub fn name(self) -> &'static str
        ensures { result.now ≡ dst_name self }
    {
        dst_table!(to_name, self)
    }
}
