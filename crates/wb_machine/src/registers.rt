ghost use Rattle.std.specs.Prelude.{◌≡◌};
ghost use Rattle.wb_machine.specs.State.{first_regs};

use wb_alu::Flags;

/// The registers of the chip.
#[derive(Clone, Copy, PartialEq, Eq, Debug)]
pub struct Regs {
    /// The program counter, 11 bits.
    pub pc: u16,
    /// The stack pointer, 2 bits.
    pub sp: u8,
    /// The pointer into the data ROM, 10 bits.
    pub rp: u16,
    /// The pointer into the data RAM.
    pub dp: u8,
    /// Accumulator A.
    pub a: u16,
    /// Accumulator B.
    pub b: u16,
    /// The temporary register.
    pub tr: u16,
    /// The second temporary register.
    pub trb: u16,
    /// The first input of the multiplier.
    pub k: u16,
    /// The second input of the multiplier.
    pub l: u16,
    /// The data register, which host and chip share.
    pub dr: u16,
    /// The status register. Its bit 15 is RQM: a request of the chip stands.
    pub sr: u16,
    /// The serial output register, which nothing reads.
    pub so: u16,
    /// The flags of accumulator A.
    pub flags_a: Flags,
    /// The flags of accumulator B.
    pub flags_b: Flags,
}

const NO_FLAGS: Flags = Flags {
    c: false,
    z: false,
    s0: false,
    s1: false,
    ov0: false,
    ov1: false,
};

impl Regs {
    pub(crate) fn at_power() -> Regs
        ensures { result ≡ first_regs }
    {
        Regs {
            pc: 0,
            sp: 0,
            rp: 0x3FF,
            dp: 0,
            a: 0,
            b: 0,
            tr: 0,
            trb: 0,
            k: 0,
            l: 0,
            dr: 0,
            sr: 0,
            so: 0,
            flags_a: NO_FLAGS,
            flags_b: NO_FLAGS,
        }
    }
}
