ghost use Rattle.std.specs.Prelude.{◌≡◌, ◌/◌, ◌%◌, ◌==◌};
ghost use Rattle.wb_port.specs.Port.{rqm, drs, status_byte, byte_read, after_read, after_write};
ghost use Rattle.wb_port.specs.Port.{transferred, half_of, half_replaced};

use wb_machine::{Machine, Regs};

/// Whether a request stands: RQM, bit 15 of the status register.
#[tactic(auto, unfolding(crate::specs::Port::rqm))]
pub fn requested(m: &Machine) -> bool
    ensures { result ≡ rqm m.now }
{
    m.regs().sr >> 15 & 1 == 1
}

/// Whether the first half of a word was transferred: DRS, bit 12 of the status register.
#[tactic(auto, unfolding(crate::specs::Port::drs))]
pub fn halfway(m: &Machine) -> bool
    ensures { result ≡ drs m.now }
{
    m.regs().sr >> 12 & 1 == 1
}

/// A status read: bits 15 to 8 of the status register.
#[tactic(auto, unfolding(crate::specs::Port::status_byte))]
pub fn status(m: &Machine) -> u8
    ensures { result ≡ status_byte m.now }
{
    (m.regs().sr >> 8) as u8
}

/// A data read: one half of DR, by DRC and DRS.
#[tactic(auto, unfolding(crate::specs::Port::byte_read, crate::specs::Port::after_read, crate::specs::Port::drc, crate::specs::Port::drs))]
pub fn read(m: &mut Machine) -> u8
    ensures byte { result ≡ byte_read m.old }
    ensures after { m.new ≡ after_read m.old }
{
    let regs = m.regs();
    let single = is_single(&regs);
    let second = is_second(&regs);
    m.host_set(regs.dr, sr_after(single, second, regs.sr));
    half(single, second, regs.dr)
}

/// A data write: one half of DR is replaced, by DRC and DRS.
#[tactic(auto, unfolding(crate::specs::Port::after_write, crate::specs::Port::drc, crate::specs::Port::drs))]
pub fn write(m: &mut Machine, byte: u8)
    ensures { m.new ≡ after_write byte m.old }
{
    let regs = m.regs();
    let single = is_single(&regs);
    let second = is_second(&regs);
    m.host_set(
        with_half(single, second, byte, regs.dr),
        sr_after(single, second, regs.sr),
    );
}

/// DRC: a data transfer has one byte alone.
fn is_single(regs: &Regs) -> bool
    ensures { result ≡ (regs.now.sr / 1024 % 2 == 1) }
{
    regs.sr >> 10 & 1 == 1
}

/// DRS: the first half of a word was transferred.
fn is_second(regs: &Regs) -> bool
    ensures { result ≡ (regs.now.sr / 4096 % 2 == 1) }
{
    regs.sr >> 12 & 1 == 1
}

/// The status register after a data transfer.
fn sr_after(single: bool, second: bool, sr: u16) -> u16
    ensures { result ≡ transferred single second sr }
{
    match (single, second) {
        (true, _) => sr & 0x7FFF,
        (false, false) => (sr >> 13 << 13) + 0x1000 + (sr & 0xFFF),
        (false, true) => ((sr >> 13 & 0x3) << 13) + (sr & 0xFFF),
    }
}

/// The half of a word that a transfer gives.
fn half(single: bool, second: bool, word: u16) -> u8
    ensures { result ≡ half_of single second word }
{
    match (single, second) {
        (false, true) => (word >> 8) as u8,
        _ => (word & 0xFF) as u8,
    }
}

/// The word with the half that a transfer takes replaced.
fn with_half(single: bool, second: bool, byte: u8, word: u16) -> u16
    ensures { result ≡ half_replaced single second byte word }
{
    match (single, second) {
        (false, true) => (u16::from(byte) << 8) + (word & 0xFF),
        _ => (word & 0xFF00) + u16::from(byte),
    }
}
