ghost use Rattle.std.specs.Prelude.{◌≡◌, ◌<◌, ◌/◌, bit_xor};
ghost use Rattle.wb_machine.specs.Effects.{calculated, moved, pointed, source_raised};
ghost use Rattle.wb_machine.specs.Next.{dp_stepped, merged, moved_ram, low_stepped, product, raised, rp_stepped};
ghost use Rattle.wb_alu.specs.Operation.{signed};
ghost use Rattle.wb_machine.specs.State.{IsRegs};

use crate::registers::Regs;
use wb_alu::Flags;
use wb_rom::Image;
use wb_word::{Acc, Dpl, Dst, OpWord, Src};

fn signed_value(word: u16) -> i64
    ensures { result ≡ signed word }
{
    if word < 32768 {
        i64::from(word)
    } else {
        i64::from(word) - 65536
    }
}

/// Twice the signed product of the multiplier's inputs.
#[tactic(auto, unfolding(crate::specs::Next::product))]
pub(crate) fn twice_product(k: u16, l: u16) -> u32
    ensures { result ≡ product k l }
{
    let exact = signed_value(k) * signed_value(l) * 2;
    exact.rem_euclid(1 << 32) as u32
}

#[tactic(auto, unfolding(crate::specs::Effects::calculated))]
pub(crate) fn calculate(acc: Acc, value: u16, flags: Flags, regs: &mut Regs)
    ensures value { regs.new ≡ calculated acc value flags regs.old }
    ensures in_range { IsRegs regs.old → IsRegs regs.new }
{
    match acc {
        Acc::A => {
            regs.a = value;
            regs.flags_a = flags;
        }
        Acc::B => {
            regs.b = value;
            regs.flags_b = flags;
        }
    }
}

fn raise(sr: u16) -> u16
    ensures { result ≡ raised sr }
{
    0x8000 + (sr & 0x7FFF)
}

/// Reading DR raises RQM, the request for the next transfer of the host.
#[tactic(auto, unfolding(crate::specs::Effects::source_raised))]
pub(crate) fn raise_by_source(src: Src, regs: &mut Regs)
    ensures value { regs.new ≡ source_raised src regs.old }
    ensures in_range { IsRegs regs.old → IsRegs regs.new }
{
    match src {
        Src::Dr => regs.sr = raise(regs.sr),
        _ => {}
    }
}

fn merge(bus: u16, sr: u16) -> u16
    ensures { result ≡ merged bus sr }
{
    (sr >> 15 << 15)
        + ((bus >> 13 & 0x3) << 13)
        + ((sr >> 12 & 0x1) << 12)
        + ((bus >> 7 & 0x1F) << 7)
        + ((sr >> 2 & 0x1F) << 2)
        + (bus & 0x3)
}

#[tactic(auto, unfolding(crate::specs::Effects::moved))]
pub(crate) fn move_to(dst: Dst, bus: u16, image: &Image, ram: &[u16; 256], regs: &mut Regs)
    requires { regs.old.rp < 1024 }
    ensures value { regs.new ≡ moved dst bus image.now ram.now regs.old }
    ensures in_range { IsRegs regs.old → IsRegs regs.new }
{
    match dst {
        Dst::Non => {}
        Dst::A => regs.a = bus,
        Dst::B => regs.b = bus,
        Dst::Tr => regs.tr = bus,
        Dst::Dp => regs.dp = (bus & 0xFF) as u8,
        Dst::Rp => regs.rp = bus & 0x3FF,
        Dst::Dr => {
            regs.dr = bus;
            regs.sr = raise(regs.sr);
        }
        Dst::Sr => regs.sr = merge(bus, regs.sr),
        Dst::Sol => regs.so = bus,
        Dst::Som => regs.so = bus,
        Dst::K => regs.k = bus,
        Dst::Klr => {
            regs.k = bus;
            regs.l = image.drom_at(regs.rp);
        }
        Dst::Klm => {
            regs.k = ram[usize::from(regs.dp | 0x40)];
            regs.l = bus;
        }
        Dst::L => regs.l = bus,
        Dst::Trb => regs.trb = bus,
        Dst::Mem => {}
    }
}

pub(crate) fn write_ram(dst: Dst, bus: u16, dp: u8, ram: &mut [u16; 256])
    ensures { ram.new ≡ moved_ram dst bus dp ram.old }
{
    match dst {
        Dst::Mem => ram[usize::from(dp)] = bus,
        _ => {}
    }
}

fn low_step(change: Dpl, low: u8) -> u8
    requires { low < 16 }
    ensures value { result ≡ low_stepped change low }
    ensures below { result < 16 }
{
    match change {
        Dpl::DpNop => low,
        Dpl::DpInc => (low + 1) & 0xF,
        Dpl::DpDec => (low + 15) & 0xF,
        Dpl::DpClr => 0,
    }
}

fn high_step(high: u8, dp: u8) -> u8
    requires { high < 16 }
    ensures value { result ≡ bit_xor (dp / 16) high }
    ensures below { result < 16 }
{
    dp >> 4 ^ high
}

#[tactic(auto, unfolding(crate::specs::Next::dp_stepped))]
fn dp_step(change: Dpl, high: u8, dp: u8) -> u8
    requires { high < 16 }
    ensures { result ≡ dp_stepped change high dp }
{
    (high_step(high, dp) << 4) + low_step(change, dp & 0xF)
}

fn rp_step(change: bool, rp: u16) -> u16
    requires { rp < 1024 }
    ensures value { result ≡ rp_stepped change rp }
    ensures below { result < 1024 }
{
    if change {
        rp.wrapping_sub(1) & 0x3FF
    } else {
        rp
    }
}

/// The pointers change, but for one that the move wrote.
#[tactic(auto, unfolding(crate::specs::Effects::pointed))]
pub(crate) fn point(op: &OpWord, regs: &mut Regs)
    requires { regs.old.rp < 1024 }
    ensures value { regs.new ≡ pointed op.now regs.old }
    ensures in_range { IsRegs regs.old → IsRegs regs.new }
{
    match op.dst {
        Dst::Dp => regs.rp = rp_step(op.rpdec, regs.rp),
        Dst::Rp => regs.dp = dp_step(op.dpl, op.dphm.value, regs.dp),
        _ => {
            regs.dp = dp_step(op.dpl, op.dphm.value, regs.dp);
            regs.rp = rp_step(op.rpdec, regs.rp);
        }
    }
}
