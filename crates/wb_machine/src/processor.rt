ghost use Rattle.std.specs.Prelude.{◌≡◌, if◌then◌else◌};

use crate::effects::{calculate, move_to, point, raise_by_source, twice_product, write_ram};
use crate::jumps::is_taken;
use crate::registers::Regs;
use std::marker::Model;
use wb_alu::{Flags, alu};
use wb_rom::Image;
use wb_word::{Acc, Addr, Cond, Dst, Instr, OpWord, P, Src, decode};

/// The chip: its registers, four words of return stack and 256 words of data RAM.
#[derive(Drop)]
pub struct Machine {
    regs: Regs,
    stack: [u16; 4],
    ram: [u16; 256],
}

impl Model for Machine {
    ghost use Rattle.wb_machine.specs.State.{IsState, State};

    ghost Value = { State };

    ghost view = { λ m. record { regs = m.regs; stack = m.stack; ram = m.ram } };

    ghost invariant = { λ m. IsState (record { regs = m.regs; stack = m.stack; ram = m.ram }) };
}

impl Machine {
    ghost use Rattle.std.specs.Prelude.{◌≡◌, ◌<◌, length, slice_index};
    ghost use Rattle.wb_machine.specs.State.{IsState, power, reset};
    ghost use Rattle.wb_machine.specs.Effects.{advanced, branched, called, jumped, loaded, operated, returned};
    ghost use Rattle.wb_machine.specs.Next.{bus_of, computed, computed_flags, next, operand};

    /// The chip at power-up, with a RAM of zeros.
    #[tactic(auto, unfolding(crate::specs::State::reset, crate::specs::State::power))]
    pub fn reset() -> Machine
        ensures value { result ≡ reset }
        ensures in_range { IsState result }
    {
        Machine::power(&[0; 256])
    }

    /// The chip at power-up, whose RAM holds these words.
    #[tactic(auto, unfolding(crate::specs::State::power))]
    pub fn power(cells: &[u16]) -> Machine
        requires { length cells.now ≡ 256 }
        ensures value { result ≡ power cells.now }
        ensures in_range { IsState result }
    {
        let mut ram = [0; 256];
        ram.copy_from_slice(cells);
        Machine {
            regs: Regs::at_power(),
            stack: [0; 4],
            ram,
        }
    }

    /// The registers as they are.
    pub fn regs(&self) -> Regs
        ensures value { result ≡ self.now.regs }
        ensures in_range { IsState self.now }
    {
        self.regs
    }

    /// A word of the return stack. The next call writes at the level that SP gives.
    pub fn stack_at(&self, level: usize) -> u16
        requires { level < 4 }
        ensures value { result ≡ slice_index self.now.stack level }
        ensures in_range { IsState self.now }
    {
        self.stack[level]
    }

    /// A word of the data RAM.
    pub fn ram_at(&self, dp: u8) -> u16
        ensures value { result ≡ slice_index self.now.ram dp }
        ensures in_range { IsState self.now }
    {
        self.ram[usize::from(dp)]
    }

    /// Replaces DR and SR, as a transfer of the host does.
    pub fn host_set(&mut self, dr: u16, sr: u16)
        ensures value { self.new ≡ record self.old { regs = record self.old.regs { dr = dr; sr = sr } } }
        ensures in_range { IsState self.new }
    {
        self.regs.dr = dr;
        self.regs.sr = sr;
    }

    /// A machine in the same state.
    pub fn copy(&self) -> Machine
        ensures value { result ≡ self.now }
        ensures in_range { IsState result }
    {
        Machine {
            regs: self.regs,
            stack: self.stack,
            ram: self.ram,
        }
    }

    /// Executes the instruction at the program counter.
    #[tactic(auto, unfolding(crate::specs::Next::next), using(crate::proofs::Steps::steps))]
    pub fn step(&mut self, image: &Image)
        ensures value { self.new ≡ next image.now self.old }
        ensures in_range { IsState self.new }
    {
        let word = image.word_at(Addr {
            value: self.regs.pc,
        });
        self.advance();
        match decode(word) {
            Instr::Op(op) => self.operate(&op, image),
            Instr::Rt(op) => {
                self.operate(&op, image);
                self.pop();
            }
            Instr::Jp { cond, na, .. } => self.jump(cond, na),
            Instr::Ld { value, dst, .. } => self.load(dst, value, image),
        }
    }

    #[tactic(auto, unfolding(crate::specs::Effects::advanced))]
    fn advance(&mut self)
        ensures value { self.new ≡ advanced self.old }
        ensures in_range { IsState self.new }
    {
        self.regs.pc = (self.regs.pc + 1) & 0x7FF;
    }

    fn jump(&mut self, cond: Cond, na: Addr)
        ensures value { self.new ≡ jumped cond na.value self.old }
        ensures in_range { IsState self.new }
    {
        match cond {
            Cond::Call => self.call(na),
            _ => self.branch(cond, na),
        }
    }

    #[tactic(auto, unfolding(crate::specs::Effects::branched))]
    fn branch(&mut self, cond: Cond, na: Addr)
        ensures value { self.new ≡ branched cond na.value self.old }
        ensures in_range { IsState self.new }
    {
        if is_taken(cond, &self.regs) {
            self.regs.pc = na.value;
        }
    }

    #[tactic(auto, unfolding(crate::specs::Effects::called))]
    fn call(&mut self, na: Addr)
        ensures value { self.new ≡ called na.value self.old }
        ensures in_range { IsState self.new }
    {
        self.stack[usize::from(self.regs.sp)] = self.regs.pc;
        self.regs.sp = (self.regs.sp + 1) & 0x3;
        self.regs.pc = na.value;
    }

    #[tactic(auto, unfolding(crate::specs::Effects::returned))]
    fn pop(&mut self)
        ensures value { self.new ≡ returned self.old }
        ensures in_range { IsState self.new }
    {
        self.regs.sp = self.regs.sp.wrapping_sub(1) & 0x3;
        self.regs.pc = self.stack[usize::from(self.regs.sp)];
    }

    /// What the source puts on the bus.
    #[tactic(auto, unfolding(crate::specs::Next::bus_of))]
    fn source(&self, src: Src, image: &Image) -> u16
        ensures { result ≡ bus_of src image.now self.now }
    {
        match src {
            Src::Trb => self.regs.trb,
            Src::A => self.regs.a,
            Src::B => self.regs.b,
            Src::Tr => self.regs.tr,
            Src::Dp => u16::from(self.regs.dp),
            Src::Rp => self.regs.rp,
            Src::Ro => image.drom_at(self.regs.rp),
            Src::Sgn => sign_limit(self.regs.flags_a.s1),
            Src::Dr => self.regs.dr,
            Src::Drnf => self.regs.dr,
            Src::Sr => self.regs.sr,
            Src::Sim => 0,
            Src::Sil => 0,
            Src::K => self.regs.k,
            Src::L => self.regs.l,
            Src::Mem => self.ram[usize::from(self.regs.dp)],
        }
    }

    /// The second operand of the ALU.
    #[tactic(auto, unfolding(crate::specs::Next::operand))]
    fn operand(&self, p: P, bus: u16) -> u16
        ensures { result ≡ operand p bus self.now }
    {
        match p {
            P::Ram => self.ram[usize::from(self.regs.dp)],
            P::Idb => bus,
            P::M => (twice_product(self.regs.k, self.regs.l) >> 16) as u16,
            P::N => (twice_product(self.regs.k, self.regs.l) & 0xFFFF) as u16,
        }
    }

    /// The ALU's result for a word, and the flags of the word's accumulator.
    #[tactic(auto, unfolding(crate::specs::Next::computed, crate::specs::Next::computed_flags))]
    fn compute(&self, op: &OpWord, bus: u16) -> (u16, Flags)
        ensures value { result.0 ≡ computed op.now bus self.now }
        ensures flags { result.1 ≡ computed_flags op.now bus self.now }
    {
        let value = self.operand(op.p, bus);
        match op.acc {
            Acc::A => alu(
                op.alu,
                self.regs.a,
                value,
                self.regs.flags_b.c,
                self.regs.flags_a,
            ),
            Acc::B => alu(
                op.alu,
                self.regs.b,
                value,
                self.regs.flags_a.c,
                self.regs.flags_b,
            ),
        }
    }

    #[tactic(auto, unfolding(crate::specs::Effects::operated_on, crate::specs::Effects::operated))]
    fn operate(&mut self, op: &OpWord, image: &Image)
        ensures value { self.new ≡ operated op.now image.now self.old }
        ensures in_range { IsState self.new }
    {
        let bus = self.source(op.src, image);
        let (value, flags) = self.compute(op, bus);
        let dp = self.regs.dp;
        calculate(op.acc, value, flags, &mut self.regs);
        raise_by_source(op.src, &mut self.regs);
        move_to(op.dst, bus, image, &self.ram, &mut self.regs);
        write_ram(op.dst, bus, dp, &mut self.ram);
        point(op, &mut self.regs);
    }

    #[tactic(auto, unfolding(crate::specs::Effects::loaded))]
    fn load(&mut self, dst: Dst, value: u16, image: &Image)
        ensures value { self.new ≡ loaded dst value image.now self.old }
        ensures in_range { IsState self.new }
    {
        let dp = self.regs.dp;
        move_to(dst, value, image, &self.ram, &mut self.regs);
        write_ram(dst, value, dp, &mut self.ram);
    }
}

/// The most positive or the most negative number, for a sign.
fn sign_limit(is_negative: bool) -> u16
    ensures { result ≡ (if is_negative then 0x7FFF else 0x8000) }
{
    if is_negative { 0x7FFF } else { 0x8000 }
}
