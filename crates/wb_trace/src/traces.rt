//! Two chips that are moved side by side, and the pairs before them.
use crate::answers::Moved;
use crate::chips::Chips;
use crate::moves::Move;
use circular_buffer::HeapCircularBuffer;
use std::alloc::Global;
use std::marker::Model;
use std::mem::replace;
use wb_port::{Access, Event, status};
use wb_rom::Image;
use wb_word::{OutOfMemory, Side};

/// Two chips side by side, and as many of the pairs before them as moves can be taken back.
#[derive(Drop)]
pub struct Trace {
    chips: Chips,
    earlier: HeapCircularBuffer<Chips>,
}

impl Model for Trace {
    ghost use Rattle.wb_trace.specs.Trace.{Tracing};

    ghost Value = { Tracing };

    ghost view = { λ t. record { chips = t.chips; earlier = t.earlier.items; depth = t.earlier.capacity } };
}

impl Trace {
    ghost use Rattle.std.specs.Prelude.{◌≡◌, ◌≤◌, ◌==◌, IfOk, length, if◌then◌else◌};
    ghost use Rattle.wb_word.specs.Encoding.{addr_at};
    ghost use Rattle.wb_port.specs.Port.{status_byte, byte_read, access_reply};
    ghost use Rattle.wb_port.specs.Monitor.{place, capped};
    ghost use Rattle.wb_port.specs.Schedule.{applied};
    ghost use Rattle.wb_trace.specs.Standing.{answer, of_transfer};
    ghost use Rattle.wb_trace.specs.Trace.{begun_trace, moved_on, advanced, went_back, transferred, both_applied};

    /// Both chips at reset, and nothing to take back. All memory that a trace needs is taken here.
    pub fn with_depth(alloc: Global, depth: usize) -> Result<Trace, OutOfMemory>
        requires some { 1 ≤ depth }
        requires few { depth ≤ 256 }
        ensures { IfOk result (λ t. t ≡ begun_trace depth) }
    {
        let earlier = HeapCircularBuffer::with_capacity(alloc, depth)?;
        let chips = Chips::reset();
        Ok(Trace { chips, earlier })
    }

    /// Makes one move, which takes no memory. A step or a transfer can be taken back until as many more as the
    /// depth were made.
    pub fn apply(&mut self, a: &Image, b: &Image, mv: Move) -> Moved
        ensures after { self.new ≡ moved_on a.now b.now mv self.old }
        ensures moved { result ≡ answer self.old.chips (length self.old.earlier) mv }
    {
        match mv {
            Move::StepA => self.step_a(a),
            Move::StepB => self.step_b(b),
            Move::Status => self.status(),
            Move::Read => self.read(a, b),
            Move::Write(byte) => self.write(a, b, byte),
            Move::Undo => self.undo(),
            Move::Show => self.show(),
        }
    }

    /// The chips become these, and can be taken back to what they were.
    fn advance(&mut self, chips: Chips)
        ensures { self.new ≡ advanced chips self.old }
    {
        let before = replace(&mut self.chips, chips);
        self.earlier.push_back(before);
    }

    #[tactic(auto, using(crate::proofs::Addresses::addr_is))]
    fn step_a(&mut self, a: &Image) -> Moved
        ensures after { self.new ≡ advanced (record self.old.chips { a = capped (applied a.now Event.Step self.old.chips.a) }) self.old }
        ensures moved { result ≡ Moved.Stepped Side.A (addr_at (place self.old.chips.a)) }
    {
        let at = self.chips.a.place();
        let mut next = self.chips.copy();
        next.a.apply(a, Event::Step);
        self.advance(next);
        Moved::Stepped(Side::A, at)
    }

    #[tactic(auto, using(crate::proofs::Addresses::addr_is))]
    fn step_b(&mut self, b: &Image) -> Moved
        ensures after { self.new ≡ advanced (record self.old.chips { b = capped (applied b.now Event.Step self.old.chips.b) }) self.old }
        ensures moved { result ≡ Moved.Stepped Side.B (addr_at (place self.old.chips.b)) }
    {
        let at = self.chips.b.place();
        let mut next = self.chips.copy();
        next.b.apply(b, Event::Step);
        self.advance(next);
        Moved::Stepped(Side::B, at)
    }

    fn status(&self) -> Moved
        ensures { result ≡ Moved.Bytes (status_byte self.now.chips.a.machine) (status_byte self.now.chips.b.machine) }
    {
        let first = status(&self.chips.a.machine);
        let second = status(&self.chips.b.machine);
        Moved::Bytes(first, second)
    }

    /// A transfer on both sides.
    fn transfer(&mut self, a: &Image, b: &Image, access: Access) -> (Option<u8>, Option<u8>)
        ensures after { self.new ≡ advanced (both_applied a.now b.now (Event.Host access) self.old.chips) self.old }
        ensures first { result.0 ≡ access_reply access self.old.chips.a.machine }
        ensures second { result.1 ≡ access_reply access self.old.chips.b.machine }
    {
        let mut next = self.chips.copy();
        let first = next.a.apply(a, Event::Host(access));
        let second = next.b.apply(b, Event::Host(access));
        self.advance(next);
        (first, second)
    }

    fn read(&mut self, a: &Image, b: &Image) -> Moved
        ensures after { self.new ≡ transferred a.now b.now (Event.Host Access.Read) self.old }
        ensures moved { result ≡ of_transfer self.old.chips (Moved.Bytes (byte_read self.old.chips.a.machine) (byte_read self.old.chips.b.machine)) }
    {
        if let Some(side) = self.chips.busy_side() {
            return Moved::Busy(side);
        }
        let (first, second) = self.transfer(a, b, Access::Read);
        Moved::Bytes(first.unwrap(), second.unwrap())
    }

    fn write(&mut self, a: &Image, b: &Image, byte: u8) -> Moved
        ensures after { self.new ≡ transferred a.now b.now (Event.Host (Access.Write byte)) self.old }
        ensures moved { result ≡ of_transfer self.old.chips (Moved.Wrote byte) }
    {
        if let Some(side) = self.chips.busy_side() {
            return Moved::Busy(side);
        }
        self.transfer(a, b, Access::Write(byte));
        Moved::Wrote(byte)
    }

    fn undo(&mut self) -> Moved
        ensures after { self.new ≡ went_back self.old }
        ensures moved { result ≡ (if length self.old.earlier == 0 then Moved.Nothing else Moved.Undone) }
    {
        match self.earlier.pop_back() {
            Some(chips) => {
                self.chips = chips;
                Moved::Undone
            }
            None => Moved::Nothing,
        }
    }

    fn show(&self) -> Moved
        ensures { result ≡ Moved.Shown self.now.chips.a.machine.regs self.now.chips.b.machine.regs }
    {
        let first = self.chips.a.machine.regs();
        let second = self.chips.b.machine.regs();
        Moved::Shown(first, second)
    }
}
