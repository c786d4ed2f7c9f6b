ghost use Rattle.std.specs.Prelude.{◌≡◌, ◌-◌, ◌^◌, min};
ghost use Rattle.wb_port.specs.Monitor.{count_after, first_breach};

use crate::accesses::{Access, Event};
use crate::loops::{is_poll, is_test, raises, touches};
use crate::port::{read, requested, status, write};
use wb_machine::Machine;
use wb_rom::Image;
use wb_word::{Addr, Word};

/// What an observer keeps beside the chip.
#[derive(Clone, Copy, PartialEq, Eq, Debug)]
pub struct Monitor {
    /// Whether a request was raised and no poll has found since that it is over.
    pub asked: bool,
    /// Instructions since power-up or since the one that raised the last request, after which it is 0. Idle ones
    /// aren't counted; the one that raises the next request is. It stays at the greatest number of 64 bits once
    /// it is there.
    pub count: u64,
    /// The address of the first breach that was executed.
    pub breach: Option<Addr>,
}

const WATCHING: Monitor = Monitor {
    asked: false,
    count: 0,
    breach: None,
};

/// A chip and its observer.
#[derive(Drop)]
pub struct Chip {
    pub machine: Machine,
    pub monitor: Monitor,
}

impl Chip {
    ghost use Rattle.std.specs.Prelude.{◌≡◌, ◌&&◌, not, length, replicate};
    ghost use Rattle.wb_port.specs.Wait.{is_poll, is_test, touches, raises_request};
    ghost use Rattle.wb_port.specs.Port.{rqm, accessed, access_reply};
    ghost use Rattle.wb_port.specs.Monitor.{place, word_at, is_idle, is_breach, is_leaving, observed, stepped, capped, capped_monitor};
    ghost use Rattle.wb_port.specs.Schedule.{powered, applied, reply_of};

    /// The chip at power-up with a RAM of zeros, and an observer that has seen nothing.
    #[tactic(auto, using(crate::proofs::Steady::reset_is))]
    pub fn reset() -> Chip
        ensures { result ≡ powered (replicate 256 0) }
    {
        Chip {
            machine: Machine::reset(),
            monitor: WATCHING,
        }
    }

    /// The chip at power-up, whose RAM holds these words, and an observer that has seen nothing.
    pub fn power(cells: &[u16]) -> Chip
        requires { length cells.now ≡ 256 }
        ensures { result ≡ powered cells.now }
    {
        Chip {
            machine: Machine::power(cells),
            monitor: WATCHING,
        }
    }

    /// An equal chip.
    pub fn copy(&self) -> Chip
        ensures { result ≡ self.now }
    {
        Chip {
            machine: self.machine.copy(),
            monitor: self.monitor,
        }
    }

    /// The address of the next instruction.
    pub fn place(&self) -> Addr
        ensures { result.value ≡ place self.now }
    {
        Addr {
            value: self.machine.regs().pc,
        }
    }

    /// Whether the next instruction is idle: the chip waits at a poll for the host.
    #[tactic(auto, unfolding(crate::specs::Monitor::is_idle))]
    pub fn is_idle(&self, image: &Image) -> bool
        ensures { result ≡ is_idle image.now self.now }
    {
        self.monitor.asked
            && is_poll(image, self.place())
            && (!is_test(image.word_at(self.place())) || requested(&self.machine))
    }

    /// Whether the next instruction is a breach: it touches the port while a request is asked, outside a poll.
    #[tactic(auto, unfolding(crate::specs::Monitor::is_breach))]
    pub fn is_breach(&self, image: &Image) -> bool
        ensures { result ≡ is_breach image.now self.now }
    {
        self.monitor.asked && touches(image.word_at(self.place())) && !is_poll(image, self.place())
    }

    /// One event of a schedule. The reply is the byte that a read or a status read gives.
    pub fn apply(&mut self, image: &Image, event: Event) -> Option<u8>
        ensures after { self.new ≡ capped (applied image.now event self.old) }
        ensures reply { result ≡ reply_of event self.old }
    {
        match event {
            Event::Step => {
                self.step(image);
                None
            },
            Event::Host(access) => {
                let _count = self.monitor.count;
                self.access(access)
            },
        }
    }

    /// One instruction, and what the observer sees of it.
    #[tactic(auto, unfolding(crate::specs::Monitor::stepped))]
    pub(crate) fn step(&mut self, image: &Image)
        ensures { self.new ≡ capped (stepped image.now self.old) }
    {
        let seen = self.observe(image);
        self.machine.step(image);
        self.monitor = seen;
    }

    /// One access of the host.
    pub(crate) fn access(&mut self, access: Access) -> Option<u8>
        ensures after { self.new ≡ record self.old { machine = accessed access self.old.machine } }
        ensures reply { result ≡ access_reply access self.old.machine }
    {
        match access {
            Access::Status => Some(status(&self.machine)),
            Access::Read => Some(read(&mut self.machine)),
            Access::Write(byte) => {
                write(&mut self.machine, byte);
                None
            },
        }
    }

    /// The observer after the next instruction.
    #[tactic(auto, unfolding(crate::specs::Monitor::observed))]
    fn observe(&self, image: &Image) -> Monitor
        ensures { result ≡ capped_monitor (observed image.now self.now) }
    {
        let raised = raises(image.word_at(self.place()));
        let asked = raised || (self.monitor.asked && !self.is_leaving(image));
        let count = counted(self.is_idle(image), raised, self.monitor.count);
        let breach = first_breach(self.monitor.breach, self.is_breach(image), self.place());
        Monitor {
            asked,
            count,
            breach,
        }
    }

    /// Whether the next instruction leaves a poll: its test finds that RQM is 0.
    #[tactic(auto, unfolding(crate::specs::Monitor::is_leaving))]
    fn is_leaving(&self, image: &Image) -> bool
        ensures { result ≡ is_leaving image.now self.now }
    {
        is_poll(image, self.place())
            && is_test(image.word_at(self.place()))
            && !requested(&self.machine)
    }
}

fn counted(idle: bool, raised: bool, count: u64) -> u64
    ensures { result ≡ min (count_after idle raised count) (2 ^ 64 - 1) }
{
    if idle {
        count
    } else if raised {
        0
    } else {
        count.saturating_add(1)
    }
}

#[tactic(auto, using(crate::proofs::Steady::addr_is))]
fn first_breach(first: Option<Addr>, breach: bool, at: Addr) -> Option<Addr>
    ensures { result ≡ first_breach first breach at.value }
{
    match first {
        Some(first) => Some(first),
        None => if breach { Some(at) } else { None },
    }
}
