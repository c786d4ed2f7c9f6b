ghost use Rattle.std.specs.Prelude.{◌≡◌, ◌<◌};
ghost use Rattle.wb_port.specs.Monitor.{count_after};

use crate::accesses::Kind;
use crate::lists::Kinds;
use crate::loops::{is_poll, is_test, raises};
use std::alloc::Global;
use std::marker::Model;
use wb_rom::Image;
use wb_word::{Addr, OutOfMemory, Side};

/// What an explorer tells apart of the moments of held runs.
#[derive(Drop)]
pub struct Point {
    pub side: Side,
    /// The kinds of the data transfers so far.
    pub kinds: Kinds,
    /// Instructions since power-up or since the one that raised the last request, after which it is 0.
    pub count: u16,
    pub pc: u16,
    pub sp: u8,
    pub stack: [u16; 4],
    /// Whether a request was raised and no poll has found since that it is over.
    pub asked: bool,
    pub rqm: bool,
    pub drs: bool,
}

/// What a point shows of its machine.
#[derive(Clone, Copy, PartialEq, Eq, Debug)]
pub struct Shown {
    pub pc: u16,
    pub sp: u8,
    pub stack: [u16; 4],
    pub rqm: bool,
    pub drs: bool,
}

impl Point {
    ghost use Rattle.std.specs.Prelude.{◌≡◌, ◌<◌, IfOk, OnOk, OnErr};
    ghost use Rattle.wb_port.specs.Monitor.{idles_at, leaves_at};
    ghost use Rattle.wb_port.specs.NextPoint.{point_given, point_stepped, showing};

    /// An equal point.
    pub fn copy(&self, alloc: Global) -> Result<Point, OutOfMemory>
        ensures { IfOk result (λ p. p ≡ self.now) }
    {
        Ok(Point {
            side: self.side,
            kinds: self.kinds.copy(alloc)?,
            count: self.count,
            pc: self.pc,
            sp: self.sp,
            stack: self.stack,
            asked: self.asked,
            rqm: self.rqm,
            drs: self.drs,
        })
    }

    /// Goes on by one instruction of the image, after which the machine shows this.
    pub fn step(&mut self, image: &Image, shown: Shown)
        requires place { self.old.pc < 2048 }
        requires small { self.old.count < 65535 }
        ensures { self.new ≡ point_stepped image.now shown self.old }
    {
        let here = Addr { value: self.pc };
        let raised = raises(image.word_at(here));
        let idle = self.idles(image, here);
        let asked = raised || (self.asked && !self.leaves(image, here));
        self.count = counted(idle, raised, self.count);
        self.asked = asked;
        self.show(shown);
    }

    /// Goes on by one data transfer, after which the machine shows this. A refusal changes nothing.
    pub fn give(&mut self, kind: Kind, shown: Shown) -> Result<(), OutOfMemory>
        ensures ok { OnOk result (self.new ≡ point_given kind shown self.old) }
        ensures err { OnErr result (self.new ≡ self.old) }
    {
        self.kinds.push(kind)?;
        self.show(shown);
        Ok(())
    }

    /// Shows this of the machine.
    fn show(&mut self, shown: Shown)
        ensures { self.new ≡ showing shown self.old }
    {
        self.pc = shown.pc;
        self.sp = shown.sp;
        let stack = shown.stack;
        self.stack = stack;
        self.rqm = shown.rqm;
        self.drs = shown.drs;
    }

    /// Whether the instruction here is idle.
    fn idles(&self, image: &Image, here: Addr) -> bool
        ensures { result ≡ idles_at image.now self.now.asked self.now.rqm here.value }
    {
        self.asked && is_poll(image, here) && (!is_test(image.word_at(here)) || self.rqm)
    }

    /// Whether the instruction here leaves a poll.
    fn leaves(&self, image: &Image, here: Addr) -> bool
        ensures { result ≡ leaves_at image.now self.now.rqm here.value }
    {
        is_poll(image, here) && is_test(image.word_at(here)) && !self.rqm
    }
}

/// The count after an instruction.
fn counted(idle: bool, raised: bool, count: u16) -> u16
    requires { count < 65535 }
    ensures { result ≡ count_after idle raised count }
{
    if idle {
        count
    } else if raised {
        0
    } else {
        count + 1
    }
}

/// Points, in order.
#[derive(Drop)]
pub struct Points {
    items: Vec<Point>,
}

impl Model for Points {
    ghost use Rattle.std.specs.Prelude.{List};
    ghost use Rattle.wb_port.specs.declared.points.Point.{Point};

    ghost Value = { List Point };

    ghost view = { λ p. p.items.items };
}

impl Points {
    ghost use Rattle.std.specs.Prelude.{◌≡◌, ◌<◌, [], ◌∷◌, ◌++◌, OnOk, OnErr, Some, length, slice_get};

    /// No points.
    pub fn new(alloc: Global) -> Self
        ensures { result ≡ [] }
    {
        Points {
            items: Vec::new(alloc),
        }
    }

    /// One more point at the end.
    pub fn push(&mut self, point: Point) -> Result<(), OutOfMemory>
        ensures ok { OnOk result (self.new ≡ self.old ++ point ∷ []) }
        ensures err { OnErr result (self.new ≡ self.old) }
    {
        self.items.push(point)?;
        Ok(())
    }

    pub fn len(&self) -> usize
        ensures { result ≡ length self.now }
    {
        self.items.len()
    }

    /// The point at a place.
    pub fn at(&self, place: usize) -> &Point
        requires { place < length self.now }
        ensures { slice_get self.now place ≡ Some result.now }
    {
        &self.items[place]
    }
}
