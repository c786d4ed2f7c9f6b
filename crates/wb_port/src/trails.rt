ghost use Rattle.std.specs.Prelude.{◌≡◌, ◌<◌, ◌≤◌, [], ◌∷◌, ◌++◌, OnOk, IfOk, take};
ghost use Rattle.wb_port.specs.Talk.{kinds};
ghost use Rattle.wb_port.specs.Points.{point_of, IsTrail};
ghost use Rattle.wb_port.specs.Replay.{moment_of, noted};

use crate::accesses::{Access, Kind};
use crate::lists::Kinds;
use crate::points::{Point, Points};
use crate::port::{halfway, requested};
use crate::replays::{Progress, Turned};
use crate::talks::Dialogue;
use std::alloc::Global;
use wb_machine::Machine;
use wb_rom::Image;
use wb_word::{OutOfMemory, Side};

/// The points that the held run of a dialogue passes on a side, in order: that of its start, and one after
/// each instruction and each data transfer.
pub fn points_passed(
    alloc: Global,
    image: &Image,
    side: Side,
    talk: &Dialogue,
    pace: u16,
) -> Result<Points, OutOfMemory>
    requires { 1 ≤ pace }
    ensures { IfOk result (IsTrail image.now side pace talk.now) }
{
    let said = Vec::with_capacity(alloc, talk.len())?;
    let mut now = Progress::begin(said, talk);
    let mut points = Points::new(alloc);
    points.push(point(alloc, side, talk, &now)?)?;
    loop {
        let turned = now.turn(image, talk, pace, true);
        if let Turned::Ended(_) = turned {
            return Ok(points);
        }
        note(alloc, side, talk, &now, turned, &mut points)?;
    }
}

/// Notes the point after a turn, where it executed an instruction or transferred data.
fn note(
    alloc: Global,
    side: Side,
    talk: &Dialogue,
    now: &Progress,
    turned: Turned,
    points: &mut Points,
) -> Result<(), OutOfMemory>
    requires { now.now.chip.monitor.count < 65536 }
    ensures { OnOk result (points.new ≡ points.old ++ noted side turned (moment_of talk.now now.now)) }
{
    match turned {
        Turned::Ended(_) | Turned::Gave(Access::Status) => Ok(()),
        Turned::Gave(Access::Read) | Turned::Gave(Access::Write(_)) | Turned::Stepped => {
            points.push(point(alloc, side, talk, now)?)
        },
    }
}

/// The point of a moment.
fn point(alloc: Global, side: Side, talk: &Dialogue, now: &Progress) -> Result<Point, OutOfMemory>
    requires { now.now.chip.monitor.count < 65536 }
    ensures { IfOk result (λ p. p ≡ point_of side (moment_of talk.now now.now)) }
{
    let machine = &now.chip.machine;
    let regs = machine.regs();
    Ok(Point {
        side,
        kinds: kinds_of(alloc, talk.list(), now.given)?,
        count: now.chip.monitor.count as u16,
        pc: regs.pc,
        sp: regs.sp,
        stack: stack_of(machine),
        asked: now.chip.monitor.asked,
        rqm: requested(machine),
        drs: halfway(machine),
    })
}

/// The four words of the return stack.
fn stack_of(machine: &Machine) -> [u16; 4]
    ensures { result ≡ machine.now.stack }
{
    [
        machine.stack_at(0),
        machine.stack_at(1),
        machine.stack_at(2),
        machine.stack_at(3),
    ]
}

/// The kinds of the data transfers among the first accesses.
fn kinds_of(alloc: Global, accesses: &[Access], given: usize) -> Result<Kinds, OutOfMemory>
    ensures { IfOk result (λ ks. ks ≡ kinds (take given accesses.now)) }
{
    let mut found = Kinds::new(alloc);
    for (place, access) in accesses.iter().enumerate() {
        if place == given {
            break;
        }
        add_kind(&mut found, *access)?;
    }
    Ok(found)
}

/// Adds the kind of an access, where it transfers data.
fn add_kind(found: &mut Kinds, access: Access) -> Result<(), OutOfMemory>
    ensures { OnOk result (found.new ≡ found.old ++ kinds (access ∷ [])) }
{
    match access {
        Access::Status => Ok(()),
        Access::Read => found.push(Kind::Read),
        Access::Write(_) => found.push(Kind::Write),
    }
}
