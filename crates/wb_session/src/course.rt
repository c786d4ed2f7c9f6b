//! The run of a script on an image.
ghost use Rattle.std.specs.Prelude.{◌≡◌, ◌≤◌, ◌+◌, [], IfOk, MatchOption, MatchResult, length, vec_capacity};
ghost use Rattle.wb_port.specs.declared.chips.Chip.{Chip};
ghost use Rattle.wb_port.specs.Schedule.{after};
ghost use Rattle.wb_session.specs.Course.{executed, Comes, StaysSilent, Reads, Writes, NoRequest, Answered, Stopped, ended_at};
ghost use Rattle.wb_session.specs.Transcript.{IsTranscript, events_made, fresh};

use crate::transcripts::{Ended, Line, Lines, Transcript};
use std::alloc::Global;
use wb_machine::Machine;
use wb_port::{read, requested, status, write};
use wb_rom::Image;
use wb_script::{Item, Script};
use wb_word::OutOfMemory;

/// Why an item ended the run.
#[derive(Clone, Copy)]
pub(crate) enum Stop {
    Early,
    Silent,
}

impl Stop {
    /// The end of a run at the item of this number.
    fn at(self, number: u32) -> Ended
        ensures { result ≡ ended_at self number }
    {
        match self {
            Stop::Early => Ended::Early(number),
            Stop::Silent => Ended::Silent(number),
        }
    }
}

/// The end of a run: the machine as the script left it, and the transcript.
#[derive(Drop)]
pub struct Session {
    pub machine: Machine,
    pub transcript: Transcript,
}

/// Executes so many instructions.
fn execute(image: &Image, machine: &mut Machine, count: u16)
    ensures { machine.new ≡ executed image.now count machine.old }
{
    for _ in 0..count {
        machine.step(image);
    }
}

/// Executes instructions until a request stands, and tells how many; None where none stands after `most`.
fn wait(image: &Image, machine: &mut Machine, most: u16) -> Option<u16>
    ensures { MatchOption result (StaysSilent image.now most machine.old machine.new)
        (Comes image.now most machine.old machine.new) }
{
    let mut count = 0;
    while !requested(machine) {
        if count == most {
            return None;
        }
        machine.step(image);
        count += 1;
    }
    Some(count)
}

/// A data read, where a request stands; the port is left alone where none does.
fn try_read(machine: &mut Machine) -> Result<Line, Stop>
    ensures { MatchResult result (Reads machine.old machine.new) (NoRequest machine.old machine.new) }
{
    if !requested(machine) {
        return Err(Stop::Early);
    }
    Ok(Line::Read(read(machine)))
}

/// A data write, where a request stands; the port is left alone where none does.
fn try_write(machine: &mut Machine, byte: u8) -> Result<Line, Stop>
    ensures { MatchResult result (Writes byte machine.old machine.new) (NoRequest machine.old machine.new) }
{
    if !requested(machine) {
        return Err(Stop::Early);
    }
    write(machine, byte);
    Ok(Line::Wrote(byte))
}

/// What one item does.
fn answer(image: &Image, machine: &mut Machine, item: Item) -> Result<Line, Stop>
    ensures { (chip : Chip) → chip.machine ≡ machine.old →
        MatchResult result (Answered image.now chip item machine.new)
        (Stopped image.now chip item machine.new) }
{
    match item {
        Item::Wait(most) => match wait(image, machine, most) {
            Some(count) => Ok(Line::Waited(count)),
            None => Err(Stop::Silent),
        },
        Item::Step(count) => {
            execute(image, machine, count);
            Ok(Line::Stepped(count))
        }
        Item::Status => Ok(Line::Status(status(machine))),
        Item::Read => try_read(machine),
        Item::Write(byte) => try_write(machine, byte),
    }
}

/// Runs a script from power-up into lines that have the room for all of them. It takes no memory, so a run that has
/// begun comes to its end.
pub fn play(mut lines: Vec<Line>, image: &Image, script: &Script) -> Session
    requires empty { lines.items ≡ [] }
    requires room { length script.now ≤ vec_capacity lines }
    requires few { length script.now ≤ 65536 }
    ensures transcript { IsTranscript image.now script.now result.transcript }
    ensures machine { result.machine ≡ (after image.now (events_made script.now result.transcript) fresh).machine }
{
    let mut machine = Machine::reset();
    let mut number = 0u32;
    for place in 0..script.len() {
        number += 1;
        match answer(image, &mut machine, script.at(place)) {
            Ok(line) => lines.push(line).unwrap(),
            Err(stop) => {
                let lines = Lines::from_vec(lines);
                return Session {
                    machine,
                    transcript: Transcript {
                        lines,
                        ended: stop.at(number),
                    },
                };
            }
        }
    }
    let lines = Lines::from_vec(lines);
    Session {
        machine,
        transcript: Transcript {
            lines,
            ended: Ended::Done,
        },
    }
}

/// Runs a script from power-up. All memory is taken before the first instruction.
pub fn play_script(alloc: Global, image: &Image, script: &Script) -> Result<Session, OutOfMemory>
    requires { length script.now ≤ 65536 }
    ensures transcript { IfOk result (λ session. IsTranscript image.now script.now session.transcript) }
    ensures machine { IfOk result (λ session.
        session.machine ≡ (after image.now (events_made script.now session.transcript) fresh).machine) }
{
    let lines = Vec::with_capacity(alloc, script.len())?;
    Ok(play(lines, image, script))
}

/// The transcript of a script that runs from power-up. All memory is taken before the first instruction.
pub fn run_script(alloc: Global, image: &Image, script: &Script) -> Result<Transcript, OutOfMemory>
    requires { length script.now ≤ 65536 }
    ensures { IfOk result (IsTranscript image.now script.now) }
{
    let session = play_script(alloc, image, script)?;
    Ok(session.transcript)
}
