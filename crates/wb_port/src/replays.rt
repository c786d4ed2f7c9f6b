ghost use Rattle.std.specs.Prelude.{◌≡◌, ◌≤◌, [], IfOk, length, vec_capacity};
ghost use Rattle.wb_port.specs.Run.{EndsAs};

use crate::accesses::Access;
use crate::chips::Chip;
use crate::lists::Replies;
use crate::loops::is_poll;
use crate::port::requested;
use crate::runs::Run;
use crate::talks::Dialogue;
use std::alloc::Global;
use wb_rom::Image;
use wb_word::{Addr, OutOfMemory};

/// How a run ends, without the bytes that were said.
#[derive(Clone, Copy)]
pub(crate) enum End {
    Answered,
    Overrun,
    Breach(Addr),
}

/// What one turn of a run did.
#[derive(Clone, Copy)]
pub(crate) enum Turned {
    /// The next access was given.
    Gave(Access),
    /// An instruction was executed.
    Stepped,
    /// The run is at its end.
    Ended(End),
}

/// How far a run has come.
#[derive(Drop)]
pub(crate) struct Progress {
    pub(crate) chip: Chip,
    /// How many accesses were given.
    pub(crate) given: usize,
    /// The bytes that were said, with room for those that are to come.
    pub(crate) said: Vec<u8>,
}

impl Progress {
    ghost use Rattle.std.specs.Prelude.{◌≡◌, ◌+◌, ◌<◌, ◌≤◌, [], ◌++◌, length, vec_len, vec_capacity};
    ghost use Rattle.std.specs.Option.{option_to_list};
    ghost use Rattle.wb_port.specs.Port.{accessed, access_reply};
    ghost use Rattle.wb_port.specs.Run.{beginning, go, turn, is_waiting};
    ghost use Rattle.wb_port.specs.Talk.{Talk};
    ghost use Rattle.wb_port.specs.Replay.{moment_of, run_of, HasRoom, IsTurned};

    /// The beginning of a run, whose bytes find their room in `said`.
    pub(crate) fn begin(said: Vec<u8>, talk: &Dialogue) -> Progress
        requires empty { said.items ≡ [] }
        requires room { length talk.now.accesses ≤ vec_capacity said }
        ensures moment { moment_of talk.now result ≡ beginning talk.now }
        ensures room { HasRoom talk.now result }
    {
        Progress {
            chip: Chip::power(talk.start()),
            given: 0,
            said,
        }
    }

    /// One turn of a plain or a held run.
    pub(crate) fn turn(&mut self, image: &Image, talk: &Dialogue, pace: u16, held: bool) -> Turned
        requires paced { self.old.chip.monitor.count ≤ pace }
        requires room { HasRoom talk.now self.old }
        ensures turned { IsTurned result (turn image.now pace held (moment_of talk.now self.old))
            (moment_of talk.now self.old) (moment_of talk.now self.new) }
        ensures paced { self.new.chip.monitor.count ≤ pace }
        ensures room { HasRoom talk.now self.new }
    {
        if self.given < talk.len() {
            if requested(&self.chip.machine) {
                let access = talk.at(self.given);
                self.give(access);
                return Turned::Gave(access);
            }
            return self.go(image, pace);
        }
        if !held {
            return Turned::Ended(End::Answered);
        }
        if self.is_waiting(image) {
            return Turned::Ended(End::Answered);
        }
        self.go(image, pace)
    }

    /// An access is given, whose byte finds room.
    fn give(&mut self, access: Access)
        requires more { self.old.given < usize.MAX }
        requires room { vec_len self.old.said < vec_capacity self.old.said }
        ensures chip { self.new.chip
            ≡ record self.old.chip { machine = accessed access self.old.chip.machine } }
        ensures said { self.new.said.items
            ≡ self.old.said.items ++ option_to_list (access_reply access self.old.chip.machine) }
        ensures given { self.new.given ≡ self.old.given + 1 }
        ensures len { vec_len self.new.said ≤ vec_len self.old.said + 1 }
        ensures capacity { vec_capacity self.old.said ≤ vec_capacity self.new.said }
    {
        if let Some(byte) = self.chip.access(access) {
            self.said.push(byte).unwrap();
        }
        self.given += 1;
    }

    /// An instruction is executed, unless the pace is used up or the next word is a breach.
    fn go(&mut self, image: &Image, pace: u16) -> Turned
        requires { self.old.chip.monitor.count ≤ pace }
        ensures turned { (d : Talk) → IsTurned result (go image.now pace (moment_of d self.old))
            (moment_of d self.old) (moment_of d self.new) }
        ensures paced { self.new.chip.monitor.count ≤ pace }
        ensures room { (d : Talk) → HasRoom d self.old → HasRoom d self.new }
    {
        if self.chip.monitor.count == u64::from(pace) {
            return Turned::Ended(End::Overrun);
        }
        if self.chip.is_breach(image) {
            return Turned::Ended(End::Breach(self.chip.place()));
        }
        self.chip.step(image);
        Turned::Stepped
    }

    /// Whether the chip waits at a poll while its request stands.
    fn is_waiting(&self, image: &Image) -> bool
        ensures { result ≡ is_waiting image.now self.now.chip }
    {
        requested(&self.chip.machine) && is_poll(image, self.chip.place())
    }

    /// The end of the run, with the bytes that were said.
    pub(crate) fn end(self, end: End) -> Run
        ensures { result ≡ run_of end self.said.items }
    {
        let Progress {
            chip: _,
            given: _,
            said,
        } = self;
        match end {
            End::Answered => Run::Answered(Replies::from_vec(said)),
            End::Overrun => Run::Overrun,
            End::Breach(at) => Run::Breach(at),
        }
    }
}

/// The run of a dialogue on an image, plain or held, at a pace, begun from the dialogue's start.
///
/// A plain run ends when no access is left. A held run then goes on until the chip waits at a poll. All memory is
/// taken before the first instruction, so a run that has begun comes to its end.
pub fn replay(
    alloc: Global,
    image: &Image,
    talk: &Dialogue,
    pace: u16,
    held: bool,
) -> Result<Run, OutOfMemory>
    requires { 1 ≤ pace }
    ensures { IfOk result (EndsAs image.now pace held talk.now) }
{
    let said = Vec::with_capacity(alloc, talk.len())?;
    Ok(replay_into(said, image, talk, pace, held))
}

/// The run of a dialogue, as `replay` has it, whose replies find their room in `said`. It takes no memory.
pub fn replay_into(said: Vec<u8>, image: &Image, talk: &Dialogue, pace: u16, held: bool) -> Run
    requires empty { said.items ≡ [] }
    requires room { length talk.now.accesses ≤ vec_capacity said }
    requires pace { 1 ≤ pace }
    ensures { EndsAs image.now pace held talk.now result }
{
    let mut now = Progress::begin(said, talk);
    loop {
        let turned = now.turn(image, talk, pace, held);
        if let Turned::Ended(end) = turned {
            return now.end(end);
        }
    }
}
