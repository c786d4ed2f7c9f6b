//! What the run of a dialogue says.
ghost use Rattle.std.specs.Prelude.{◌≤◌, Bool, IfOk};
ghost use Rattle.wb_report.specs.Said.{IsSaid};

use std::alloc::Global;
use wb_port::{Dialogue, Replies, Run, replay, runs_come_to_an_end};
use wb_rom::Image;
use wb_word::OutOfMemory;

/// The bytes that the run of a dialogue says until it ends, however it ends. A plain run and a held one say the same:
/// what the longest front of the dialogue says whose run is answered.
pub fn said_until_end(
    alloc: Global,
    image: &Image,
    talk: &Dialogue,
    pace: u16,
) -> Result<Replies, OutOfMemory>
    requires { 1 ≤ pace }
    ensures { IfOk result (λ said. (held : Bool) → IsSaid image.now pace held talk.now said) }
{
    runs_come_to_an_end();
    let mut front = Dialogue::new(alloc);
    front.set_start(talk.start());
    let mut said = Replies::new(alloc);
    for place in 0..talk.len() {
        front.push(talk.at(place))?;
        let Run::Answered(replies) = replay(alloc, image, &front, pace, false)? else {
            return Ok(said);
        };
        said = replies;
    }
    Ok(said)
}
