//! What a held chip does next, and its rank, by its point.
ghost use Rattle.std.specs.Prelude.{◌≡◌, ◌<◌};
ghost use Rattle.wb_law.specs.Classes.{class_at, rank_at, PointsTellWhatComes};

use wb_port::{Point, is_poll, to_gate, touches};
use wb_rom::Image;
use wb_word::Addr;

/// What a held chip does next.
#[derive(Clone, Copy, PartialEq, Eq, Debug)]
pub enum Class {
    /// It waits at a poll while its request stands.
    Rests,
    /// Its pace is used up.
    Overruns,
    /// Its next instruction is a breach.
    Breaches,
    /// It executes its next instruction.
    GoesOn,
}

/// What a held chip at the point does next.
#[tactic(auto, unfolding(crate::specs::Classes::class_at))]
pub fn class_at(image: &Image, pace: u16, point: &Point) -> Class
    requires { point.now.pc < 2048 }
    ensures { result ≡ class_at image.now pace point.now }
{
    let at = Addr { value: point.pc };
    let poll = is_poll(image, at);
    if point.rqm && poll {
        Class::Rests
    } else if point.count == pace {
        Class::Overruns
    } else if point.asked && touches(image.word_at(at)) && !poll {
        Class::Breaches
    } else {
        Class::GoesOn
    }
}

/// The rank of a point: along the strides of a held chip it rises with each instruction.
#[tactic(auto, unfolding(wb_port::specs::Rank::lingers))]
pub fn rank_at(image: &Image, pace: u16, point: &Point) -> u32
    requires { point.now.pc < 2048 }
    ensures { result ≡ rank_at image.now pace point.now }
{
    let at = Addr { value: point.pc };
    let lingers = if point.asked && !point.rqm && is_poll(image, at) {
        to_gate(image, at)
    } else {
        0
    };
    let before = if point.rqm { u32::from(pace) + 1 } else { 0 };
    (before + u32::from(point.count)) * 8 + u32::from(7 - lingers)
}

/// The point of a chip tells what the chip does next where it is held.
pub fn points_tell_what_comes()
    ensures { PointsTellWhatComes }
{}
