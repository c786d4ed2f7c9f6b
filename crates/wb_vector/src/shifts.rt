//! Words that are shifted by a count, and their bits: the diagrams move, and none is made.
ghost use Rattle.std.specs.Prelude.{◌≡◌, ◌*◌, ◌/◌, ◌%◌, ◌^◌, ◌<◌, ◌==◌, ℕ};
ghost use Rattle.std.specs.Int.{bit_at};
ghost use Rattle.wb_diagram.specs.Values.{IsFunction};
ghost use Rattle.wb_vector.specs.Vectors.{number, AreThere, IsNumber};

use crate::bitwise::Vector;
use wb_diagram::{Diagram, Diagrams};

/// The word shifted to the left, filled with zeros.
pub fn shifted_left(diagrams: &Diagrams, x: &Vector, count: usize) -> Vector
    requires count { count < 16 }
    requires there { AreThere diagrams.now x.now }
    ensures { IsNumber diagrams.now result (λ v. number v diagrams.now x.now * 2 ^ count % 65536) }
{
    let mut done = [diagrams.leaf(false); 16];
    for at in 0..16 {
        done[at] = from_below(diagrams, x, at, count);
    }
    done
}

/// The diagram that comes to a place from so many places below.
fn from_below(diagrams: &Diagrams, x: &Vector, at: usize, count: usize) -> Diagram
    requires at_in { at < 16 }
    requires there { AreThere diagrams.now x.now }
    ensures { IsFunction diagrams.now result (λ v. bit_at (number v diagrams.now x.now * 2 ^ count % 65536) at == 1) }
{
    if at < count {
        diagrams.leaf(false)
    } else {
        x[at - count]
    }
}

/// The word shifted to the right, filled with zeros.
pub fn shifted_right(diagrams: &Diagrams, x: &Vector, count: usize) -> Vector
    requires count { count < 16 }
    requires there { AreThere diagrams.now x.now }
    ensures { IsNumber diagrams.now result (λ v. number v diagrams.now x.now / 2 ^ count) }
{
    let mut done = [diagrams.leaf(false); 16];
    for at in 0..16 {
        done[at] = from_above(diagrams, x, at, count);
    }
    done
}

/// The diagram that comes to a place from so many places above.
fn from_above(diagrams: &Diagrams, x: &Vector, at: usize, count: usize) -> Diagram
    requires at_in { at < 16 }
    requires count_in { count < 16 }
    requires there { AreThere diagrams.now x.now }
    ensures { IsFunction diagrams.now result (λ v. bit_at (number v diagrams.now x.now / 2 ^ count) at == 1) }
{
    if at + count < 16 {
        x[at + count]
    } else {
        diagrams.leaf(false)
    }
}

/// One bit of a word.
pub fn picked(diagrams: &Diagrams, x: &Vector, at: usize) -> Diagram
    requires at_in { at < 16 }
    requires there { AreThere diagrams.now x.now }
    ensures { IsFunction diagrams.now result (λ v. number v diagrams.now x.now / 2 ^ at % 2 == 1) }
{
    x[at]
}
