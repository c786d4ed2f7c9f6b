ghost use Rattle.std.specs.Prelude.{◌<◌};

use crate::nodes::{Choice, Diagram};

/// A choice whose diagram is known.
#[derive(Clone, Copy, Debug)]
pub struct Entry {
    pub(crate) choice: Choice,
    pub(crate) result: Diagram,
}

/// The one place of a choice in a memo of so many.
pub fn slot(choice: &Choice, places: usize) -> usize
    requires { 0 < places }
    ensures { result < places }
{
    let mixed = choice
        .test
        .number
        .wrapping_mul(0x9E37_79B1)
        .wrapping_add(choice.yes.number.wrapping_mul(0x85EB_CA77))
        .wrapping_add(choice.no.number.wrapping_mul(0xC2B2_AE3D));
    (mixed ^ mixed >> 15) as usize % places
}
