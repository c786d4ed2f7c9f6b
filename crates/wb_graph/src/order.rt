//! Which variables of the diagrams stand for the bits of input bytes and of nodes.
ghost use Rattle.std.specs.Prelude.{◌≡◌, ◌<◌, ◌⊎◌, IfSome};
ghost use Rattle.wb_graph.specs.Worlds.{byte_by_byte, side_by_side, own_variable};

/// In which order diagrams ask for the bits of input bytes.
///
/// A diagram is small where it asks first for what steers the rest, and asks side by side for the bits that sums and
/// comparisons bring together.
#[derive(Clone, Copy, PartialEq, Eq, Debug)]
pub struct Order {
    /// For each place whether its byte is asked for alone, before all that are not.
    pub commands: [bool; 16],
}

impl Order {
    /// The variable of a bit of a byte.
    pub(crate) fn variable_of(&self, place: u8, bit: u8) -> u32
        requires place { place < 16 }
        requires bit { bit < 8 }
        ensures bit_of_byte { (result ≡ byte_by_byte place bit) ⊎ (result ≡ side_by_side place bit) }
        ensures small { result < 256 }
    {
        let place_of = u32::from(place);
        let turn = 7 - u32::from(bit);
        if self.commands[usize::from(place)] {
            8 * place_of + turn
        } else {
            128 + 16 * turn + place_of
        }
    }
}

/// The variable of a bit of a node, unless there are too many nodes.
pub(crate) fn own_variable(number: u32, bit: u8) -> Option<u32>
    requires { bit < 16 }
    ensures { IfSome result (λ variable. (variable ≡ own_variable number bit) × (variable < 4294967295)) }
{
    if number < 1 << 27 {
        Some(256 + 16 * number + u32::from(bit))
    } else {
        None
    }
}
