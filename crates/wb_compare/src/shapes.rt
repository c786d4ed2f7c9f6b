//! Which transfers a shape allows next.
ghost use Rattle.std.specs.Prelude.{◌≡◌, Some};
ghost use Rattle.wb_compare.specs.Growing.{allows, allows_next};

use wb_port::{Kind, Letter, Shape};

/// Whether a letter allows a transfer of this kind.
fn allows(letter: Letter, kind: Kind) -> bool
    ensures { result ≡ allows (Some letter) kind }
{
    match (letter, kind) {
        (Letter::X, _) | (Letter::R, Kind::Read) | (Letter::W, Kind::Write) => true,
        (Letter::R, Kind::Write) | (Letter::W, Kind::Read) => false,
    }
}

/// Whether the shape allows a transfer of this kind after transfers of these kinds.
pub(crate) fn allows_next(shape: &Shape, kinds: &[Kind], kind: Kind) -> bool
    ensures { result ≡ allows_next shape.now kinds.now kind }
{
    if kinds.len() < shape.len() {
        allows(shape.letter_at(kinds.len()), kind)
    } else {
        false
    }
}
