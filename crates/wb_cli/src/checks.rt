//! The contents of files are checked: each is what its file must hold, or is refused.
ghost use Rattle.std.specs.Prelude.{◌≤◌, length};
ghost use Rattle.std.specs.Result.{result_map_both};
ghost use Rattle.wb_cli.specs.Checks.{AnImage, AScript, SomeMoves, ChecksTo};

use crate::files::Kind;
use crate::refusals::{Refusal, Stop};
use std::alloc::Global;
use wb_asm::{AsmError, assemble};
use wb_rom::{Image, ImageFault};
use wb_script::{Script, ScriptFault, read_script};
use wb_trace::{Moves, MovesFault, read_moves};

/// The image in the file at this place.
pub fn checked_image(alloc: Global, place: u8, bytes: &[u8]) -> Result<Image, Stop>
    ensures { ChecksTo Kind.Image place bytes.now (result_map_both AnImage (λ stop. stop) result) }
{
    match Image::from_bytes(alloc, bytes) {
        Ok(image) => Ok(image),
        Err(ImageFault::BadLength(found)) => Err(Stop::Refused(Refusal::ImageLength(place, found))),
        Err(ImageFault::OutOfMemory) => Err(Stop::OutOfMemory),
    }
}

/// The script in the file at this place.
pub fn checked_script(alloc: Global, place: u8, text: &[u8]) -> Result<Script, Stop>
    requires { length text.now ≤ 1048576 }
    ensures { ChecksTo Kind.Script place text.now (result_map_both AScript (λ stop. stop) result) }
{
    match read_script(alloc, text) {
        Ok(script) => Ok(script),
        Err(ScriptFault::BadLine(line)) => Err(Stop::Refused(Refusal::ScriptLine(line))),
        Err(ScriptFault::OutOfMemory) => Err(Stop::OutOfMemory),
    }
}

/// The image of the source in the file at this place.
pub fn checked_source(alloc: Global, place: u8, text: &[u8]) -> Result<Image, Stop>
    requires { length text.now ≤ 1048576 }
    ensures { ChecksTo Kind.Source place text.now (result_map_both AnImage (λ stop. stop) result) }
{
    match assemble(alloc, text) {
        Ok(image) => Ok(image),
        Err(AsmError::Fault(fault)) => Err(Stop::Refused(Refusal::SourceFault(fault))),
        Err(AsmError::OutOfMemory) => Err(Stop::OutOfMemory),
    }
}

/// The moves in the file at this place.
pub fn checked_moves(alloc: Global, place: u8, text: &[u8]) -> Result<Moves, Stop>
    ensures { ChecksTo Kind.Moves place text.now (result_map_both SomeMoves (λ stop. stop) result) }
{
    match read_moves(alloc, text) {
        Ok(moves) => Ok(moves),
        Err(MovesFault::BadLine(line)) => Err(Stop::Refused(Refusal::MovesLine(line))),
        Err(MovesFault::OutOfMemory) => Err(Stop::OutOfMemory),
    }
}
