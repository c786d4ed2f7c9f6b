ghost use Rattle.std.specs.Prelude.{◌≡◌, ◌<◌, ◌≤◌, ◌∷◌, ◌++◌, [], IfOk, OnOk, length};
ghost use Rattle.wb_port.specs.Talk.{dialogue};
ghost use Rattle.wb_point.specs.Dialogues.{access_under, accesses_under, start_under, dialogue_under, transfer_bytes, inputs_of, normalised};

use std::alloc::Global;
use wb_port::{Access, Dialogue, Kind, Kinds, Power};
use wb_symstep::OutOfMemory;
use wb_term::Inputs;

/// The dialogue of these kinds under inputs: each write has the byte of its place, and the start is that of the
/// inputs where any is allowed.
pub fn dialogue_of(
    alloc: Global,
    kinds: &Kinds,
    inputs: &Inputs,
    power: Power,
) -> Result<Dialogue, OutOfMemory>
    requires few { length kinds.now ≤ 16 }
    ensures { IfOk result (λ d. d ≡ dialogue_under kinds.now inputs.now power) }
{
    let mut dialogue = started(alloc, inputs, power)?;
    for (place, kind) in kinds.list().iter().enumerate() {
        dialogue.push(access_of(*kind, inputs, place as u8))?;
    }
    Ok(dialogue)
}

/// The dialogue before its first access.
fn started(alloc: Global, inputs: &Inputs, power: Power) -> Result<Dialogue, OutOfMemory>
    ensures { IfOk result (λ d. d ≡ dialogue (start_under inputs.now power) []) }
{
    let mut dialogue = Dialogue::new(alloc);
    match power {
        Power::Zero => Ok(dialogue),
        Power::Any => {
            let cells = cells_of(alloc, inputs)?;
            dialogue.set_start(&cells);
            Ok(dialogue)
        }
    }
}

/// The words of the RAM's start.
fn cells_of(alloc: Global, inputs: &Inputs) -> Result<Vec<u16>, OutOfMemory>
    ensures words { IfOk result (λ cells. cells.items ≡ inputs.now.cells) }
    ensures len { IfOk result (λ cells. length cells.items ≡ 256) }
{
    let _first = inputs.cell(0);
    let mut cells = Vec::with_capacity(alloc, 256)?;
    for place in 0..256u16 {
        cells.push(inputs.cell(place as u8))?;
    }
    Ok(cells)
}

/// The transfer of this kind at a place.
fn access_of(kind: Kind, inputs: &Inputs, place: u8) -> Access
    requires { place < 16 }
    ensures { result ≡ access_under inputs.now place kind }
{
    match kind {
        Kind::Read => Access::Read,
        Kind::Write => Access::Write(inputs.byte(place)),
    }
}

/// The inputs of a dialogue: at each place the byte that the transfer at this place writes, 0 at all others, and
/// its start.
pub fn inputs_of(alloc: Global, dialogue: &Dialogue) -> Result<Inputs, OutOfMemory>
    ensures { IfOk result (λ inputs. inputs ≡ inputs_of dialogue.now) }
{
    let mut bytes = Vec::with_capacity(alloc, dialogue.len())?;
    for access in dialogue.list() {
        note(&mut bytes, *access)?;
    }
    bytes.extend_from_slice(&[0; 16])?;
    Inputs::new(alloc, &bytes[..16], dialogue.start())
}

/// Notes the byte that an access writes, or 0 where it reads.
fn note(bytes: &mut Vec<u8>, access: Access) -> Result<(), OutOfMemory>
    ensures { OnOk result (bytes.new.items ≡ bytes.old.items ++ transfer_bytes (access ∷ [])) }
{
    match access {
        Access::Status => Ok(()),
        Access::Read => {
            bytes.push(0)?;
            Ok(())
        }
        Access::Write(byte) => {
            bytes.push(byte)?;
            Ok(())
        }
    }
}

/// The inputs of the dialogue of these kinds under inputs: what the dialogue doesn't use is 0.
pub fn normalise(
    alloc: Global,
    inputs: &Inputs,
    kinds: &Kinds,
    power: Power,
) -> Result<Inputs, OutOfMemory>
    requires few { length kinds.now ≤ 16 }
    ensures { IfOk result (λ found. found ≡ normalised kinds.now power inputs.now) }
{
    let dialogue = dialogue_of(alloc, kinds, inputs, power)?;
    inputs_of(alloc, &dialogue)
}
