//! The files of a plan are read whole, in their order.
ghost use Rattle.std.specs.Prelude.{◌≡◌, ◌≤◌, ℕ, List, [], ◌∷◌};
ghost use Rattle.std.specs.Result.{result_map_both};
ghost use Rattle.wb_cli.specs.Files.{limit_of, ReadsOneTo, ReadsTo};
ghost use Rattle.wb_cli.specs.Planned.{named};

use crate::refusals::{Refusal, Stop};
use std::alloc::Global;
use wb_base::{ReadFault, Shelf, read_whole};

/// What a file must hold.
#[derive(Clone, Copy)]
pub enum Kind {
    Image,
    Script,
    Source,
    Moves,
}

impl Kind {
    /// The most bytes that such a file may have.
    pub fn limit(self) -> usize
        ensures { result ≡ limit_of self }
    {
        match self {
            Kind::Image | Kind::Script | Kind::Source | Kind::Moves => 1_048_576,
        }
    }
}

/// A file word of a plan: the name of a file, and what the file must hold.
#[derive(Clone, Copy)]
pub struct FileWord<'a> {
    pub name: &'a str,
    pub kind: Kind,
}

/// Reads the file at this place.
fn read_file<S: Shelf>(
    alloc: Global,
    shelf: &mut S,
    place: u8,
    file: &FileWord<'_>,
) -> Result<Vec<u8>, Stop>
    ensures kept { (n : List ℕ) → S.content shelf.new n ≡ S.content shelf.old n }
    ensures later { S.faults shelf.old ≤ S.faults shelf.new }
    ensures read { ReadsOneTo (S.content shelf.old) (S.faults shelf.old) (S.faults shelf.new) place (named file.now) result }
{
    match read_whole(alloc, shelf, file.name, file.kind.limit()) {
        Ok(bytes) => Ok(bytes),
        Err(ReadFault::Failed) => Err(Stop::Refused(Refusal::ReadFault(place))),
        Err(ReadFault::TooLong) => Err(Stop::Refused(Refusal::TooLong(place))),
        Err(ReadFault::OutOfMemory) => Err(Stop::OutOfMemory),
    }
}

/// Reads the one file of a plan.
pub fn read_one<S: Shelf>(
    alloc: Global,
    shelf: &mut S,
    file: &FileWord<'_>,
) -> Result<Vec<u8>, Stop>
    ensures kept { (n : List ℕ) → S.content shelf.new n ≡ S.content shelf.old n }
    ensures later { S.faults shelf.old ≤ S.faults shelf.new }
    ensures read { ReadsTo (S.content shelf.old) (S.faults shelf.old) (S.faults shelf.new) (named file.now ∷ [])
        (result_map_both (λ bytes. bytes.items ∷ []) (λ stop. stop) result) }
{
    read_file(alloc, shelf, 0, file)
}

/// Reads the two files of a plan.
pub fn read_two<S: Shelf>(
    alloc: Global,
    shelf: &mut S,
    first: &FileWord<'_>,
    second: &FileWord<'_>,
) -> Result<(Vec<u8>, Vec<u8>), Stop>
    ensures kept { (n : List ℕ) → S.content shelf.new n ≡ S.content shelf.old n }
    ensures later { S.faults shelf.old ≤ S.faults shelf.new }
    ensures read { ReadsTo (S.content shelf.old) (S.faults shelf.old) (S.faults shelf.new) (named first.now ∷ named second.now ∷ [])
        (result_map_both (λ both. both.0.items ∷ both.1.items ∷ []) (λ stop. stop) result) }
{
    let first_bytes = read_file(alloc, shelf, 0, first)?;
    let second_bytes = read_file(alloc, shelf, 1, second)?;
    Ok((first_bytes, second_bytes))
}

/// Reads the three files of a plan.
pub fn read_three<S: Shelf>(
    alloc: Global,
    shelf: &mut S,
    first: &FileWord<'_>,
    second: &FileWord<'_>,
    third: &FileWord<'_>,
) -> Result<(Vec<u8>, Vec<u8>, Vec<u8>), Stop>
    ensures kept { (n : List ℕ) → S.content shelf.new n ≡ S.content shelf.old n }
    ensures later { S.faults shelf.old ≤ S.faults shelf.new }
    ensures read { ReadsTo (S.content shelf.old) (S.faults shelf.old) (S.faults shelf.new)
        (named first.now ∷ named second.now ∷ named third.now ∷ [])
        (result_map_both (λ all. all.0.items ∷ all.1.items ∷ all.2.items ∷ []) (λ stop. stop) result) }
{
    let first_bytes = read_file(alloc, shelf, 0, first)?;
    let second_bytes = read_file(alloc, shelf, 1, second)?;
    let third_bytes = read_file(alloc, shelf, 2, third)?;
    Ok((first_bytes, second_bytes, third_bytes))
}
