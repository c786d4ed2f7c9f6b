//! The dialogues that are tried, one by one.
use super::cases::{Bytes, Case};
use std::alloc::Global;
use std::test::Fail;
use wb_port::{Access, Dialogue, Kind};
use wb_rom::Image;

/// A program of these words.
pub(crate) fn image_of(alloc: Global, words: &[u32]) -> Result<Image, Fail> {
    let mut bytes = Vec::new(alloc);
    for word in words {
        bytes.extend_from_slice(&word.to_le_bytes()[..3])?;
    }
    bytes.resize(8192, 0)?;
    Ok(Image::from_bytes(alloc, &bytes)?)
}

/// The dialogue of these accesses, from a RAM that has this in each word.
fn dialogue(alloc: Global, cell: u16, accesses: &[Access]) -> Result<Dialogue, Fail> {
    let mut dialogue = Dialogue::from_vec(Vec::from_slice(alloc, accesses)?);
    dialogue.set_start(&[cell; 256]);
    Ok(dialogue)
}

/// Writes of these bytes.
fn writes_of(alloc: Global, bytes: &[u8]) -> Result<Vec<Access>, Fail> {
    let mut writes = Vec::new(alloc);
    for byte in bytes {
        writes.push(Access::Write(*byte))?;
    }
    Ok(writes)
}

/// Writes of each byte.
fn all_writes(alloc: Global) -> Result<Vec<Access>, Fail> {
    let mut writes = Vec::new(alloc);
    for byte in 0..=255 {
        writes.push(Access::Write(byte))?;
    }
    Ok(writes)
}

/// The writes that are tried.
fn tried_writes(alloc: Global, bytes: Bytes) -> Result<Vec<Access>, Fail> {
    match bytes {
        Bytes::Every => all_writes(alloc),
        Bytes::These(bytes) => writes_of(alloc, bytes),
    }
}

/// Adds the dialogues that go on from these accesses by these kinds.
fn add_longer(
    alloc: Global,
    cell: u16,
    writes: &[Access],
    front: &[Access],
    kinds: &[Kind],
    found: &mut Vec<Dialogue>,
) -> Result<(), Fail> {
    let [kind, rest @ ..] = kinds else {
        found.push(dialogue(alloc, cell, front)?)?;
        return Ok(());
    };
    let next = match kind {
        Kind::Read => &[Access::Read],
        Kind::Write => writes,
    };
    for access in next {
        let mut longer = Vec::from_slice(alloc, front)?;
        longer.push(*access)?;
        add_longer(alloc, cell, writes, longer.as_slice(), rest, found)?;
    }
    Ok(())
}

/// Adds the dialogues of exactly these kinds.
fn add_dialogues(
    alloc: Global,
    case: &Case,
    kinds: &[Kind],
    found: &mut Vec<Dialogue>,
) -> Result<(), Fail> {
    let writes = tried_writes(alloc, case.bytes)?;
    for cell in case.cells {
        add_longer(alloc, *cell, writes.as_slice(), &[], kinds, found)?;
    }
    Ok(())
}

/// The dialogues of these kinds and of their first ones.
pub(super) fn dialogues(alloc: Global, case: &Case, kinds: &[Kind]) -> Result<Vec<Dialogue>, Fail> {
    let mut found = Vec::new(alloc);
    for length in 0..=kinds.len() {
        add_dialogues(alloc, case, &kinds[..length], &mut found)?;
    }
    Ok(found)
}
