//! A content is read whole.
ghost use Rattle.std.specs.Prelude.{◌≡◌, ◌≢◌, ◌+◌, ◌≤◌, ℕ, List, [], Err, vec_capacity};
ghost use Rattle.wb_base.specs.Shelf.{IsReading};

use crate::{ReadFault, Shelf};
use std::alloc::Global;

// How many bytes are asked for in one read.
const PIECE_LENGTH: usize = 4096;

/// Reads the content under a name from its front to its end. It stops as soon as it has more than
/// `limit` bytes, so that a content without an end is `TooLong`. It reads in pieces of 4096 bytes, and
/// takes all its memory, which is room for `limit` bytes and a piece, before the first read.
pub fn read_whole<S: Shelf>(
    alloc: Global,
    shelf: &mut S,
    name: &str,
    limit: usize,
) -> Result<Vec<u8>, ReadFault>
    requires { limit ≤ 67108864 }
    ensures kept { (n : List ℕ) → S.content shelf.new n ≡ S.content shelf.old n }
    ensures later { S.faults shelf.old ≤ S.faults shelf.new }
    ensures unread { result ≡ Err ReadFault.OutOfMemory → shelf.new ≡ shelf.old }
    ensures read { IsReading limit (S.content shelf.old name.now) (S.faults shelf.old) (S.faults shelf.new) result }
{
    let room = Vec::with_capacity(alloc, limit + PIECE_LENGTH)?;
    read_into(room, shelf, name, limit)
}

// The same, into room that was taken.
fn read_into<S: Shelf>(
    mut bytes: Vec<u8>,
    shelf: &mut S,
    name: &str,
    limit: usize,
) -> Result<Vec<u8>, ReadFault>
    requires limit { limit ≤ 67108864 }
    requires empty { bytes.items ≡ [] }
    requires room { limit + 4096 ≤ vec_capacity bytes }
    ensures kept { (n : List ℕ) → S.content shelf.new n ≡ S.content shelf.old n }
    ensures later { S.faults shelf.old ≤ S.faults shelf.new }
    ensures unrefused { result ≢ Err ReadFault.OutOfMemory }
    ensures read { IsReading limit (S.content shelf.old name.now) (S.faults shelf.old) (S.faults shelf.new) result }
{
    'reading: while bytes.len() <= limit {
        let mut chunk = [0u8; PIECE_LENGTH];
        let count = shelf.read_at(name, bytes.len() as u64, &mut chunk)?;
        if count == 0 {
            return Ok(bytes);
        }
        bytes.extend_from_slice(&chunk[..count]).unwrap();
    }
    Err(ReadFault::TooLong)
}
