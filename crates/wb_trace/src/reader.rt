//! Reads a moves file.
ghost use Rattle.std.specs.Prelude.{◌≡◌, ◌<◌, ◌≤◌, [], ◌∷◌, IfOk, IfErr, OnOk, MatchOption, length, min, vec_capacity, if◌then◌else◌, Some, None};
ghost use Rattle.std.specs.Char.{is_digit, digit_value};
ghost use Rattle.std.specs.List.{position};
ghost use Rattle.wb_trace.specs.Moves.{is_feed, lines, byte_of, write_of, move_of, AreMovesOf, IsBad, IsFirstBad, IsFaultOf};

use crate::moves::{Move, Moves};
use std::alloc::{AllocError, Global};

/// The most lines that a moves file has.
const MOST_LINES: usize = 65536;

/// Why a text gave no moves.
#[derive(Clone, Copy, PartialEq, Eq, Debug)]
pub enum MovesFault {
    /// The first line that is no move, or the first past the most that there may be, counted from 1.
    BadLine(u32),
    /// Memory was refused.
    OutOfMemory,
}

impl From<AllocError> for MovesFault {
    ghost use Rattle.std.specs.Prelude.{◌≡◌};
    ghost use Rattle.wb_trace.specs.declared.reader.MovesFault.{MovesFault};

    ghost from_gives = { λ _ fault. fault ≡ MovesFault.OutOfMemory };

    fn from(_: AllocError) -> Self {
        MovesFault::OutOfMemory
    }
}

fn digit(byte: u8) -> Option<u32>
    ensures { result ≡ (if is_digit byte 16 then Some (digit_value byte) else None) }
{
    char::from(byte).to_digit(16)
}

/// The byte that two hexadecimal digits write.
fn byte_of(high: u8, low: u8) -> Option<u8>
    ensures { result ≡ byte_of high low }
{
    let value = digit(high)? * 16 + digit(low)?;
    Some(value as u8)
}

/// The move of a line `W hh`.
fn write_of(line: &[u8]) -> Option<Move>
    ensures { result ≡ write_of line.now }
{
    match line {
        [b'W', b' ', high, low] => Some(Move::Write(byte_of(*high, *low)?)),
        _ => None,
    }
}

/// The move of a line, given without its line feed; `None` where no moves file has such a line.
#[tactic(auto, unfolding(crate::specs::Moves::move_of))]
fn move_of(line: &[u8]) -> Option<Move>
    ensures { result ≡ move_of line.now }
{
    if line == b"A".as_slice() {
        Some(Move::StepA)
    } else if line == b"B".as_slice() {
        Some(Move::StepB)
    } else if line == b"S".as_slice() {
        Some(Move::Status)
    } else if line == b"R".as_slice() {
        Some(Move::Read)
    } else if line == b"U".as_slice() {
        Some(Move::Undo)
    } else if line == b"P".as_slice() {
        Some(Move::Show)
    } else {
        write_of(line)
    }
}

/// Where the first line feed stands.
fn feed_in(text: &[u8]) -> Option<usize>
    ensures { result ≡ position is_feed text.now }
{
    text.iter().position(|byte| *byte == b'\n')
}

/// The first line of a text, and what follows its line feed.
fn split_line(text: &[u8]) -> (&[u8], &[u8])
    requires { 0 < length text.now }
    ensures first { lines text.now ≡ result.0.now ∷ lines result.1.now }
    ensures shorter { length result.1.now < length text.now }
{
    match feed_in(text) {
        Some(end) => (&text[..end], &text[end + 1..]),
        None => (text, &[]),
    }
}

/// The move of a line, where so many moves stand before it and there may be one more.
fn next_move(line: &[u8], count: usize) -> Option<Move>
    ensures { MatchOption result (IsBad (move_of line.now) count) (λ mv. (move_of line.now ≡ Some mv) × (count < MOST_LINES)) }
{
    if count < MOST_LINES {
        move_of(line)
    } else {
        None
    }
}

/// Reads the lines of a text into moves that find their room taken, or tells the first bad line.
fn read_into(moves: &mut Vec<Move>, text: &[u8]) -> Result<(), u32>
    requires empty { moves.old.items ≡ [] }
    requires room { min (length text.now) MOST_LINES ≤ vec_capacity moves.old }
    ensures ok { OnOk result (AreMovesOf text.now moves.new.items) }
    ensures err { IfErr result (IsFirstBad text.now) }
{
    let mut rest = text;
    while !rest.is_empty() {
        let (line, after) = split_line(rest);
        let count = moves.len();
        match next_move(line, count) {
            Some(mv) => moves.push(mv).unwrap(),
            None => return Err(count as u32 + 1),
        }
        rest = after;
    }
    Ok(())
}

/// Reads a moves file: its moves, or the first line that is bad. The memory for all lines is taken first.
pub fn read_moves(alloc: Global, text: &[u8]) -> Result<Moves, MovesFault>
    ensures moves { IfOk result (AreMovesOf text.now) }
    ensures fault { IfErr result (IsFaultOf text.now) }
{
    let mut moves = Vec::with_capacity(alloc, text.len().min(MOST_LINES))?;
    match read_into(&mut moves, text) {
        Ok(()) => Ok(Moves::from_vec(moves)),
        Err(line) => Err(MovesFault::BadLine(line)),
    }
}
