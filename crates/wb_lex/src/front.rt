//! What stands at the front of a rest of a text.
ghost use Rattle.std.specs.Prelude.{◌≡◌, ◌<◌, ◌≤◌, ◌==◌, ◌&&◌, true, length, slice_index};
ghost use Rattle.std.specs.List.{position_or_len};
ghost use Rattle.wb_lex.specs.Characters.{begins_word, is_blank, is_mark};
ghost use Rattle.wb_lex.specs.Pieces.{begins};
ghost use Rattle.wb_lex.specs.Scan.{IsFront};

use crate::TokenKind;
use crate::words::{begins_word, word_kind, word_length};

/// What stands at the front of a rest of a text.
#[derive(Clone, Copy)]
pub enum Front {
    /// So many bytes that are no token.
    Skipped(usize),
    /// A token of so many bytes, other than the end of a line.
    Token(TokenKind, usize),
    LineEnd,
    /// A number that is too large.
    Wide,
    /// A byte that may not stand here.
    Foreign,
}

// A byte that is a token by itself.
fn is_mark(byte: u8) -> bool
    ensures { result ≡ is_mark byte }
{
    matches!(
        byte,
        b':' | b',' | b'|' | b'+' | b'-' | b'*' | b'(' | b')' | b'$'
    )
}

// How many bytes stand before the end of the line.
fn line_length(bytes: &[u8]) -> usize
    ensures length { result ≡ position_or_len (λ byte. byte == 10) bytes.now }
    ensures within { result ≤ length bytes.now }
{
    for (place, byte) in bytes.iter().enumerate() {
        if *byte == b'\n' {
            return place;
        }
    }
    bytes.len()
}

// A space or a tab.
fn is_blank(byte: u8) -> bool
    ensures { result ≡ is_blank byte }
{
    byte == b' ' || byte == b'\t'
}

// A carriage return right before a line feed.
fn is_return(first: u8, after: &[u8]) -> bool
    ensures { result ≡ (first == 13 && begins (λ next. next == 10) after.now) }
{
    first == b'\r' && !after.is_empty() && after[0] == b'\n'
}

// A word stands at the front.
fn word_front(rest: &[u8]) -> Front
    requires some { 0 < length rest.now }
    requires word { begins_word (slice_index rest.now 0) ≡ true }
    ensures { IsFront rest.now result }
{
    let size = 1 + word_length(&rest[1..]);
    match word_kind(&rest[..size]) {
        Some(kind) => Front::Token(kind, size),
        None => Front::Wide,
    }
}

/// What stands at the front of a rest of a text that isn't empty.
pub fn front_of(rest: &[u8]) -> Front
    requires { 0 < length rest.now }
    ensures { IsFront rest.now result }
{
    let first = rest[0];
    let after = &rest[1..];
    if begins_word(first) {
        word_front(rest)
    } else if is_mark(first) {
        Front::Token(TokenKind::Mark(first), 1)
    } else if first == b'\n' {
        Front::LineEnd
    } else if first == b';' {
        Front::Skipped(1 + line_length(after))
    } else if is_blank(first) || is_return(first, after) {
        Front::Skipped(1)
    } else {
        Front::Foreign
    }
}
