//! What a word is: a name, a number, or neither.
ghost use Rattle.std.specs.Prelude.{◌≡◌, ◌^◌, ◌≤◌, ◌&&◌, None, Some, if◌then◌else◌, length, min, option_map};
ghost use Rattle.std.specs.Char.{digit_value, is_digit};
ghost use Rattle.std.specs.List.{prefix_len};
ghost use Rattle.wb_lex.specs.Characters.{begins_word, is_word_character};
ghost use Rattle.wb_lex.specs.Pieces.{begins};
ghost use Rattle.wb_lex.specs.Tokens.{numeral, number_of, word_kind};
ghost use Rattle.wb_lex.specs.Scan.{narrow};

use crate::TokenKind;

// The least number that is too large for a token.
const WIDE: u64 = 1 << 32;

// A letter, a digit or `_`.
pub fn is_word_character(byte: u8) -> bool
    ensures { result ≡ is_word_character byte }
{
    byte.is_ascii_alphanumeric() || byte == b'_'
}

// What a word may begin with.
pub fn begins_word(byte: u8) -> bool
    ensures { result ≡ begins_word byte }
{
    is_word_character(byte) || byte == b'.'
}

// How many bytes at the front go on with a word.
pub fn word_length(bytes: &[u8]) -> usize
    ensures length { result ≡ prefix_len is_word_character bytes.now }
    ensures within { result ≤ length bytes.now }
{
    for (place, byte) in bytes.iter().enumerate() {
        if !is_word_character(*byte) {
            return place;
        }
    }
    bytes.len()
}

fn digit(byte: u8, base: u32) -> Option<u64>
    requires least { 2 ≤ base }
    requires most { base ≤ 16 }
    ensures { result ≡ (if is_digit byte base then Some (digit_value byte) else None) }
{
    match char::from(byte).to_digit(base) {
        Some(digit) => Some(u64::from(digit)),
        None => None,
    }
}

// The number that digits of a base write, or `WIDE` where it is larger.
fn numeral(base: u32, digits: &[u8]) -> Option<u64>
    requires least { 2 ≤ base }
    requires most { base ≤ 16 }
    ensures { result ≡ option_map (λ number. min number (2 ^ 32)) (numeral base digits.now) }
{
    if digits.is_empty() {
        return None;
    }
    let mut value: u64 = 0;
    for byte in digits {
        value = value * u64::from(base) + digit(*byte, base)?;
        value = value.min(WIDE);
    }
    Some(value)
}

// The number that a word writes, or `WIDE` where it is larger.
fn number_of(word: &[u8]) -> Option<u64>
    ensures { result ≡ option_map (λ number. min number (2 ^ 32)) (number_of word.now) }
{
    if word.starts_with(b"0x".as_slice()) {
        numeral(16, &word[2..])
    } else {
        numeral(10, word)
    }
}

fn begins_with_digit(word: &[u8]) -> bool
    ensures { result ≡ begins (λ byte. is_digit byte 10) word.now }
{
    match word {
        [first, ..] => first.is_ascii_digit(),
        _ => false,
    }
}

// The kind of a token that is this word, or `None` where it is a number that is too large.
pub fn word_kind(word: &[u8]) -> Option<TokenKind>
    ensures { result ≡ narrow (word_kind word.now) }
{
    if !begins_with_digit(word) {
        return Some(TokenKind::Name);
    }
    match number_of(word) {
        Some(number) if number < WIDE => Some(TokenKind::Number(number as u32)),
        Some(_) => None,
        None => Some(TokenKind::Bad),
    }
}
