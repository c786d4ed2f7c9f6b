//! A line of a text, and the letters and digits at its end.
ghost use Rattle.std.specs.Prelude.{◌≡◌, ◌+◌, ◌<◌, ◌≤◌, [], ◌∷◌, ◌++◌, OnOk, codes, decimal, length};
ghost use Rattle.arrayvec.specs.ArrayString.{array_string_len};
ghost use Rattle.wb_report.specs.Digits.{hex_digit, hex_byte, hex_address, hex_word, letter, with_feed};

use arrayvec::ArrayString;
use itoa::Buffer;
use wb_word::{OutOfMemory, Side};

/// A line without its line feed. The longest is `UNKNOWN CONFLICTS 18446744073709551615`.
pub type LineText = ArrayString<38>;

/// The line that begins with a word.
pub fn line_of(word: &str) -> LineText
    requires { length word.now ≤ 38 }
    ensures bytes { result.bytes ≡ word.now }
    ensures len { array_string_len result ≡ length word.now }
{
    let mut line = LineText::new();
    line.push_str(word);
    line
}

/// The letter of a side.
pub fn letter(side: Side) -> char
    ensures value { result ≡ letter side }
    ensures ascii { result < 128 }
{
    match side {
        Side::A => 'A',
        Side::B => 'B',
    }
}

/// Appends an ASCII character.
#[tactic(auto, using(std::proofs::lemmas::Str::encode_ascii))]
pub fn push_char(line: &mut LineText, c: char)
    requires ascii { c < 128 }
    requires room { array_string_len line.old + 1 ≤ 38 }
    ensures bytes { line.new.bytes ≡ line.old.bytes ++ c ∷ [] }
    ensures len { array_string_len line.new ≡ array_string_len line.old + 1 }
{
    line.push(c);
}

/// A hexadecimal digit.
fn digit(value: u8) -> char
    requires { value < 16 }
    ensures value { result ≡ hex_digit value }
    ensures ascii { result < 128 }
{
    if value < 10 {
        char::from(b'0' + value)
    } else {
        char::from(b'A' - 10 + value)
    }
}

/// Appends a byte in two digits.
pub fn push_byte(line: &mut LineText, byte: u8)
    requires { array_string_len line.old + 2 ≤ 38 }
    ensures bytes { line.new.bytes ≡ line.old.bytes ++ hex_byte byte }
    ensures len { array_string_len line.new ≡ array_string_len line.old + 2 }
{
    push_char(line, digit(byte >> 4));
    push_char(line, digit(byte & 0xF));
}

/// Appends an address in three digits.
pub fn push_address(line: &mut LineText, at: u16)
    requires { array_string_len line.old + 3 ≤ 38 }
    ensures bytes { line.new.bytes ≡ line.old.bytes ++ hex_address at }
    ensures len { array_string_len line.new ≡ array_string_len line.old + 3 }
{
    push_char(line, digit((at >> 8 & 0xF) as u8));
    push_byte(line, (at & 0xFF) as u8);
}

/// Appends a word in four digits.
pub fn push_word(line: &mut LineText, word: u16)
    requires { array_string_len line.old + 4 ≤ 38 }
    ensures bytes { line.new.bytes ≡ line.old.bytes ++ hex_word word }
    ensures len { array_string_len line.new ≡ array_string_len line.old + 4 }
{
    push_byte(line, (word >> 8) as u8);
    push_byte(line, (word & 0xFF) as u8);
}

/// Appends a small number in decimal.
pub fn push_small(line: &mut LineText, number: u16)
    requires { array_string_len line.old + 5 ≤ 38 }
    ensures bytes { line.new.bytes ≡ line.old.bytes ++ decimal number }
    ensures len { array_string_len line.new ≤ array_string_len line.old + 5 }
{
    let mut digits = Buffer::new();
    line.push_str(digits.format(number));
}

/// Appends a number in decimal.
pub fn push_number(line: &mut LineText, number: u64)
    requires { array_string_len line.old + 20 ≤ 38 }
    ensures { line.new.bytes ≡ line.old.bytes ++ decimal number }
{
    let mut digits = Buffer::new();
    line.push_str(digits.format(number));
}

/// Appends a line and its line feed to a text.
pub fn push_line(text: &mut Vec<u8>, line: &LineText) -> Result<(), OutOfMemory>
    ensures { OnOk result (text.new.items ≡ text.old.items ++ with_feed line.now.bytes) }
{
    text.extend_from_slice(line.as_str().as_bytes())?;
    text.push(b'\n')?;
    Ok(())
}
