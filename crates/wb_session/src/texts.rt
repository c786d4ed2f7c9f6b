//! The text of one line of a transcript, which takes no memory.
ghost use Rattle.std.specs.Prelude.{◌≡◌, ◌+◌, ◌<◌, ◌≤◌, ◌∷◌, [], ◌++◌, codes, decimal, length};
ghost use Rattle.arrayvec.specs.ArrayString.{array_string_len};
ghost use Rattle.wb_session.specs.Texts.{hex_digit, hex_byte, line_text, ended_text};

use crate::transcripts::{Ended, Line};
use arrayvec::ArrayString;
use itoa::Buffer;

/// The text of a line without its line feed. The longest is `SILENT 4294967295`.
pub type LineText = ArrayString<17>;

/// A hexadecimal digit.
fn digit(value: u8) -> char
    requires { value < 16 }
    ensures value { result ≡ hex_digit value }
    ensures ascii { result < 128 }
{
    if value < 10 {
        char::from(b'0' + value)
    } else {
        char::from(b'A' - 10 + value)
    }
}

/// Appends a hexadecimal digit.
#[tactic(auto, using(std::proofs::lemmas::Str::encode_ascii))]
fn push_digit(text: &mut LineText, value: u8)
    requires digit { value < 16 }
    requires room { array_string_len text.old + 1 ≤ 17 }
    ensures { text.new.bytes ≡ text.old.bytes ++ hex_digit value ∷ [] }
{
    text.push(digit(value));
}

/// A word, and a number of at most 16 bits in decimal.
fn count_text(word: &str, count: u16) -> LineText
    requires { length word.now ≤ 12 }
    ensures bytes { result.bytes ≡ word.now ++ decimal count }
    ensures len { array_string_len result ≤ length word.now + 5 }
{
    let mut digits = Buffer::new();
    let mut text = LineText::new();
    text.push_str(word);
    text.push_str(digits.format(count));
    text
}

/// A word, and the number of an item in decimal.
fn number_text(word: &str, number: u32) -> LineText
    requires { length word.now ≤ 7 }
    ensures { result.bytes ≡ word.now ++ decimal number }
{
    let mut digits = Buffer::new();
    let mut text = LineText::new();
    text.push_str(word);
    text.push_str(digits.format(number));
    text
}

/// A word, and a byte in two hexadecimal digits.
fn byte_text(word: &str, byte: u8) -> LineText
    requires { length word.now ≤ 8 }
    ensures bytes { result.bytes ≡ word.now ++ hex_byte byte }
    ensures len { array_string_len result ≡ length word.now + 2 }
{
    let mut text = LineText::new();
    text.push_str(word);
    push_digit(&mut text, byte >> 4);
    push_digit(&mut text, byte & 0xF);
    text
}

impl Line {
    /// The text of the line.
    pub fn text(self) -> LineText
        ensures bytes { result.bytes ≡ line_text self }
        ensures len { array_string_len result ≤ 10 }
    {
        match self {
            Line::Waited(count) => count_text("WAIT ", count),
            Line::Stepped(count) => count_text("STEP ", count),
            Line::Status(byte) => byte_text("S ", byte),
            Line::Read(byte) => byte_text("R ", byte),
            Line::Wrote(byte) => byte_text("W ", byte),
        }
    }
}

/// The word of a run that answered every item.
fn done_text() -> LineText
    ensures { result.bytes ≡ codes "DONE" }
{
    let mut text = LineText::new();
    text.push_str("DONE");
    text
}

impl Ended {
    /// The text of the last line.
    pub fn text(self) -> LineText
        ensures { result.bytes ≡ ended_text self }
    {
        match self {
            Ended::Done => done_text(),
            Ended::Early(number) => number_text("EARLY ", number),
            Ended::Silent(number) => number_text("SILENT ", number),
        }
    }
}
