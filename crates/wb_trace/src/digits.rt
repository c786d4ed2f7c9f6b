//! Letters and hexadecimal digits at the end of a text.
ghost use Rattle.std.specs.Prelude.{◌≡◌, ◌+◌, ◌<◌, ◌≤◌, [], ◌∷◌, ◌++◌, codes};
ghost use Rattle.arrayvec.specs.ArrayString.{array_string_len};
ghost use Rattle.wb_trace.specs.Texts.{hex_digit, hex_byte, hex_address, hex_word, letter, shown};

use arrayvec::ArrayString;
use wb_machine::Regs;
use wb_word::Side;

/// The text of a line without its last line feed. The longest shows the registers: two lines of 27 bytes.
pub type LineText = ArrayString<55>;

/// The letter of a side.
pub fn letter(side: Side) -> char
    ensures value { result ≡ letter side }
    ensures ascii { result < 128 }
{
    match side {
        Side::A => 'A',
        Side::B => 'B',
    }
}

/// Appends an ASCII character.
#[tactic(auto, using(std::proofs::lemmas::Str::encode_ascii))]
pub fn push_char(text: &mut LineText, c: char)
    requires ascii { c < 128 }
    requires room { array_string_len text.old + 1 ≤ 55 }
    ensures { text.new.bytes ≡ text.old.bytes ++ c ∷ [] }
{
    text.push(c);
}

/// A hexadecimal digit.
fn digit(value: u8) -> char
    requires { value < 16 }
    ensures value { result ≡ hex_digit value }
    ensures ascii { result < 128 }
{
    if value < 10 {
        char::from(b'0' + value)
    } else {
        char::from(b'A' - 10 + value)
    }
}

/// Appends a byte in two digits.
pub fn push_byte(text: &mut LineText, byte: u8)
    requires { array_string_len text.old + 2 ≤ 55 }
    ensures { text.new.bytes ≡ text.old.bytes ++ hex_byte byte }
{
    push_char(text, digit(byte >> 4));
    push_char(text, digit(byte & 0xF));
}

/// Appends an address in three digits.
pub fn push_address(text: &mut LineText, at: u16)
    requires { array_string_len text.old + 3 ≤ 55 }
    ensures { text.new.bytes ≡ text.old.bytes ++ hex_address at }
{
    push_char(text, digit((at >> 8 & 0xF) as u8));
    push_byte(text, (at & 0xFF) as u8);
}

/// Appends a space, and a word in four digits.
fn push_word(text: &mut LineText, word: u16)
    requires { array_string_len text.old + 5 ≤ 55 }
    ensures { text.new.bytes ≡ text.old.bytes ++ codes " " ++ hex_word word }
{
    push_char(text, ' ');
    push_byte(text, (word >> 8) as u8);
    push_byte(text, (word & 0xFF) as u8);
}

/// Appends the program counter, DR, SR and the accumulators of a side.
pub fn push_shown(text: &mut LineText, side: Side, regs: &Regs)
    requires { array_string_len text.old + 27 ≤ 55 }
    ensures { text.new.bytes ≡ text.old.bytes ++ shown side regs.now }
{
    text.push_str("P ");
    push_char(text, letter(side));
    push_char(text, ' ');
    push_address(text, regs.pc);
    push_word(text, regs.dr);
    push_word(text, regs.sr);
    push_word(text, regs.a);
    push_word(text, regs.b);
}
