//! Numbers in hexadecimal, written at the end of a line.
ghost use Rattle.std.specs.Prelude.{◌≡◌, ◌<◌, ◌≤◌, ◌+◌, ◌^◌, ◌++◌, ◌∷◌, [], length};
ghost use Rattle.wb_dis.specs.Digits.{hex_digit, hex3, hex4, hex6};

use crate::lines::TextLine;

/// A digit in capitals.
fn hex_digit(value: u32) -> &'static str
    requires { value < 16 }
    ensures { result.now ≡ hex_digit value ∷ [] }
{
    match value {
        0 => "0",
        1 => "1",
        2 => "2",
        3 => "3",
        4 => "4",
        5 => "5",
        6 => "6",
        7 => "7",
        8 => "8",
        9 => "9",
        10 => "A",
        11 => "B",
        12 => "C",
        13 => "D",
        14 => "E",
        15 => "F",
        _ => unreachable!(),
    }
}

/// Appends an address, in three digits.
pub(crate) fn put_hex3(line: &mut TextLine, value: u32)
    requires { length line.old.bytes + 3 ≤ 64 }
    ensures { line.new.bytes ≡ line.old.bytes ++ hex3 value }
{
    line.push_str(hex_digit(value >> 8 & 0xF));
    line.push_str(hex_digit(value >> 4 & 0xF));
    line.push_str(hex_digit(value & 0xF));
}

/// Appends a data word, in four digits.
pub(crate) fn put_hex4(line: &mut TextLine, value: u32)
    requires { length line.old.bytes + 4 ≤ 64 }
    ensures { line.new.bytes ≡ line.old.bytes ++ hex4 value }
{
    line.push_str(hex_digit(value >> 12 & 0xF));
    put_hex3(line, value);
}

/// Appends a program word, in six digits.
pub(crate) fn put_hex6(line: &mut TextLine, value: u32)
    requires { length line.old.bytes + 6 ≤ 64 }
    ensures { line.new.bytes ≡ line.old.bytes ++ hex6 value }
{
    line.push_str(hex_digit(value >> 20 & 0xF));
    line.push_str(hex_digit(value >> 16 & 0xF));
    put_hex4(line, value);
}
