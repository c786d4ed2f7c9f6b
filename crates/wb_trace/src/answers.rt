//! What comes of a move, and its text.
ghost use Rattle.std.specs.Prelude.{◌≡◌, ◌<◌, ◌≤◌, [], ◌∷◌, ◌++◌, codes, length};
ghost use Rattle.wb_trace.specs.Texts.{hex_byte, hex_address, letter, read_letter, shown, line_text};

use crate::digits::{LineText, letter, push_address, push_byte, push_char, push_shown};
use crate::moves::Move;
use std::fmt;
use wb_machine::Regs;
use wb_word::{Addr, Side};

/// What comes of a move.
#[derive(Clone, Copy, PartialEq, Eq, Debug)]
pub enum Moved {
    /// This side executed the instruction at this address.
    Stepped(Side, Addr),
    /// The bytes of A and B that were read.
    Bytes(u8, u8),
    /// This byte was written on both sides.
    Wrote(u8),
    /// The last step or transfer was taken back.
    Undone,
    /// There was nothing to take back.
    Nothing,
    /// A transfer found no request on this side, and was made on neither.
    Busy(Side),
    /// The registers of A and B.
    Shown(Regs, Regs),
}

/// A move, and what came of it.
#[derive(Clone, Copy)]
pub struct Line {
    pub mv: Move,
    pub moved: Moved,
}

/// `A aaa`: a side and an address.
fn step_text(side: Side, at: u16) -> LineText
    ensures { result.bytes ≡ (letter side ∷ []) ++ codes " " ++ hex_address at }
{
    let mut text = LineText::new();
    push_char(&mut text, letter(side));
    push_char(&mut text, ' ');
    push_address(&mut text, at);
    text
}

/// The letter of a read of two bytes.
fn read_letter(mv: Move) -> char
    ensures value { result ≡ read_letter mv }
    ensures ascii { result < 128 }
{
    match mv {
        Move::Status => 'S',
        _ => 'R',
    }
}

/// `S xx yy` or `R xx yy`: the bytes of both sides.
fn bytes_text(letter: char, first: u8, second: u8) -> LineText
    requires { letter < 128 }
    ensures { result.bytes ≡ (letter ∷ []) ++ codes " " ++ hex_byte first ++ codes " " ++ hex_byte second }
{
    let mut text = LineText::new();
    push_char(&mut text, letter);
    push_char(&mut text, ' ');
    push_byte(&mut text, first);
    push_char(&mut text, ' ');
    push_byte(&mut text, second);
    text
}

/// `W hh`: the byte for both sides.
fn write_text(byte: u8) -> LineText
    ensures { result.bytes ≡ codes "W " ++ hex_byte byte }
{
    let mut text = LineText::new();
    text.push_str("W ");
    push_byte(&mut text, byte);
    text
}

/// `U` or `NOTHING`.
fn word_text(word: &str) -> LineText
    requires { length word.now ≤ 55 }
    ensures { result.bytes ≡ word.now }
{
    let mut text = LineText::new();
    text.push_str(word);
    text
}

/// `BUSY A` or `BUSY B`.
fn busy_text(side: Side) -> LineText
    ensures { result.bytes ≡ codes "BUSY " ++ (letter side ∷ []) }
{
    let mut text = LineText::new();
    text.push_str("BUSY ");
    push_char(&mut text, letter(side));
    text
}

/// The registers of both sides, in two lines.
fn shown_text(first: &Regs, second: &Regs) -> LineText
    ensures { result.bytes ≡ shown Side.A first.now ++ (10 ∷ []) ++ shown Side.B second.now }
{
    let mut text = LineText::new();
    push_shown(&mut text, Side::A, first);
    push_char(&mut text, '\n');
    push_shown(&mut text, Side::B, second);
    text
}

impl Line {
    /// The text of the line without its last line feed, which takes no memory.
    pub fn text(&self) -> LineText
        ensures { result.bytes ≡ line_text self.now.mv self.now.moved }
    {
        match self.moved {
            Moved::Stepped(side, at) => step_text(side, at.value()),
            Moved::Bytes(first, second) => bytes_text(read_letter(self.mv), first, second),
            Moved::Wrote(byte) => write_text(byte),
            Moved::Undone => word_text("U"),
            Moved::Nothing => word_text("NOTHING"),
            Moved::Busy(side) => busy_text(side),
            Moved::Shown(first, second) => shown_text(&first, &second),
        }
    }
}

impl fmt::Display for Line {
    ghost use Rattle.std.specs.Prelude.{Some};
    ghost use Rattle.wb_trace.specs.Texts.{line_text};

    ghost output = { λ line. Some (line_text line.mv line.moved) };

    fn fmt<W: fmt::Write>(&self, f: &mut fmt::Formatter<W>) -> fmt::Result {
        let text = self.text();
        write!(f, "{text}")
    }
}
