//! The listing of an image.
ghost use Rattle.std.specs.Prelude.{◌≡◌, ◌<◌, ◌≤◌, ◌+◌, ◌*◌, ◌^◌, ◌++◌, [], length, IfOk, vec_len, vec_capacity};
ghost use Rattle.wb_dis.specs.Listing.{program_line, data_line, lines_from, listing};

use crate::digits::{put_hex3, put_hex4, put_hex6};
use crate::lines::{TextLine, line_of};
use std::alloc::Global;
use wb_rom::Image;
use wb_word::{Addr, OutOfMemory, Word};

/// The most bytes that the line of a program word takes, with its line feed.
const PROGRAM_LINE_BYTES: usize = 64;

/// The bytes that the line of a data word takes, with its line feed.
const DATA_LINE_BYTES: usize = 18;

/// The most bytes that a listing takes.
const LISTING_BYTES: usize = 2048 * PROGRAM_LINE_BYTES + 1024 * DATA_LINE_BYTES;

/// The line of a program word, with its line feed.
#[tactic(auto, unfolding(crate::specs::Listing::program_line))]
fn program_line(at: Addr, word: Word) -> TextLine
    ensures text { result.bytes ≡ program_line at.value word.value }
    ensures short { length result.bytes ≤ 64 }
{
    let mut line = line_of(word);
    line.push_str("  ; ");
    put_hex3(&mut line, u32::from(at.value));
    line.push_str(" ");
    put_hex6(&mut line, word.value);
    line.push_str("\n");
    line
}

/// The line of a data word, with its line feed.
#[tactic(auto, unfolding(crate::specs::Listing::data_line))]
fn data_line(at: u16, word: u16) -> TextLine
    ensures text { result.bytes ≡ data_line at word }
    ensures short { length result.bytes ≤ 18 }
{
    let mut line = TextLine::new();
    line.push_str(".dw 0x");
    put_hex4(&mut line, u32::from(word));
    line.push_str("  ; ");
    put_hex3(&mut line, u32::from(at));
    line.push_str("\n");
    line
}

/// Appends a line, whose room is taken.
fn put(text: &mut Vec<u8>, line: &TextLine)
    requires { vec_len text.old + length line.now.bytes ≤ vec_capacity text.old }
    ensures text { text.new.items ≡ text.old.items ++ line.now.bytes }
    ensures length { vec_len text.new ≡ vec_len text.old + length line.now.bytes }
    ensures room { vec_capacity text.old ≤ vec_capacity text.new }
{
    text.extend_from_slice(line.as_str().as_bytes()).unwrap();
}

/// Appends the lines of the program words, whose room is taken.
fn put_program(text: &mut Vec<u8>, image: &Image)
    requires { vec_len text.old + 2048 * 64 ≤ vec_capacity text.old }
    ensures text { text.new.items ≡ text.old.items ++ lines_from program_line 0 image.now.prog }
    ensures length { vec_len text.new ≤ vec_len text.old + 2048 * 64 }
    ensures room { vec_capacity text.old ≤ vec_capacity text.new }
{
    for value in 0..2048 {
        let at = Addr { value };
        put(text, &program_line(at, image.word_at(at)));
    }
}

/// Appends the lines of the data words, whose room is taken.
fn put_data(text: &mut Vec<u8>, image: &Image)
    requires { vec_len text.old + 1024 * 18 ≤ vec_capacity text.old }
    ensures { text.new.items ≡ text.old.items ++ lines_from data_line 0 image.now.drom }
{
    for at in 0..1024 {
        put(text, &data_line(at, image.drom_at(at)));
    }
}

/// The listing of an image, as text: 3072 lines, each of which the assembler reads back to the word that it shows.
#[tactic(auto, unfolding(crate::specs::Listing::listing))]
pub fn disassemble(alloc: Global, image: &Image) -> Result<Vec<u8>, OutOfMemory>
    ensures { IfOk result (λ text. text.items ≡ listing image.now) }
{
    let mut text = Vec::with_capacity(alloc, LISTING_BYTES)?;
    put_program(&mut text, image);
    put_data(&mut text, image);
    Ok(text)
}
