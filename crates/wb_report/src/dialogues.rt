//! The lines of a dialogue.
ghost use Rattle.std.specs.Prelude.{◌≡◌, ◌+◌, ◌≤◌, ◌++◌, OnOk, codes, length, slice_get};
ghost use Rattle.arrayvec.specs.ArrayString.{array_string_len};
ghost use Rattle.wb_report.specs.Digits.{hex_byte, hex_word};
ghost use Rattle.wb_report.specs.Dialogues.{start_line, start_lines, reply_text, replies_text, access_line, asked, access_lines, dialogue_text};

use crate::digits::{LineText, line_of, push_byte, push_char, push_line, push_word};
use crate::heard::Heard;
use wb_port::{Access, Dialogue, Replies};
use wb_word::OutOfMemory;

/// `M aa hhhh`: a word of the start.
fn word_line(at: u8, word: u16) -> LineText
    ensures { result.bytes ≡ codes "M " ++ hex_byte at ++ codes " " ++ hex_word word }
{
    let mut line = line_of("M ");
    push_byte(&mut line, at);
    push_char(&mut line, ' ');
    push_word(&mut line, word);
    line
}

/// Appends the line of a word of the start, unless the word is 0.
fn push_start_word(text: &mut Vec<u8>, at: u8, word: u16) -> Result<(), OutOfMemory>
    ensures { OnOk result (text.new.items ≡ text.old.items ++ start_line at word) }
{
    if word == 0 {
        return Ok(());
    }
    push_line(text, &word_line(at, word))
}

/// Appends the lines of the start.
fn push_start(text: &mut Vec<u8>, talk: &Dialogue) -> Result<(), OutOfMemory>
    ensures { OnOk result (text.new.items ≡ text.old.items ++ start_lines 0 talk.now.start) }
{
    let start = talk.start();
    for at in 0..start.len() {
        push_start_word(text, at as u8, start[at])?;
    }
    Ok(())
}

/// Appends a reply after a space, where there is one.
fn push_reply(line: &mut LineText, replies: &Replies, before: usize)
    requires { array_string_len line.old + 3 ≤ 38 }
    ensures bytes { line.new.bytes ≡ line.old.bytes ++ reply_text (slice_get replies.now before) }
    ensures len { array_string_len line.new ≤ array_string_len line.old + 3 }
{
    if before < replies.len() {
        push_char(line, ' ');
        push_byte(line, replies.at(before));
    }
}

/// `R` or `S`, and the replies before which so many stand.
fn asking_line(word: &str, heard: &Heard, before: usize) -> LineText
    requires { length word.now ≤ 32 }
    ensures { result.bytes ≡ word.now ++ replies_text heard.now before }
{
    let mut line = line_of(word);
    match heard {
        Heard::One(said) => push_reply(&mut line, said, before),
        Heard::Both(first, second) => {
            push_reply(&mut line, first, before);
            push_reply(&mut line, second, before);
        }
    }
    line
}

/// `W hh`: a write.
fn write_line(byte: u8) -> LineText
    ensures { result.bytes ≡ codes "W " ++ hex_byte byte }
{
    let mut line = line_of("W ");
    push_byte(&mut line, byte);
    line
}

/// The line of an access, before which so many replies stand.
fn access_line(heard: &Heard, before: usize, access: Access) -> LineText
    ensures { result.bytes ≡ access_line heard.now before access }
{
    match access {
        Access::Status => asking_line("S", heard, before),
        Access::Read => asking_line("R", heard, before),
        Access::Write(byte) => write_line(byte),
    }
}

/// For how many bytes an access asks.
fn asked(access: Access) -> usize
    ensures value { result ≡ asked access }
    ensures one { result ≤ 1 }
{
    match access {
        Access::Status | Access::Read => 1,
        Access::Write(_) => 0,
    }
}

/// Appends the lines of the accesses.
fn push_accesses(text: &mut Vec<u8>, talk: &Dialogue, heard: &Heard) -> Result<(), OutOfMemory>
    ensures { OnOk result (text.new.items ≡ text.old.items ++ access_lines heard.now 0 talk.now.accesses) }
{
    let mut before = 0usize;
    for place in 0..talk.len() {
        let access = talk.at(place);
        push_line(text, &access_line(heard, before, access))?;
        before += asked(access);
    }
    Ok(())
}

/// Appends the text of a dialogue, with the replies that were heard.
pub fn push_dialogue(text: &mut Vec<u8>, talk: &Dialogue, heard: &Heard) -> Result<(), OutOfMemory>
    ensures { OnOk result (text.new.items ≡ text.old.items ++ dialogue_text heard.now talk.now) }
{
    push_start(text, talk)?;
    push_accesses(text, talk, heard)
}
