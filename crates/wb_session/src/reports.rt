//! The text of a transcript.
ghost use Rattle.std.specs.Prelude.{◌≡◌, ◌≤◌, ◌+◌, ◌*◌, ◌∷◌, [], ◌++◌, IfOk, length, vec_len, vec_capacity};
ghost use Rattle.arrayvec.specs.ArrayString.{array_string_len};
ghost use Rattle.wb_session.specs.Texts.{with_feed, transcript_bytes};

use crate::texts::LineText;
use crate::transcripts::Transcript;
use std::alloc::Global;
use wb_word::OutOfMemory;

/// The most bytes that a line takes with its line feed: those of `WAIT 65535`.
pub const LINE_BYTES: usize = 11;

/// The most bytes that the last line takes: those of `SILENT 4294967295`.
pub const END_BYTES: usize = 18;

/// Appends a line and its line feed to a text that has room for them.
fn push_line(text: &mut Vec<u8>, line: &LineText)
    requires { vec_len text.old + array_string_len line.now + 1 ≤ vec_capacity text.old }
    ensures items { text.new.items ≡ text.old.items ++ with_feed line.now.bytes }
    ensures room { vec_capacity text.old ≤ vec_capacity text.new }
    ensures len { vec_len text.new ≡ vec_len text.old + array_string_len line.now + 1 }
{
    text.extend_from_slice(line.as_str().as_bytes()).unwrap();
    text.push(b'\n').unwrap();
}

/// Appends the text of a transcript to a text that has room for it: a line for each answer, and one for how it
/// ended. Bytes stand as two hexadecimal digits in capitals, counts and item numbers in decimal. This takes no
/// memory, and can't be refused.
pub fn write_transcript(t: &Transcript, text: &mut Vec<u8>)
    requires { vec_len text.old + LINE_BYTES * length t.now.lines + END_BYTES ≤ vec_capacity text.old }
    ensures { text.new.items ≡ text.old.items ++ transcript_bytes t.now }
{
    for place in 0..t.lines.len() {
        push_line(text, &t.lines.at(place).text());
    }
    push_line(text, &t.ended.text());
}

/// The text of a transcript. All memory is taken before the first line is written.
pub fn transcript_text(alloc: Global, t: &Transcript) -> Result<Vec<u8>, OutOfMemory>
    ensures { IfOk result (λ text. text.items ≡ transcript_bytes t.now) }
{
    let lines = t.lines.len().checked_mul(LINE_BYTES).ok_or(OutOfMemory)?;
    let room = lines.checked_add(END_BYTES).ok_or(OutOfMemory)?;
    let mut text = Vec::with_capacity(alloc, room)?;
    write_transcript(t, &mut text);
    Ok(text)
}
