//! All moves of a list, and the text of what came of them.
ghost use Rattle.std.specs.Prelude.{◌≡◌, ◌≤◌, ◌+◌, ◌*◌, ◌∷◌, [], ◌++◌, IfOk, length, vec_len, vec_capacity};
ghost use Rattle.wb_trace.specs.Texts.{line_text, with_feed, lines_text, trace_bytes};
ghost use Rattle.wb_trace.specs.Trace.{traced, traced_lines};

use crate::answers::Line;
use crate::laws::traces_follow_their_moves;
use crate::moves::Moves;
use crate::traces::Trace;
use std::alloc::Global;
use wb_rom::Image;
use wb_word::OutOfMemory;

/// The most bytes that a move takes with its line feeds: those of the registers of both sides.
pub const MOVE_BYTES: usize = 56;

/// The bytes of the last line.
const END: &[u8] = b"DONE\n";

/// Appends a line and its line feed to a text that has room for them.
fn push_line(text: &mut Vec<u8>, line: &Line)
    requires { vec_len text.old + MOVE_BYTES ≤ vec_capacity text.old }
    ensures items { text.new.items ≡ text.old.items ++ with_feed (line_text line.now.mv line.now.moved) }
    ensures room { vec_capacity text.old ≤ vec_capacity text.new }
    ensures len { vec_len text.new ≤ vec_len text.old + MOVE_BYTES }
{
    let words = line.text();
    text.extend_from_slice(words.as_str().as_bytes()).unwrap();
    text.push(b'\n').unwrap();
}

/// Makes all moves of a list, and appends what came of each to a text that has room for it. This takes no memory.
pub fn report(trace: &mut Trace, a: &Image, b: &Image, moves: &Moves, text: &mut Vec<u8>)
    requires { vec_len text.old + MOVE_BYTES * length moves.now ≤ vec_capacity text.old }
    ensures trace { trace.new ≡ traced a.now b.now moves.now trace.old }
    ensures text { text.new.items ≡ text.old.items ++ lines_text (traced_lines a.now b.now moves.now trace.old) }
    ensures room { vec_capacity text.old ≤ vec_capacity text.new }
    ensures len { vec_len text.new ≤ vec_len text.old + MOVE_BYTES * length moves.now }
{
    for place in 0..moves.len() {
        let mv = moves.at(place);
        let moved = trace.apply(a, b, mv);
        push_line(text, &Line { mv, moved });
    }
}

/// Makes all moves of a list on two images from reset on, and gives the text of what came of them: a line for each
/// move, two where the registers are shown, and `DONE`. All memory is taken before the first move.
pub fn trace_text(
    alloc: Global,
    a: &Image,
    b: &Image,
    moves: &Moves,
    depth: usize,
) -> Result<Vec<u8>, OutOfMemory>
    requires some { 1 ≤ depth }
    requires few { depth ≤ 256 }
    requires moves { length moves.now ≤ 65536 }
    ensures { IfOk result (λ text. text.items ≡ trace_bytes a.now b.now depth moves.now) }
{
    let mut text = Vec::with_capacity(alloc, MOVE_BYTES * moves.len() + END.len())?;
    let mut trace = Trace::with_depth(alloc, depth)?;
    traces_follow_their_moves();
    report(&mut trace, a, b, moves, &mut text);
    text.extend_from_slice(END).unwrap();
    Ok(text)
}
