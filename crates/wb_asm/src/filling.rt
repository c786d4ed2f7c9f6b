//! The fourth reading of a source: its words are put into the image.
ghost use Rattle.std.specs.Prelude.{◌≡◌, ◌<◌, ◌≤◌, ◌+◌, None, Some, MatchResult, length, map, slice_set};
ghost use Rattle.wb_asm.specs.Filling.{IsFilled, HasProg, HasDrom};
ghost use Rattle.wb_asm.specs.Layout.{program_words, data_words};
ghost use Rattle.wb_asm.specs.Words.{Plain, content_fault, content_word, data_fault, data_word, first_of, values_fault, with_words_at};

use crate::counters::Counters;
use crate::faults::AsmKind;
use crate::names::Names;
use crate::words::{data_word, jump_word, load_word, plain_word};
use wb_rom::Image;
use wb_syntax::{Body, Expr};
use wb_word::{Instr, Word, encode};

/// Puts one program word.
fn put(image: &mut Image, at: u16, word: Word)
    requires { at < 2048 }
    ensures { HasProg image.old image.new (slice_set image.old.prog at word.value) }
{
    image.prog.set(usize::from(at), word.value);
}

/// Puts the values of expressions as program words.
fn put_program(
    image: &mut Image,
    text: &[u8],
    names: &Names<'_>,
    at: u16,
    xs: &[Expr],
) -> Result<(), AsmKind>
    requires { at + length xs.now ≤ 2048 }
    ensures { MatchResult result
        (λ _. (first_of (map (content_fault text.now names.now at) (map Plain xs.now)) ≡ None)
        × HasProg image.old image.new (with_words_at image.old.prog at (map (content_word text.now names.now at) (map Plain xs.now))))
        (λ kind. first_of (map (content_fault text.now names.now at) (map Plain xs.now)) ≡ Some kind) }
{
    let mut place = at;
    for x in xs {
        put(image, place, plain_word(text, names, at, x)?);
        place += 1;
    }
    Ok(())
}

/// Puts the values of expressions as data words.
fn put_data(
    image: &mut Image,
    text: &[u8],
    names: &Names<'_>,
    at: u16,
    xs: &[Expr],
) -> Result<(), AsmKind>
    requires { at + length xs.now ≤ 1024 }
    ensures { MatchResult result
        (λ _. (first_of (map (data_fault text.now names.now at) xs.now) ≡ None)
        × HasDrom image.old image.new (with_words_at image.old.drom at (map (data_word text.now names.now at) xs.now)))
        (λ kind. first_of (map (data_fault text.now names.now at) xs.now) ≡ Some kind) }
{
    let mut place = at;
    for x in xs {
        let word = data_word(text, names, at, x)?;
        image.drom.set(usize::from(place), u32::from(word));
        place += 1;
    }
    Ok(())
}

/// Puts the words of a statement.
#[tactic(auto, unfolding(crate::specs::Words::values_fault, crate::specs::Words::prog_with, crate::specs::Words::drom_with))]
pub(crate) fn fill(
    image: &mut Image,
    text: &[u8],
    names: &Names<'_>,
    at: Counters,
    body: &Body,
) -> Result<(), AsmKind>
    requires prog { at.prog + program_words body.now ≤ 2048 }
    requires drom { at.drom + data_words body.now ≤ 1024 }
    ensures { MatchResult result
        (λ _. (values_fault text.now names.now at body.now ≡ None) × IsFilled text.now names.now image.old image.new at body.now)
        (λ kind. values_fault text.now names.now at body.now ≡ Some kind) }
{
    match body {
        Body::Op(word) => put(image, at.prog, encode(&Instr::Op(*word))),
        Body::Rt(word) => put(image, at.prog, encode(&Instr::Rt(*word))),
        Body::Ld(dst, x) => put(image, at.prog, load_word(text, names, at.prog, *dst, x)?),
        Body::Jump(cond, x) => put(image, at.prog, jump_word(text, names, at.prog, *cond, x)?),
        Body::Words(xs) => return put_program(image, text, names, at.prog, xs.as_slice()),
        Body::Dwords(xs) => put_data(image, text, names, at.drom, xs.as_slice())?,
        Body::Empty | Body::Org(_) | Body::Dorg(_) | Body::Equ(_, _) => {}
    }
    Ok(())
}
