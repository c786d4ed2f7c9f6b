//! The text of each verdict.
ghost use Rattle.std.specs.Prelude.{◌≡◌, ◌≤◌, ◌++◌, ℕ, List, IfOk, OnOk, codes, decimal, length};
ghost use Rattle.wb_port.specs.Points.{image_of};
ghost use Rattle.wb_report.specs.Digits.{with_feed};
ghost use Rattle.wb_report.specs.Verdicts.{Adds, Begins, IsHeldText, IsDifferenceText, heading, overrun_line, breach_line, IsVerdictText};

use crate::dialogues::push_dialogue;
use crate::digits::{
    LineText, letter, line_of, push_address, push_char, push_line, push_number, push_small,
};
use crate::heard::Heard;
use crate::saying::said_until_end;
use std::alloc::Global;
use wb_compare::{Pace, Question, Spent, Verdict};
use wb_port::Dialogue;
use wb_rom::Image;
use wb_word::{OutOfMemory, Side};

/// Appends a held dialogue with the replies of its held run on an image.
fn push_held(
    alloc: Global,
    text: &mut Vec<u8>,
    image: &Image,
    talk: &Dialogue,
    pace: u16,
) -> Result<(), OutOfMemory>
    requires { 1 ≤ pace }
    ensures { OnOk result (Adds (IsHeldText image.now pace talk.now) text.old.items text.new.items) }
{
    let said = said_until_end(alloc, image, talk, pace)?;
    push_dialogue(text, talk, &Heard::One(said))?;
    push_line(text, &line_of("HOLD"))
}

/// Appends a dialogue with the replies of its runs on both images.
fn push_difference(
    alloc: Global,
    text: &mut Vec<u8>,
    a: &Image,
    b: &Image,
    talk: &Dialogue,
    pace: u16,
) -> Result<(), OutOfMemory>
    requires { 1 ≤ pace }
    ensures { OnOk result (Adds (IsDifferenceText a.now b.now pace talk.now) text.old.items text.new.items) }
{
    let first = said_until_end(alloc, a, talk, pace)?;
    let second = said_until_end(alloc, b, talk, pace)?;
    push_dialogue(text, talk, &Heard::Both(first, second))?;
    Ok(())
}

/// The image of a side.
fn image_of<'a>(a: &'a Image, b: &'a Image, side: Side) -> &'a Image
    ensures { result.now ≡ image_of a.now b.now side }
{
    match side {
        Side::A => a,
        Side::B => b,
    }
}

/// A word, the most transfers and the pace.
fn heading(word: &str, question: &Question) -> LineText
    requires { length word.now ≤ 10 }
    ensures { result.bytes ≡ heading word.now question.now }
{
    let mut line = line_of(word);
    push_small(&mut line, u16::from(question.n));
    push_char(&mut line, ' ');
    push_small(&mut line, question.k);
    line
}

fn overrun_line(side: Side) -> LineText
    ensures { result.bytes ≡ overrun_line side }
{
    let mut line = line_of("OVERRUN ");
    push_char(&mut line, letter(side));
    line
}

fn breach_line(side: Side, at: u16) -> LineText
    ensures { result.bytes ≡ breach_line side at }
{
    let mut line = line_of("BREACH ");
    push_char(&mut line, letter(side));
    push_char(&mut line, ' ');
    push_address(&mut line, at);
    line
}

/// A word and a number.
fn unknown_line(word: &str, number: u64) -> LineText
    requires { length word.now ≤ 18 }
    ensures { result.bytes ≡ word.now ++ decimal number }
{
    let mut line = line_of(word);
    push_number(&mut line, number);
    line
}

/// A text of one line.
fn single_text(alloc: Global, line: &LineText) -> Result<Vec<u8>, OutOfMemory>
    ensures { IfOk result (λ text. text.items ≡ with_feed line.now.bytes) }
{
    let mut text = Vec::new(alloc);
    push_line(&mut text, line)?;
    Ok(text)
}

fn kept_text(alloc: Global, question: &Question) -> Result<Vec<u8>, OutOfMemory>
    ensures { IfOk result (λ text. text.items ≡ with_feed (heading (codes "EQUAL ") question.now) ++ with_feed (codes "PACE KEPT")) }
{
    let mut text = single_text(alloc, &heading("EQUAL ", question))?;
    push_line(&mut text, &line_of("PACE KEPT"))?;
    Ok(text)
}

fn overrun_text(
    alloc: Global,
    image: &Image,
    question: &Question,
    side: Side,
    talk: &Dialogue,
) -> Result<Vec<u8>, OutOfMemory>
    requires { 1 ≤ question.now.k }
    ensures { IfOk result (λ text. Begins (heading (codes "EQUAL ") question.now)
        (Begins (overrun_line side) (IsHeldText image.now question.now.k talk.now)) text.items) }
{
    let mut text = single_text(alloc, &heading("EQUAL ", question))?;
    push_line(&mut text, &overrun_line(side))?;
    push_held(alloc, &mut text, image, talk, question.k)?;
    Ok(text)
}

fn difference_text(
    alloc: Global,
    a: &Image,
    b: &Image,
    question: &Question,
    talk: &Dialogue,
) -> Result<Vec<u8>, OutOfMemory>
    requires { 1 ≤ question.now.k }
    ensures { IfOk result (λ text. Begins (heading (codes "DIFFERENT ") question.now)
        (IsDifferenceText a.now b.now question.now.k talk.now) text.items) }
{
    let mut text = single_text(alloc, &heading("DIFFERENT ", question))?;
    push_difference(alloc, &mut text, a, b, talk, question.k)?;
    Ok(text)
}

fn breach_text(
    alloc: Global,
    image: &Image,
    side: Side,
    talk: &Dialogue,
    at: u16,
    pace: u16,
) -> Result<Vec<u8>, OutOfMemory>
    requires { 1 ≤ pace }
    ensures { IfOk result (λ text. Begins (breach_line side at) (IsHeldText image.now pace talk.now) text.items) }
{
    let mut text = single_text(alloc, &breach_line(side, at))?;
    push_held(alloc, &mut text, image, talk, pace)?;
    Ok(text)
}

/// The text of a verdict on two images: the verdict, and the dialogue that shows it with the replies of its runs.
pub fn verdict_text(
    alloc: Global,
    a: &Image,
    b: &Image,
    question: &Question,
    verdict: &Verdict,
) -> Result<Vec<u8>, OutOfMemory>
    requires { 1 ≤ question.now.k }
    ensures { IfOk result (λ text. IsVerdictText a.now b.now question.now verdict.now text.items) }
{
    match verdict {
        Verdict::Equal(Pace::Kept) => kept_text(alloc, question),
        Verdict::Equal(Pace::Overrun(side, talk)) => {
            overrun_text(alloc, image_of(a, b, *side), question, *side, talk)
        }
        Verdict::Different(talk) => difference_text(alloc, a, b, question, talk),
        Verdict::Breach(side, talk, at) => breach_text(
            alloc,
            image_of(a, b, *side),
            *side,
            talk,
            at.value(),
            question.k,
        ),
        Verdict::Unknown(Spent::Points(_)) => single_text(
            alloc,
            &unknown_line("UNKNOWN POINTS ", u64::from(question.budget.points)),
        ),
        Verdict::Unknown(Spent::Conflicts(_, _)) => single_text(
            alloc,
            &unknown_line("UNKNOWN CONFLICTS ", question.budget.conflicts),
        ),
    }
}
