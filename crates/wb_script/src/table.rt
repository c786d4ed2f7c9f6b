//! What one line of a script says.
ghost use Rattle.std.specs.Prelude.{◌≡◌};
ghost use Rattle.wb_script.specs.Statement.{word_alone, word_and_value, repetition, statement_of};

use crate::Item;
use crate::fields::{before_comment, byte_of, number_of, split_field};

/// What a line of a script says.
#[derive(Clone, Copy)]
pub enum Statement {
    /// An item, or nothing at all.
    Row(Option<Item>),
    /// The lines from here to the next `End` are meant so many times, at least once.
    Repeat(u16),
    /// The repetition ends.
    End,
}

// A line of one word.
#[tactic(auto, unfolding(crate::specs::Statement::word_alone))]
fn word_alone(word: &[u8]) -> Option<Statement>
    ensures { result ≡ word_alone word.now }
{
    if word == b"R".as_slice() {
        Some(Statement::Row(Some(Item::Read)))
    } else if word == b"S".as_slice() {
        Some(Statement::Row(Some(Item::Status)))
    } else if word == b"END".as_slice() {
        Some(Statement::End)
    } else {
        None
    }
}

fn repetition(times: Option<u16>) -> Option<Statement>
    ensures { result ≡ repetition times }
{
    match times {
        Some(times) if times > 0 => Some(Statement::Repeat(times)),
        _ => None,
    }
}

// A line of a word and a value.
#[tactic(auto, unfolding(crate::specs::Statement::word_and_value))]
fn word_and_value(word: &[u8], value: &[u8]) -> Option<Statement>
    ensures { result ≡ word_and_value word.now value.now }
{
    if word == b"W".as_slice() {
        Some(Statement::Row(Some(Item::Write(byte_of(value)?))))
    } else if word == b"WAIT".as_slice() {
        Some(Statement::Row(Some(Item::Wait(number_of(value)?))))
    } else if word == b"STEP".as_slice() {
        Some(Statement::Row(Some(Item::Step(number_of(value)?))))
    } else if word == b"REPEAT".as_slice() {
        repetition(number_of(value))
    } else {
        None
    }
}

/// What a line says, given without its line feed; `None` where no script has such a line.
#[tactic(auto, unfolding(crate::specs::Statement::statement_of))]
pub fn statement_of(line: &[u8]) -> Option<Statement>
    ensures { result ≡ statement_of line.now }
{
    let (word, rest) = split_field(before_comment(line));
    if word.is_empty() {
        return Some(Statement::Row(None));
    }
    let (value, rest) = split_field(rest);
    if value.is_empty() {
        return word_alone(word);
    }
    let (third, _) = split_field(rest);
    if third.is_empty() {
        word_and_value(word, value)
    } else {
        None
    }
}
