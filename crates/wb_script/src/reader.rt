//! Reads a text line by line, and unrolls its repetitions as they end.
ghost use Rattle.std.specs.Prelude.{◌≡◌, ◌<◌, ◌≤◌, ◌+◌, ◌-◌, ◌*◌, [], ◌∷◌, ◌++◌, IfErr, IfOk, IsOkAnd, MatchOption, OnOk, drop, length, take, vec_capacity};
ghost use Rattle.std.specs.Str.Lines.{lines, strip_carriage_return};
ghost use Rattle.wb_script.specs.Script.{IsScript, IsFirstBad, IsFaultOf, copies};
ghost use Rattle.wb_script.specs.declared.table.Statement.TheVariants.{Row, Repeat, End};
ghost use Rattle.wb_script.specs.Reading.{Continues, IsRefusal, HasRoom};

use crate::fields::place_of;
use crate::table::{Statement, statement_of};
use crate::{Item, Script, ScriptFault};
use std::alloc::Global;

/// The most items that a script has, with every repetition written out.
pub const MOST_ITEMS: usize = 65536;

// Where a repetition began.
#[derive(Clone, Copy)]
pub struct Opening {
    pub line: u32,
    pub times: u16,
    // How many items stand before it.
    pub start: usize,
}

// The items so far, those of an open repetition once and at the end. The room for all items is taken.
#[derive(Drop)]
struct Reader {
    items: Vec<Item>,
    opening: Option<Opening>,
    ghost room: { 65536 ≤ vec_capacity items },
}

// Each call answers the number of its line where that line may not stand there.
impl Reader {
    fn add(&mut self, line: u32, item: Item) -> Result<(), u32>
        ensures ok { OnOk result (Continues self.old.items.items self.old.opening line (Some (Row (Some item))) self.new.items.items self.new.opening) }
        ensures err { IfErr result (IsRefusal self.old.items.items self.old.opening line (Some (Row (Some item)))) }
    {
        if self.items.len() >= MOST_ITEMS {
            return Err(line);
        }
        self.items.push(item).unwrap();
        Ok(())
    }

    fn begin(&mut self, line: u32, times: u16) -> Result<(), u32>
        ensures ok { OnOk result (Continues self.old.items.items self.old.opening line (Some (Repeat times)) self.new.items.items self.new.opening) }
        ensures err { IfErr result (IsRefusal self.old.items.items self.old.opening line (Some (Repeat times))) }
    {
        if self.opening.is_some() {
            return Err(line);
        }
        let start = self.items.len();
        self.opening = Some(Opening { line, times, start });
        Ok(())
    }

    fn end(&mut self, line: u32) -> Result<(), u32>
        requires { HasRoom self.old.items.items self.old.opening }
        ensures ok { OnOk result (Continues self.old.items.items self.old.opening line (Some End) self.new.items.items self.new.opening) }
        ensures err { IfErr result (IsRefusal self.old.items.items self.old.opening line (Some End)) }
    {
        let Some(opening) = self.opening else {
            return Err(line);
        };
        let inside = self.items.len() - opening.start;
        if opening.start + usize::from(opening.times) * inside > MOST_ITEMS {
            return Err(line);
        }
        repeat(&mut self.items, opening.start, opening.times);
        self.opening = None;
        Ok(())
    }

    fn read(&mut self, line: u32, statement: Option<Statement>) -> Result<(), u32>
        requires { HasRoom self.old.items.items self.old.opening }
        ensures ok { OnOk result (Continues self.old.items.items self.old.opening line statement self.new.items.items self.new.opening) }
        ensures err { IfErr result (IsRefusal self.old.items.items self.old.opening line statement) }
    {
        match statement {
            Some(Statement::Row(None)) => Ok(()),
            Some(Statement::Row(Some(item))) => self.add(line, item),
            Some(Statement::Repeat(times)) => self.begin(line, times),
            Some(Statement::End) => self.end(line),
            None => Err(line),
        }
    }

    fn finish(self) -> Result<Script, u32>
        ensures { MatchOption self.opening (IsOkAnd result (λ script. script ≡ self.items.items)) (λ opening. result ≡ Err opening.line) }
    {
        match self.opening {
            Some(opening) => Err(opening.line),
            None => Ok(Script::from_items(self.items)),
        }
    }
}

// Writes the items from a place on out so many times in all.
fn repeat(items: &mut Vec<Item>, start: usize, times: u16)
    requires start_in { start ≤ length items.old.items }
    requires some { 0 < times }
    requires room { start + times * (length items.old.items - start) ≤ vec_capacity items.old }
    ensures items { items.new.items ≡ take start items.old.items ++ copies times (drop start items.old.items) }
    ensures capacity { vec_capacity items.old ≤ vec_capacity items.new }
{
    let end = items.len();
    if start < end {
        for _ in 1..times {
            items.extend_from_within(start..end).unwrap();
        }
    }
}

// A line without the carriage return at its end.
fn without_return(line: &[u8]) -> &[u8]
    ensures { result.now ≡ strip_carriage_return line.now }
{
    match line {
        [rest @ .., b'\r'] => rest,
        _ => line,
    }
}

// The first line of a text, and what follows its line feed.
fn split_line(text: &[u8]) -> (&[u8], &[u8])
    requires { 0 < length text.now }
    ensures first { lines text.now ≡ result.0.now ∷ lines result.1.now }
    ensures shorter { length result.1.now < length text.now }
{
    let end = place_of(b'\n', text);
    if end == text.len() {
        return (text, &text[end..]);
    }
    (without_return(&text[..end]), &text[end + 1..])
}

/// Reads a script into items that have the room for all of it: the items with every repetition written out, or
/// the number of the first line that is bad. It takes no memory.
pub fn read_lines(items: Vec<Item>, text: &[u8]) -> Result<Script, u32>
    requires size { length text.now ≤ 1048576 }
    requires empty { items.items ≡ [] }
    requires room { 65536 ≤ vec_capacity items }
    ensures script { IfOk result (IsScript text.now) }
    ensures line { IfErr result (IsFirstBad text.now) }
{
    let mut reader = Reader {
        items,
        opening: None,
    };
    let mut line = 0;
    let mut rest = text;
    while !rest.is_empty() {
        let (first, after) = split_line(rest);
        line += 1;
        reader.read(line, statement_of(first))?;
        rest = after;
    }
    reader.finish()
}

/// Reads a script: the items with every repetition written out, or the first line that is bad. The room for the
/// most items that a script may have is taken before the first line is read.
pub fn read_script(alloc: Global, text: &[u8]) -> Result<Script, ScriptFault>
    requires { length text.now ≤ 1048576 }
    ensures script { IfOk result (IsScript text.now) }
    ensures fault { IfErr result (IsFaultOf text.now) }
{
    let items = Vec::with_capacity(alloc, MOST_ITEMS)?;
    match read_lines(items, text) {
        Ok(script) => Ok(script),
        Err(line) => Err(ScriptFault::BadLine(line)),
    }
}
