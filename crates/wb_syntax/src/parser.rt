//! Reads one line after the other.
ghost use Rattle.std.specs.Prelude.{◌≡◌, ◌<◌, IfErr, IfOk, length};
ghost use Rattle.wb_syntax.specs.Reading.{IsFault, IsReading};
ghost use Rattle.wb_syntax.specs.Source.{IsSource, IsFaultOf};
ghost use Rattle.wb_syntax.specs.Statement.{IsStatement};

use crate::expressions::has_mark;
use crate::instructions::body;
use crate::refusals::Refusal;
use crate::separators::split_first;
use crate::spelling::label_of;
use crate::{Separator, Source, Statement, SyntaxFault};
use std::alloc::Global;
use wb_lex::{Token, Tokens};

// What a line says that isn't empty.
fn statement(alloc: Global, text: &[u8], tokens: &[Token]) -> Result<Statement, Refusal>
    requires { 0 < length tokens.now }
    ensures { IsReading (IsStatement text.now tokens.now) result }
{
    let line = tokens[0].line;
    if !has_mark(tokens, 1, b':') {
        return match body(alloc, text, tokens) {
            Ok(body) => Ok(Statement {
                line,
                label: None,
                body,
            }),
            Err(refusal) => Err(refusal),
        };
    }
    let Some(label) = label_of(text, &tokens[0]) else {
        return Err(Refusal::Syntax);
    };
    match body(alloc, text, &tokens[2..]) {
        Ok(body) => Ok(Statement {
            line,
            label: Some(label),
            body,
        }),
        Err(refusal) => Err(refusal),
    }
}

// A refusal of a line, as the fault of its text.
fn fault(line: u32, refusal: Refusal) -> SyntaxFault
    ensures { IsFault line refusal result }
{
    match refusal {
        Refusal::Syntax => SyntaxFault::Syntax(line),
        Refusal::OutOfMemory => SyntaxFault::OutOfMemory,
    }
}

/// The statements of a text with these tokens, one for each line that isn't empty, or the first bad line.
pub fn parse(alloc: Global, text: &[u8], tokens: &Tokens) -> Result<Source, SyntaxFault>
    ensures source { IfOk result (IsSource text.now tokens.now) }
    ensures fault { IfErr result (IsFaultOf text.now tokens.now) }
{
    let mut statements = Vec::new(alloc);
    let mut rest = Some(tokens.as_slice());
    while let Some(others) = rest {
        let (line, after) = split_first(others, Separator::LineEnd);
        if !line.is_empty() {
            match statement(alloc, text, line) {
                Ok(statement) => statements.push(statement)?,
                Err(refusal) => return Err(fault(line[0].line, refusal)),
            }
        }
        rest = after;
    }
    Ok(Source::from_vec(statements))
}
