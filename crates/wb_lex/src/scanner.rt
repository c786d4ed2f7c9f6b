//! Finds one piece of the text after the other.
ghost use Rattle.std.specs.Prelude.{◌≤◌, IfErr, IfOk, length};
ghost use Rattle.wb_lex.specs.Tokens.{IsTokens, IsFaultOf};

use crate::front::{Front, front_of};
use crate::{LexFault, Token, TokenKind, Tokens};
use std::alloc::Global;

/// The tokens of a text, or its first fault. No memory is taken beyond that of the tokens.
pub fn lex(alloc: Global, text: &[u8]) -> Result<Tokens, LexFault>
    requires { length text.now ≤ 1048576 }
    ensures tokens { IfOk result (IsTokens text.now) }
    ensures fault { IfErr result (IsFaultOf text.now) }
{
    let mut tokens = Vec::new(alloc);
    let mut line = 1;
    let mut line_start = 0;
    let mut at = 0;
    while at < text.len() {
        let start = at;
        match front_of(&text[at..]) {
            Front::Skipped(size) => at += size,
            Front::Token(kind, size) => {
                at += size;
                tokens.push(Token {
                    kind,
                    line,
                    start,
                    end: at,
                })?;
            }
            Front::LineEnd => {
                at += 1;
                tokens.push(Token {
                    kind: TokenKind::LineEnd,
                    line,
                    start,
                    end: at,
                })?;
                line += 1;
                line_start = at;
            }
            Front::Wide => return Err(LexFault::Wide(line)),
            Front::Foreign => {
                let column = (at - line_start + 1) as u32;
                return Err(LexFault::Byte { line, column });
            }
        }
    }
    Ok(Tokens::from_vec(tokens))
}
