//! Reads a mnemonic and its operands.
ghost use Rattle.std.specs.Prelude.{◌≡◌, ◌<◌, length};
ghost use Rattle.wb_syntax.specs.Reading.{IsReading};
ghost use Rattle.wb_syntax.specs.Separators.{parts};
ghost use Rattle.wb_syntax.specs.Statement.{AreExpressions, IsOperands, IsBody};
ghost use Rattle.wb_syntax.specs.declared.mnemonics.Mnemonic.TheVariants.{Ld, Equ};
ghost use Rattle.wb_syntax.specs.declared.separators.Separator.TheVariants.{Comma};

use crate::expressions::expression;
use crate::fields::{empty_word, word_of};
use crate::names::{dst_of, mnemonic_of};
use crate::refusals::Refusal;
use crate::separators::split_first;
use crate::spelling::{is_mark, label_of, name_of};
use crate::{Body, Exprs, Mnemonic, Separator};
use std::alloc::Global;
use wb_lex::Token;

// The expressions between the commas of these tokens.
fn expressions(alloc: Global, text: &[u8], tokens: &[Token]) -> Result<Exprs, Refusal>
    ensures { IsReading (AreExpressions text.now (parts Comma tokens.now)) result }
{
    let mut items = Vec::new(alloc);
    let mut rest = Some(tokens);
    while let Some(others) = rest {
        let (part, after) = split_first(others, Separator::Comma);
        items.push(expression(alloc, text, part)?)?;
        rest = after;
    }
    Ok(Exprs::from_vec(items))
}

// A destination, a comma and an expression.
fn load(alloc: Global, text: &[u8], tokens: &[Token]) -> Result<Body, Refusal>
    ensures { IsReading (IsOperands text.now Ld tokens.now) result }
{
    let [name, comma, others @ ..] = tokens else {
        return Err(Refusal::Syntax);
    };
    if !is_mark(comma, b',') {
        return Err(Refusal::Syntax);
    }
    let Some(name) = name_of(text, name) else {
        return Err(Refusal::Syntax);
    };
    let Some(dst) = dst_of(name) else {
        return Err(Refusal::Syntax);
    };
    match expression(alloc, text, others) {
        Ok(x) => Ok(Body::Ld(dst, x)),
        Err(refusal) => Err(refusal),
    }
}

// A label, a comma and an expression.
fn definition(alloc: Global, text: &[u8], tokens: &[Token]) -> Result<Body, Refusal>
    ensures { IsReading (IsOperands text.now Equ tokens.now) result }
{
    let [name, comma, others @ ..] = tokens else {
        return Err(Refusal::Syntax);
    };
    if !is_mark(comma, b',') {
        return Err(Refusal::Syntax);
    }
    let Some(label) = label_of(text, name) else {
        return Err(Refusal::Syntax);
    };
    match expression(alloc, text, others) {
        Ok(x) => Ok(Body::Equ(label, x)),
        Err(refusal) => Err(refusal),
    }
}

// What these tokens say after a mnemonic.
fn operands(
    alloc: Global,
    text: &[u8],
    mnemonic: Mnemonic,
    tokens: &[Token],
) -> Result<Body, Refusal>
    ensures { IsReading (IsOperands text.now mnemonic tokens.now) result }
{
    match mnemonic {
        Mnemonic::Nop if tokens.is_empty() => Ok(Body::Op(empty_word())),
        Mnemonic::Nop => Err(Refusal::Syntax),
        Mnemonic::Op => match word_of(text, tokens) {
            Some(word) => Ok(Body::Op(word)),
            None => Err(Refusal::Syntax),
        },
        Mnemonic::Rt => match word_of(text, tokens) {
            Some(word) => Ok(Body::Rt(word)),
            None => Err(Refusal::Syntax),
        },
        Mnemonic::Ld => load(alloc, text, tokens),
        Mnemonic::Jump(cond) => match expression(alloc, text, tokens) {
            Ok(x) => Ok(Body::Jump(cond, x)),
            Err(refusal) => Err(refusal),
        },
        Mnemonic::Org => match expression(alloc, text, tokens) {
            Ok(x) => Ok(Body::Org(x)),
            Err(refusal) => Err(refusal),
        },
        Mnemonic::Dorg => match expression(alloc, text, tokens) {
            Ok(x) => Ok(Body::Dorg(x)),
            Err(refusal) => Err(refusal),
        },
        Mnemonic::Equ => definition(alloc, text, tokens),
        Mnemonic::Word => match expressions(alloc, text, tokens) {
            Ok(xs) => Ok(Body::Words(xs)),
            Err(refusal) => Err(refusal),
        },
        Mnemonic::Dw => match expressions(alloc, text, tokens) {
            Ok(xs) => Ok(Body::Dwords(xs)),
            Err(refusal) => Err(refusal),
        },
    }
}

/// What these tokens say without a label.
pub fn body(alloc: Global, text: &[u8], tokens: &[Token]) -> Result<Body, Refusal>
    ensures { IsReading (IsBody text.now tokens.now) result }
{
    let [head, rest @ ..] = tokens else {
        return Ok(Body::Empty);
    };
    let Some(name) = name_of(text, head) else {
        return Err(Refusal::Syntax);
    };
    match mnemonic_of(name) {
        Some(mnemonic) => operands(alloc, text, mnemonic, rest),
        None => Err(Refusal::Syntax),
    }
}
