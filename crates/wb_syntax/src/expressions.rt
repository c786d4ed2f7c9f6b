//! Reads expressions. Parentheses are read by recursion, at most as deep as they may nest; all else by loops.
ghost use Rattle.std.specs.Prelude.{◌≡◌, ◌<◌, ◌+◌, ◌||◌, true, false, if◌then◌else◌, length, slice_get, IfNone, IfOk, IfSome, IsSome, IsTrue};
ghost use Rattle.wb_syntax.specs.Tree.{Tree, Minus, Plus, Less, Times};
ghost use Rattle.wb_syntax.specs.View.{tree_of};
ghost use Rattle.wb_syntax.specs.Expression.{has_mark, is_operator, IsExpression};
ghost use Rattle.wb_syntax.specs.Reading.{has_sum_mark, IsAlone, IsClosing, IsReading, ReadsAtom, ReadsTerm, ReadsFirst, ReadsExpr};

use crate::refusals::Refusal;
use crate::spelling::{is_mark, label_of};
use crate::{Expr, Node};
use std::alloc::{AllocError, Global};
use wb_lex::{Token, TokenKind};

// How deep parentheses nest at most.
const DEPTH: u32 = 16;

// The most operators that an expression has, with all that stands in its parentheses.
const OPERATORS: usize = 256;

// The token at a place.
fn token_at(tokens: &[Token], place: usize) -> Option<Token>
    ensures value { result ≡ slice_get tokens.now place }
    ensures within { IsSome result → place < length tokens.now }
{
    tokens.get(place).copied()
}

// Whether this mark stands at a place.
pub fn has_mark(tokens: &[Token], place: usize, mark: u8) -> bool
    ensures value { result ≡ has_mark tokens.now place mark }
    ensures within { IsTrue result → place < length tokens.now }
{
    match token_at(tokens, place) {
        Some(token) => is_mark(&token, mark),
        None => false,
    }
}

// Whether `+` or `-` stands at a place.
fn has_sum_mark(tokens: &[Token], place: usize) -> bool
    ensures value { result ≡ has_sum_mark tokens.now place }
    ensures within { IsTrue result → place < length tokens.now }
{
    has_mark(tokens, place, b'+') || has_mark(tokens, place, b'-')
}

fn minus(alloc: Global, x: Expr) -> Result<Expr, AllocError>
    ensures { IfOk result (λ tree. tree ≡ Minus x) }
{
    Ok(Expr {
        node: Node::Minus(Box::new(alloc, x)?),
    })
}

fn times(alloc: Global, x: Expr, y: Expr) -> Result<Expr, AllocError>
    ensures { IfOk result (λ tree. tree ≡ Times x y) }
{
    let x = Box::new(alloc, x)?;
    let y = Box::new(alloc, y)?;
    Ok(Expr {
        node: Node::Times(x, y),
    })
}

// The sum of two expressions, or the first less the second.
fn added(alloc: Global, x: Expr, subtract: bool, y: Expr) -> Result<Expr, AllocError>
    ensures { IfOk result (λ tree. tree ≡ (if subtract then Less x y else Plus x y)) }
{
    let x = Box::new(alloc, x)?;
    let y = Box::new(alloc, y)?;
    let node = if subtract {
        Node::Less(x, y)
    } else {
        Node::Plus(x, y)
    };
    Ok(Expr { node })
}

// The atom that a token is by itself.
fn node_of(text: &[u8], token: Token) -> Option<Node>
    ensures some { IfSome result (λ node. IsAlone text.now token (tree_of node)) }
    ensures none { IfNone result ((x : Tree) → IsAlone text.now token x → ⊥) }
{
    match token.kind {
        TokenKind::Number(number) => Some(Node::Number(number)),
        TokenKind::Name => match label_of(text, &token) {
            Some(label) => Some(Node::Label(label)),
            None => None,
        },
        TokenKind::Mark(mark) if mark == b'$' => Some(Node::Here),
        _ => None,
    }
}

// An atom of one token, and the place after it; the token isn't a parenthesis that opens.
fn alone(text: &[u8], tokens: &[Token], start: usize, depth: u32) -> Result<(Expr, usize), Refusal>
    requires { has_mark tokens.now start 40 ≡ false }
    ensures reading { IsReading (ReadsAtom text.now tokens.now depth start) result }
    ensures further { IfOk result (λ read. start < read.1) }
{
    let Some(token) = token_at(tokens, start) else {
        return Err(Refusal::Syntax);
    };
    match node_of(text, token) {
        Some(node) => Ok((Expr { node }, start + 1)),
        None => Err(Refusal::Syntax),
    }
}

// An atom, and the place after it.
#[cycle(reading)]
fn atom(
    alloc: Global,
    text: &[u8],
    tokens: &[Token],
    start: usize,
    depth: u32,
) -> Result<(Expr, usize), Refusal>
    ensures reading { IsReading (ReadsAtom text.now tokens.now depth start) result }
    ensures further { IfOk result (λ read. start < read.1) }
{
    if has_mark(tokens, start, b'(') {
        inside(alloc, text, tokens, start, depth)
    } else {
        alone(text, tokens, start, depth)
    }
}

// An expression in parentheses, the first of which stands at the start, and the place after them.
#[cycle(reading)]
fn inside(
    alloc: Global,
    text: &[u8],
    tokens: &[Token],
    start: usize,
    depth: u32,
) -> Result<(Expr, usize), Refusal>
    requires opened { has_mark tokens.now start 40 ≡ true }
    requires within { start < length tokens.now }
    ensures reading { IsReading (ReadsAtom text.now tokens.now depth start) result }
    ensures further { IfOk result (λ read. start < read.1) }
{
    if depth == 0 {
        return Err(Refusal::Syntax);
    }
    match expr(alloc, text, tokens, start + 1, depth - 1) {
        Ok((x, close)) => closed(tokens, x, close),
        Err(refusal) => Err(refusal),
    }
}

// What is read where it stands before a parenthesis that closes, and the place after that.
fn closed(tokens: &[Token], x: Expr, close: usize) -> Result<(Expr, usize), Refusal>
    ensures { IsClosing tokens.now close x result }
{
    if has_mark(tokens, close, b')') {
        Ok((x, close + 1))
    } else {
        Err(Refusal::Syntax)
    }
}

// As many factors as there are, and the place after them.
#[cycle(reading)]
fn term(
    alloc: Global,
    text: &[u8],
    tokens: &[Token],
    start: usize,
    depth: u32,
) -> Result<(Expr, usize), Refusal>
    ensures reading { IsReading (ReadsTerm text.now tokens.now depth start) result }
    ensures further { IfOk result (λ read. start < read.1) }
{
    let (mut product, mut at) = atom(alloc, text, tokens, start, depth)?;
    while has_mark(tokens, at, b'*') {
        let (factor, end) = atom(alloc, text, tokens, at + 1, depth)?;
        product = times(alloc, product, factor)?;
        at = end;
    }
    Ok((product, at))
}

// The first term of an expression with its sign, and the place after it.
#[cycle(reading)]
fn first_term(
    alloc: Global,
    text: &[u8],
    tokens: &[Token],
    start: usize,
    depth: u32,
) -> Result<(Expr, usize), Refusal>
    ensures reading { IsReading (ReadsFirst text.now tokens.now depth start) result }
    ensures further { IfOk result (λ read. start < read.1) }
{
    if has_mark(tokens, start, b'-') {
        let (x, end) = term(alloc, text, tokens, start + 1, depth)?;
        return Ok((minus(alloc, x)?, end));
    }
    term(alloc, text, tokens, start, depth)
}

// An expression as far as it goes, and the place after it.
#[cycle(reading)]
fn expr(
    alloc: Global,
    text: &[u8],
    tokens: &[Token],
    start: usize,
    depth: u32,
) -> Result<(Expr, usize), Refusal>
    ensures reading { IsReading (ReadsExpr text.now tokens.now depth start) result }
    ensures further { IfOk result (λ read. start < read.1) }
{
    let (mut sum, mut at) = first_term(alloc, text, tokens, start, depth)?;
    while has_sum_mark(tokens, at) {
        let subtract = has_mark(tokens, at, b'-');
        let (y, end) = term(alloc, text, tokens, at + 1, depth)?;
        sum = added(alloc, sum, subtract, y)?;
        at = end;
    }
    Ok((sum, at))
}

// Whether a token is one of the marks `+`, `-` and `*`.
fn is_operator(token: &Token) -> bool
    ensures { result ≡ is_operator token.now }
{
    match token.kind {
        TokenKind::Mark(mark) => mark == b'+' || mark == b'-' || mark == b'*',
        _ => false,
    }
}

/// The expression that these tokens are.
pub fn expression(alloc: Global, text: &[u8], tokens: &[Token]) -> Result<Expr, Refusal>
    ensures { IsReading (IsExpression text.now tokens.now) result }
{
    if tokens.iter().filter(|token| is_operator(token)).count() > OPERATORS {
        return Err(Refusal::Syntax);
    }
    match expr(alloc, text, tokens, 0, DEPTH) {
        Ok((x, end)) if end == tokens.len() => Ok(x),
        Ok(_) => Err(Refusal::Syntax),
        Err(refusal) => Err(refusal),
    }
}
