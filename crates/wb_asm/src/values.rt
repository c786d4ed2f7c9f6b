//! The values of expressions.
ghost use Rattle.std.specs.Prelude.{◌≡◌, true, false, ℤ, IfSome, IfNone, MatchResult, None, Some};
ghost use Rattle.wb_asm.specs.Value.{name_of, is_known, exact, is_narrow, is_between, value_fault};

use crate::faults::AsmKind;
use crate::names::Names;
use wb_syntax::{Expr, Node, Span};

/// The name that a slice of the text spells. A slice that leaves the text is cut where the text ends.
pub(crate) fn name_of(text: &[u8], span: Span) -> &[u8]
    ensures { result.now ≡ name_of text.now span }
{
    let start = span.start.min(text.len());
    let end = span.end.min(text.len()).max(start);
    &text[start..end]
}

/// Whether each name of an expression is known.
fn is_known(text: &[u8], names: &Names<'_>, here: u16, x: &Expr) -> bool
    ensures { result ≡ is_known text.now names.now here x.now }
{
    match &x.node {
        Node::Number(_) | Node::Here => true,
        Node::Label(span) => names.number(name_of(text, *span)).is_some(),
        Node::Minus(x) => is_known(text, names, here, x),
        Node::Plus(x, y) | Node::Less(x, y) | Node::Times(x, y) => {
            is_known(text, names, here, x) && is_known(text, names, here, y)
        }
    }
}

/// The value of an expression whose names are known, unless a number on the way to it is out of range.
fn exact(text: &[u8], names: &Names<'_>, here: u16, x: &Expr) -> Option<i64>
    requires { is_known text.now names.now here x.now ≡ true }
    ensures some { IfSome result (λ value. (is_narrow text.now names.now here x.now ≡ true) × (value ≡ exact text.now names.now here x.now)) }
    ensures none { IfNone result (is_narrow text.now names.now here x.now ≡ false) }
{
    match &x.node {
        Node::Number(number) => Some(i64::from(*number)),
        Node::Label(span) => names.number(name_of(text, *span)),
        Node::Here => Some(i64::from(here)),
        Node::Minus(x) => exact(text, names, here, x)?.checked_neg(),
        Node::Plus(x, y) => exact(text, names, here, x)?.checked_add(exact(text, names, here, y)?),
        Node::Less(x, y) => exact(text, names, here, x)?.checked_sub(exact(text, names, here, y)?),
        Node::Times(x, y) => exact(text, names, here, x)?.checked_mul(exact(text, names, here, y)?),
    }
}

/// The value of an expression that has to be in a range, or what is wrong with it.
#[tactic(auto, unfolding(crate::specs::Value::value_fault))]
pub(crate) fn value_in(
    low: i64,
    high: i64,
    text: &[u8],
    names: &Names<'_>,
    here: u16,
    x: &Expr,
) -> Result<i64, AsmKind>
    ensures { MatchResult result
        (λ value. (value_fault text.now names.now here low high x.now ≡ None) × (value ≡ exact text.now names.now here x.now) × (is_between low high value ≡ true))
        (λ kind. value_fault text.now names.now here low high x.now ≡ Some kind) }
{
    if !is_known(text, names, here, x) {
        return Err(AsmKind::Unknown);
    }
    match exact(text, names, here, x) {
        Some(value) if low <= value && value <= high => Ok(value),
        _ => Err(AsmKind::Range),
    }
}
