//! What a token of a text is to the grammar.
ghost use Rattle.std.specs.Prelude.{◌≡◌, ℕ, List, MatchBool, MatchOption};
ghost use Rattle.wb_syntax.specs.declared.spans.Span.{Span};
ghost use Rattle.wb_syntax.specs.Spelling.{spelling, IsMark, IsLabel, Says};

use crate::Span;
use wb_lex::{Token, TokenKind};

// The bytes of a token. A token lies within its text; of another, what lies within the text.
#[tactic(auto, using(crate::proofs::Spellings::cut_to_text))]
pub fn spelling<'a>(text: &'a [u8], token: &Token) -> &'a [u8]
    ensures { result.now ≡ spelling text.now token.now }
{
    let end = token.end.min(text.len());
    &text[token.start.min(end)..end]
}

// The name that a token is.
pub fn name_of<'a>(text: &'a [u8], token: &Token) -> Option<&'a [u8]>
    ensures { MatchOption result ((name : List ℕ) → Says text.now token.now name → ⊥) (λ name. Says text.now token.now name.now) }
{
    if token.kind == TokenKind::Name {
        Some(spelling(text, token))
    } else {
        None
    }
}

// Whether a token is this mark.
pub fn is_mark(token: &Token, mark: u8) -> bool
    ensures { MatchBool result (IsMark token.now mark) (IsMark token.now mark → ⊥) }
{
    token.kind == TokenKind::Mark(mark)
}

// The label that a token is.
pub fn label_of(text: &[u8], token: &Token) -> Option<Span>
    ensures { MatchOption result ((label : Span) → IsLabel text.now token.now label → ⊥) (IsLabel text.now token.now) }
{
    if token.kind != TokenKind::Name || spelling(text, token).first() == Some(&b'.') {
        return None;
    }
    Some(Span {
        start: token.start,
        end: token.end,
    })
}
