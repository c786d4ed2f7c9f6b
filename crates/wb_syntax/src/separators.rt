//! Where the tokens of a text are cut.
ghost use Rattle.std.specs.Prelude.{◌≡◌, ◌<◌, ◌∷◌, IfSome, length, option_map};
ghost use Rattle.wb_syntax.specs.Separators.{is_separator, parts, parts_left};

use wb_lex::{Token, TokenKind};

/// A token at which a list of tokens is cut.
#[derive(Clone, Copy, PartialEq, Eq, Debug)]
pub enum Separator {
    /// `|`, between clauses.
    Bar,
    /// `,`, between expressions.
    Comma,
    /// The end of a line.
    LineEnd,
}

impl Separator {
    // Whether a token is this separator.
    fn is(self, token: &Token) -> bool
        ensures { result ≡ is_separator self token.now.kind }
    {
        match (self, token.kind) {
            (Separator::Bar, TokenKind::Mark(mark)) => mark == b'|',
            (Separator::Comma, TokenKind::Mark(mark)) => mark == b',',
            (Separator::LineEnd, TokenKind::LineEnd) => true,
            _ => false,
        }
    }
}

/// The tokens before the first separator, and those after it, where there is one.
pub fn split_first(tokens: &[Token], separator: Separator) -> (&[Token], Option<&[Token]>)
    ensures parts { parts separator tokens.now ≡ result.0.now ∷ parts_left separator (option_map (λ rest. rest.now) result.1) }
    ensures shorter { IfSome result.1 (λ rest. length rest.now < length tokens.now) }
{
    for (place, token) in tokens.iter().enumerate() {
        if separator.is(token) {
            return (&tokens[..place], Some(&tokens[place + 1..]));
        }
    }
    (tokens, None)
}
