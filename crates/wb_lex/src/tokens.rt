//! Tokens, and the list of them.
ghost use Rattle.std.specs.Prelude.{◌≡◌};

use std::marker::Model;

/// What a token is.
#[derive(Clone, Copy, PartialEq, Eq, Debug)]
pub enum TokenKind {
    /// A letter, `_` or `.`, and the letters, digits and `_` that follow it.
    Name,
    /// A number, decimal or after `0x` hexadecimal.
    Number(u32),
    /// One of the bytes `: , | + - * ( ) $`.
    Mark(u8),
    /// A word that begins with a digit and is no number.
    Bad,
    /// The end of a line.
    LineEnd,
}

/// A token, the line on which it stands, counted from 1, and the slice of the text that it is.
#[derive(Clone, Copy, PartialEq, Eq, Debug)]
pub struct Token {
    pub kind: TokenKind,
    pub line: u32,
    pub start: usize,
    pub end: usize,
}

/// The tokens of a text, in order.
#[derive(Drop)]
pub struct Tokens {
    tokens: Vec<Token>,
}

impl Model for Tokens {
    ghost use Rattle.std.specs.Prelude.{List};
    ghost use Rattle.wb_lex.specs.declared.tokens.Token.{Token};

    ghost Value = { List Token };

    ghost view = { λ tokens. tokens.tokens.items };
}

impl Tokens {
    /// These tokens, which takes no memory.
    pub(crate) fn from_vec(tokens: Vec<Token>) -> Self
        ensures { result ≡ tokens.items }
    {
        Tokens { tokens }
    }

    /// The tokens in order.
    pub fn as_slice(&self) -> &[Token]
        ensures { result.now ≡ self.now }
    {
        self.tokens.as_slice()
    }
}
