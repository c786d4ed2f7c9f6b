//! Cuts the text of a source into tokens.
//!
//! `lex` gives exactly the tokens of a text, or its first fault: a byte that may not stand outside comments,
//! or a number that is too large. `tokens.rt` has the tokens, `faults.rt` the faults, `scanner.rt` finds one
//! piece after the other, `front.rt` says what stands at the front of a rest, `words.rt` what a word is, and
//! `laws.rt` what holds of every text. `specs/Pieces.antt` says how a text is cut into
//! pieces, `specs/Tokens.antt` what they mean, `specs/Characters.antt` which bytes they consist of.
#![tactic(auto)]

mod faults;
mod front;
mod laws;
mod scanner;
mod tokens;
mod words;

pub use faults::LexFault;
pub use laws::each_text_has_one_answer;
pub use scanner::lex;
pub use tokens::{Token, TokenKind, Tokens};
