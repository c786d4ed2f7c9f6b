//! Reads the clauses of a statement into the word that they make.
ghost use Rattle.std.specs.Prelude.{◌≡◌, MatchOption};
ghost use Rattle.wb_word.specs.declared.words.OpWord.{OpWord};
ghost use Rattle.wb_syntax.specs.Clause.{AreFields, empty_word};
ghost use Rattle.wb_syntax.specs.Statement.{IsWord};

use crate::Separator;
use crate::clauses::clause_of;
use crate::separators::split_first;
use wb_lex::Token;
use wb_word::{Acc, Alu, Dpl, Dst, Nibble, OpWord, P, Src};

// How many sorts of clauses there are.
const SORTS: usize = 5;

/// The word whose fields are all 0.
pub fn empty_word() -> OpWord
    ensures { result ≡ empty_word }
{
    OpWord {
        p: P::Ram,
        alu: Alu::Nop,
        acc: Acc::A,
        dpl: Dpl::DpNop,
        dphm: Nibble { value: 0 },
        rpdec: false,
        src: Src::Trb,
        dst: Dst::Non,
    }
}

// The word of these clauses.
fn fields(text: &[u8], tokens: &[Token]) -> Option<OpWord>
    ensures { MatchOption result ((word : OpWord) → AreFields text.now tokens.now word → ⊥) (AreFields text.now tokens.now) }
{
    let mut word = empty_word();
    let mut seen = [false; SORTS];
    let mut rest = Some(tokens);
    while let Some(others) = rest {
        let (part, after) = split_first(others, Separator::Bar);
        let clause = clause_of(text, part)?;
        let sort = clause.sort();
        if seen[sort] {
            return None;
        }
        seen[sort] = true;
        word = clause.onto(word);
        rest = after;
    }
    Some(word)
}

/// The word of what follows `op` or `rt`: of its clauses, or of none.
pub fn word_of(text: &[u8], tokens: &[Token]) -> Option<OpWord>
    ensures { MatchOption result ((word : OpWord) → IsWord text.now tokens.now word → ⊥) (IsWord text.now tokens.now) }
{
    match tokens {
        [] => Some(empty_word()),
        _ => fields(text, tokens),
    }
}
