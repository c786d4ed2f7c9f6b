//! The parts of a statement that computes and moves.
ghost use Rattle.std.specs.Prelude.{◌≡◌, ◌<◌, [], ◌∷◌, IfNone, IfSome, MatchOption};
ghost use Rattle.std.specs.Char.{digit_char};
ghost use Rattle.wb_word.specs.declared.numbers.Nibble.{Nibble};
ghost use Rattle.wb_syntax.specs.declared.clauses.Clause.{Clause};
ghost use Rattle.wb_syntax.specs.Clause.{IsClause, IsLong, IsShort, sort_of, with_clause};

use crate::names::{acc_of, alu_of, dpl_of, dst_of, p_of, src_of};
use crate::spelling::{is_mark, name_of};
use wb_lex::Token;
use wb_word::{Acc, Alu, Dpl, Dst, Nibble, OpWord, P, Src};

/// One part of a statement that computes and moves.
#[derive(Clone, Copy, PartialEq, Eq, Debug)]
pub enum Clause {
    /// What the ALU computes, on which accumulator, with which second operand.
    Compute(Alu, Acc, P),
    /// Where the bus is moved to, and from where.
    Move(Dst, Src),
    /// What happens to the low four bits of DP.
    Step(Dpl),
    /// What is XORed into the high four bits of DP.
    Modify(Nibble),
    /// RP becomes RP - 1.
    Lower,
}

impl Clause {
    // The clauses of one sort have one number.
    pub(crate) fn sort(self) -> usize
        ensures value { result ≡ sort_of self }
        ensures below { result < 5 }
    {
        match self {
            Clause::Compute(..) => 0,
            Clause::Move(..) => 1,
            Clause::Step(_) => 2,
            Clause::Modify(_) => 3,
            Clause::Lower => 4,
        }
    }

    // A word with the fields of this clause.
    pub(crate) fn onto(self, word: OpWord) -> OpWord
        ensures { result ≡ with_clause word self }
    {
        match self {
            Clause::Compute(alu, acc, p) => OpWord {
                alu,
                acc,
                p,
                ..word
            },
            Clause::Move(dst, src) => OpWord { dst, src, ..word },
            Clause::Step(dpl) => OpWord { dpl, ..word },
            Clause::Modify(dphm) => OpWord { dphm, ..word },
            Clause::Lower => OpWord {
                rpdec: true,
                ..word
            },
        }
    }
}

// The number of four bits that stands after the `m` of a clause that modifies.
fn modifier(name: &[u8]) -> Option<Nibble>
    ensures some { IfSome result (λ nibble. (0 < nibble.value) × (name.now ≡ 109 ∷ digit_char nibble.value ∷ [])) }
    ensures none { IfNone result ((nibble : Nibble) → 0 < nibble.value → name.now ≡ 109 ∷ digit_char nibble.value ∷ [] → ⊥) }
{
    match name {
        [b'm', digit] => match *digit {
            b'1'..=b'9' => Nibble::new(*digit - b'0'),
            b'a'..=b'f' => Nibble::new(*digit - b'a' + 10),
            _ => None,
        },
        _ => None,
    }
}

// The clause that is this name by itself.
fn short(name: &[u8]) -> Option<Clause>
    ensures { MatchOption result ((clause : Clause) → IsShort name.now clause → ⊥) (IsShort name.now) }
{
    if name == b"rpdec".as_slice() {
        return Some(Clause::Lower);
    }
    if let Some(dpl) = dpl_of(name)
        && dpl != Dpl::DpNop
    {
        return Some(Clause::Step(dpl));
    }
    match modifier(name) {
        Some(nibble) => Some(Clause::Modify(nibble)),
        None => None,
    }
}

// The clause that is two names, and a third after a comma.
fn long(first: &[u8], second: &[u8], third: &[u8]) -> Option<Clause>
    ensures { MatchOption result ((clause : Clause) → IsLong first.now second.now third.now clause → ⊥) (IsLong first.now second.now third.now) }
{
    if first == b"mov".as_slice() {
        return Some(Clause::Move(dst_of(second)?, src_of(third)?));
    }
    Some(Clause::Compute(alu_of(first)?, acc_of(second)?, p_of(third)?))
}

// The clause that these tokens are.
pub fn clause_of(text: &[u8], tokens: &[Token]) -> Option<Clause>
    ensures { MatchOption result ((clause : Clause) → IsClause text.now tokens.now clause → ⊥) (IsClause text.now tokens.now) }
{
    match tokens {
        [word] => short(name_of(text, word)?),
        [a, b, comma, c] if is_mark(comma, b',') => {
            long(name_of(text, a)?, name_of(text, b)?, name_of(text, c)?)
        }
        _ => None,
    }
}
