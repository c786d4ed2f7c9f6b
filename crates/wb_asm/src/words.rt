//! The words that expressions give.
ghost use Rattle.std.specs.Prelude.{◌≡◌, None, Some, MatchResult};
ghost use Rattle.wb_asm.specs.Words.{low_word, Load, Branch, Plain, content_fault, content_word, data_fault, data_word};

use crate::faults::AsmKind;
use crate::names::Names;
use crate::values::value_in;
use wb_syntax::Expr;
use wb_word::{Addr, Cond, Dst, Instr, Spare, Word, encode};

/// The low 16 bits of a number, in two's complement where it is negative.
fn low_word(number: i64) -> u16
    ensures { result ≡ low_word number }
{
    number.rem_euclid(65536) as u16
}

/// A load of an expression's value.
pub(crate) fn load_word(
    text: &[u8],
    names: &Names<'_>,
    here: u16,
    dst: Dst,
    x: &Expr,
) -> Result<Word, AsmKind>
    ensures { MatchResult result
        (λ word. (content_fault text.now names.now here (Load dst x.now) ≡ None) × (word.value ≡ content_word text.now names.now here (Load dst x.now)))
        (λ kind. content_fault text.now names.now here (Load dst x.now) ≡ Some kind) }
{
    let value = low_word(value_in(-32768, 65535, text, names, here, x)?);
    let spare = Spare { value: 0 };
    Ok(encode(&Instr::Ld { value, spare, dst }))
}

/// A jump to an expression's value.
pub(crate) fn jump_word(
    text: &[u8],
    names: &Names<'_>,
    here: u16,
    cond: Cond,
    x: &Expr,
) -> Result<Word, AsmKind>
    ensures { MatchResult result
        (λ word. (content_fault text.now names.now here (Branch cond x.now) ≡ None) × (word.value ≡ content_word text.now names.now here (Branch cond x.now)))
        (λ kind. content_fault text.now names.now here (Branch cond x.now) ≡ Some kind) }
{
    let target = value_in(0, 2047, text, names, here, x)?;
    let na = Addr {
        value: target as u16,
    };
    let spare = Spare { value: 0 };
    Ok(encode(&Instr::Jp { cond, na, spare }))
}

/// An expression's value as a program word.
pub(crate) fn plain_word(
    text: &[u8],
    names: &Names<'_>,
    here: u16,
    x: &Expr,
) -> Result<Word, AsmKind>
    ensures { MatchResult result
        (λ word. (content_fault text.now names.now here (Plain x.now) ≡ None) × (word.value ≡ content_word text.now names.now here (Plain x.now)))
        (λ kind. content_fault text.now names.now here (Plain x.now) ≡ Some kind) }
{
    let value = value_in(0, 16777215, text, names, here, x)?;
    Ok(Word {
        value: value as u32,
    })
}

/// An expression's value as a data word.
pub(crate) fn data_word(text: &[u8], names: &Names<'_>, here: u16, x: &Expr) -> Result<u16, AsmKind>
    ensures { MatchResult result
        (λ word. (data_fault text.now names.now here x.now ≡ None) × (word ≡ data_word text.now names.now here x.now))
        (λ kind. data_fault text.now names.now here x.now ≡ Some kind) }
{
    Ok(low_word(value_in(-32768, 65535, text, names, here, x)?))
}
