//! The image of a text.
ghost use Rattle.std.specs.Prelude.{◌≡◌, ◌≤◌, None, Some, IfErr, IfOk, MatchResult, length};
ghost use Rattle.wb_asm.specs.Assembly.{IsImageOfText, IsErrorOf};
ghost use Rattle.wb_asm.specs.Statements.{IsImageOfStatements, IsErrorOfStatements};
ghost use Rattle.wb_asm.specs.Filling.{AreFilled};
ghost use Rattle.wb_asm.specs.Laid.{HaveRoom};
ghost use Rattle.wb_asm.specs.Words.{first_misvalued};

use crate::faults::{AsmError, AsmFault};
use crate::filling::fill;
use crate::laying::{Placing, lay_out};
use std::alloc::Global;
use wb_lex::lex;
use wb_rom::{Image, Rom};
use wb_syntax::{Statement, parse};

/// Puts the words of all statements.
fn fill_all(
    image: &mut Image,
    text: &[u8],
    placing: &Placing<'_>,
    statements: &[Statement],
) -> Result<(), AsmFault>
    requires { HaveRoom statements.now placing.now.counters.items }
    ensures { MatchResult result
        (λ _. (first_misvalued text.now placing.now.names statements.now placing.now.counters.items ≡ None)
        × AreFilled text.now placing.now.names image.old image.new statements.now placing.now.counters.items)
        (λ fault. first_misvalued text.now placing.now.names statements.now placing.now.counters.items ≡ Some fault) }
{
    for (index, statement) in statements.iter().enumerate() {
        let at = placing.counters[index];
        if let Err(kind) = fill(image, text, &placing.names, at, &statement.body) {
            return Err(AsmFault {
                line: statement.line,
                kind,
            });
        }
    }
    Ok(())
}

/// The image of a text that says these statements, or its first fault in definitions, placing and values.
fn assemble_statements(
    alloc: Global,
    text: &[u8],
    statements: &[Statement],
) -> Result<Image, AsmError>
    ensures image { IfOk result (IsImageOfStatements text.now statements.now) }
    ensures fault { IfErr result (IsErrorOfStatements text.now statements.now) }
{
    let mut image = Image {
        prog: Rom::zero(alloc)?,
        drom: Rom::zero(alloc)?,
    };
    let placing = lay_out(alloc, text, statements)?;
    fill_all(&mut image, text, &placing, statements)?;
    Ok(image)
}

/// Assembles a source: the image whose words stand at their places, with 0 at all other places, or the first fault
/// of the text. All memory but that of names and tokens is taken before it is needed.
pub fn assemble(alloc: Global, text: &[u8]) -> Result<Image, AsmError>
    requires { length text.now ≤ 1048576 }
    ensures image { IfOk result (IsImageOfText text.now) }
    ensures fault { IfErr result (IsErrorOf text.now) }
{
    let tokens = lex(alloc, text)?;
    let source = parse(alloc, text, &tokens)?;
    assemble_statements(alloc, text, source.as_slice())
}
