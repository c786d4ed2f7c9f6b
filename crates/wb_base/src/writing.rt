//! A text is put whole.
ghost use Rattle.std.specs.Prelude.{◌≤◌};
ghost use Rattle.wb_base.specs.Sink.{IsPutting};

use crate::{Failed, Sink};

/// Puts the text from its front to its end, in as many puts as the sink makes of it.
pub fn put_all<W: Sink>(out: &mut W, text: &[u8]) -> Result<(), Failed>
    ensures later { W.faults out.old ≤ W.faults out.new }
    ensures put { IsPutting (W.taken out.old) (W.taken out.new) (W.faults out.old) (W.faults out.new) text.now result }
{
    let mut at = 0;
    'putting: while at < text.len() {
        at += out.put(&text[at..])?;
    }
    Ok(())
}
