//! The report of what a call came to, taken whole before a byte of it is written.
ghost use Rattle.std.specs.Prelude.{◌≡◌, ◌++◌, ◌∷◌, [], IfOk};
ghost use Rattle.wb_cli.specs.Report.{IsReply, refusal_line};

use crate::outcomes::Outcome;
use crate::refusals::Refusal;
use crate::statuses::Ending;
use std::alloc::Global;
use wb_word::OutOfMemory;

/// A report, and how a call ends that writes it whole.
#[derive(Drop)]
pub struct Reply {
    pub ending: Ending,
    pub text: Vec<u8>,
}

/// The reply to what a call came to.
pub fn reply_to(alloc: Global, came_to: Result<Outcome, Refusal>) -> Result<Reply, OutOfMemory>
    ensures { IfOk result (λ reply. IsReply came_to reply.ending reply.text.items) }
{
    match came_to {
        Ok(outcome) => outcome.into_reply(alloc),
        Err(refusal) => {
            let text = refusal_text(alloc, refusal)?;
            Ok(Reply {
                ending: refusal.ending(),
                text,
            })
        }
    }
}

/// The line of a refusal, with its line feed.
fn refusal_text(alloc: Global, refusal: Refusal) -> Result<Vec<u8>, OutOfMemory>
    ensures { IfOk result (λ text. text.items ≡ refusal_line refusal ++ 10 ∷ []) }
{
    let line = format!(in alloc; "{refusal}\n")?;
    Ok(line.into_bytes())
}
