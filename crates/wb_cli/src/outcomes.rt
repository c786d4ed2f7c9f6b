//! What the work of a call gives, and its report.
ghost use Rattle.std.specs.Prelude.{◌≡◌, ◌≤◌, IfOk};
ghost use Rattle.wb_report.specs.Verdicts.{Begins};
ghost use Rattle.wb_cli.specs.Report.{IsReply, IsTextOf, demo_line, transcript_ending, words_line};

use crate::comparing::Compared;
use crate::replies::Reply;
use crate::statuses::Ending;
use crate::texts::Text;
use std::alloc::Global;
use wb_dis::disassemble;
use wb_rom::Image;
use wb_session::{Ended, Transcript, transcript_text};
use wb_word::OutOfMemory;

/// What a command gives whose files are valid.
#[derive(Drop)]
pub enum Outcome {
    /// The script was run.
    Ran(Transcript),
    /// The source was assembled.
    Assembled(Image),
    /// The image is to be listed.
    Listed(Image),
    /// The moves were made.
    Traced(Text),
    /// The images were compared.
    Compared(Compared),
    /// The demo pair of this number was compared.
    Demonstrated(u64, Compared),
}

impl Outcome {
    /// The report, and how a call ends that writes it whole.
    pub fn into_reply(self, alloc: Global) -> Result<Reply, OutOfMemory>
        ensures { IfOk result (λ reply. IsReply (Ok self) reply.ending reply.text.items) }
    {
        match self {
            Outcome::Ran(transcript) => {
                let ending = run_ending(transcript.ended);
                let text = transcript_text(alloc, &transcript)?;
                Ok(Reply { ending, text })
            }
            Outcome::Assembled(image) => {
                let text = image.to_bytes(alloc)?;
                Ok(Reply {
                    ending: Ending::Fine,
                    text,
                })
            }
            Outcome::Listed(image) => {
                let text = disassemble(alloc, &image)?;
                Ok(Reply {
                    ending: Ending::Fine,
                    text,
                })
            }
            Outcome::Traced(text) => Ok(Reply {
                ending: Ending::Fine,
                text: text.into_vec(),
            }),
            Outcome::Compared(compared) => {
                let text = compared.text(alloc)?;
                let ending = compared.into_ending();
                Ok(Reply { ending, text })
            }
            Outcome::Demonstrated(number, compared) => {
                let text = demo_text(alloc, number, &compared)?;
                let ending = compared.into_ending();
                Ok(Reply { ending, text })
            }
        }
    }
}

/// How a run ends whose script ended so.
fn run_ending(ended: Ended) -> Ending
    ensures { result ≡ transcript_ending ended }
{
    match ended {
        Ended::Done => Ending::Fine,
        Ended::Early(_) | Ended::Silent(_) => Ending::Shown,
    }
}

/// The line of a demo, the line of its programs, and the text of its verdict.
fn demo_text(alloc: Global, number: u64, compared: &Compared) -> Result<Vec<u8>, OutOfMemory>
    ensures { IfOk result (λ text. Begins (demo_line number) (Begins words_line (IsTextOf compared.now)) text.items) }
{
    let head = format!(in alloc; "DEMO {number}\n")?;
    let mut text = head.into_bytes();
    text.extend_from_slice(b"WORDS 70 102\n")?;
    let verdict = compared.text(alloc)?;
    text.extend_from_slice(&verdict)?;
    Ok(text)
}
