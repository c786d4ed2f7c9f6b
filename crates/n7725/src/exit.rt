//! What the process answers, and the status with which it ends.
ghost use Rattle.std.specs.Prelude.{◌≡◌};
ghost use Rattle.std.specs.Process.{exit_status};
ghost use Rattle.wb_cli.specs.Status.{status_number};
ghost use Rattle.n7725.specs.Exit.{IsExit};

use crate::words::NoWords;
use std::alloc::Global;
use std::process::ExitCode;
use wb_base::{Shelf, Sink};
use wb_cli::{Status, command};

/// Makes the call of these words. Words that are no text are a faulty command line, as no word at all is.
pub fn answer<S: Shelf, W: Sink>(
    alloc: Global,
    words: Result<Vec<String>, NoWords>,
    shelf: &mut S,
    out: &mut W,
) -> Status
    ensures unwritten { result ≡ Status.NoMemory → out.new ≡ out.old }
    ensures answers { IsExit (S.content shelf.old) (S.faults shelf.old) (S.faults shelf.new)
        (record {
          taken_before = W.taken out.old;
          taken_after = W.taken out.new;
          refused_before = W.faults out.old;
          refused_after = W.faults out.new;
        })
        words result }
{
    match words {
        Ok(words) => command(alloc, &words, shelf, out),
        Err(NoWords::NotText) => command(alloc, &[], shelf, out),
        Err(NoWords::OutOfMemory) => Status::NoMemory,
    }
}

/// The exit status of the process.
pub fn exit_code(status: &Status) -> ExitCode
    ensures { exit_status result ≡ status_number status.now }
{
    ExitCode::from(status.number())
}
