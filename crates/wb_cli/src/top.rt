//! The call behind the program.
ghost use Rattle.std.specs.Prelude.{◌≡◌, ◌≤◌, ℕ, List, IfOk, map, string_bytes};
ghost use Rattle.wb_cli.specs.Answers.{Answers, IsRight};
ghost use Rattle.wb_cli.specs.Plan.{plan_of};

use crate::replies::{Reply, reply_to};
use crate::statuses::Status;
use crate::works::carried_out;
use std::alloc::Global;
use wb_base::{Shelf, Sink, put_all};
use wb_word::OutOfMemory;

/// Does what the words after the program's name ask for: reads the files that they name from the shelf, does the
/// work, and puts one report to the sink. The report is built whole before its first byte is written.
pub fn command<S: Shelf, W: Sink>(
    alloc: Global,
    words: &[String],
    shelf: &mut S,
    out: &mut W,
) -> Status
    ensures kept { (n : List ℕ) → S.content shelf.new n ≡ S.content shelf.old n }
    ensures later_reads { S.faults shelf.old ≤ S.faults shelf.new }
    ensures later_puts { W.faults out.old ≤ W.faults out.new }
    ensures unread { plan_of (map string_bytes words.now) ≡ None → shelf.new ≡ shelf.old }
    ensures unwritten { result ≡ Status.NoMemory → out.new ≡ out.old }
    ensures answers { Answers
        (record {
          told = S.content shelf.old;
          faults_before = S.faults shelf.old;
          faults_after = S.faults shelf.new;
          words = map string_bytes words.now;
        })
        (record {
          taken_before = W.taken out.old;
          taken_after = W.taken out.new;
          refused_before = W.faults out.old;
          refused_after = W.faults out.new;
        })
        result }
{
    match reply(alloc, words, shelf) {
        Ok(reply) => match put_all(out, &reply.text) {
            Ok(()) => reply.ending.status(),
            Err(_) => Status::WriteFault,
        },
        Err(OutOfMemory) => Status::NoMemory,
    }
}

/// Does what the words ask for, and makes the report.
fn reply<S: Shelf>(alloc: Global, words: &[String], shelf: &mut S) -> Result<Reply, OutOfMemory>
    ensures kept { (n : List ℕ) → S.content shelf.new n ≡ S.content shelf.old n }
    ensures later { S.faults shelf.old ≤ S.faults shelf.new }
    ensures unread { plan_of (map string_bytes words.now) ≡ None → shelf.new ≡ shelf.old }
    ensures right { IfOk result (λ reply. IsRight
        (record {
          told = S.content shelf.old;
          faults_before = S.faults shelf.old;
          faults_after = S.faults shelf.new;
          words = map string_bytes words.now;
        })
        reply.ending reply.text.items) }
{
    let came_to = carried_out(alloc, words, shelf)?;
    reply_to(alloc, came_to)
}
