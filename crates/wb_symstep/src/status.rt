ghost use Rattle.std.specs.Prelude.{◌≡◌, ◌+◌, ◌*◌, ◌≤◌, ◌^◌, [], ◌∷◌, IfOk, length};
ghost use Rattle.wb_term.specs.Numbers.{bit};
ghost use Rattle.wb_term.specs.Terms.{HasWord};
ghost use Rattle.wb_term.specs.Values.{IsWord, word_value};
ghost use Rattle.wb_term.specs.Growth.{Grown, AddsAtMost};
ghost use Rattle.wb_make.specs.Inputs.{BringsOnly};
ghost use Rattle.wb_machine.specs.Next.{merged};
ghost use Rattle.wb_symstep.specs.State.{status};

use crate::words::masked;
use wb_make::{mk_const, mk_or};
use wb_term::{Graph, OutOfMemory, WordId};

/// RQM and DRS in their bits of SR.
fn request_bits(rqm: bool, drs: bool) -> u16
    ensures { result ≡ bit rqm * 32768 + bit drs * 4096 }
{
    (u16::from(rqm) << 15) + (u16::from(drs) << 12)
}

/// The whole status register.
#[tactic(auto, using(crate::proofs::BitLaws::status_is))]
pub(crate) fn status_word(
    graph: &mut Graph,
    rqm: bool,
    drs: bool,
    sr: WordId,
) -> Result<WordId, OutOfMemory>
    requires sr { HasWord graph.old sr }
    requires room { length graph.old.nodes + 4 ≤ 2 ^ 31 }
    ensures value { IfOk result (λ id. IsWord graph.new id (λ inputs. status rqm drs (word_value inputs graph.old sr))) }
    ensures inputs { IfOk result (λ id. BringsOnly graph.old graph.new (sr.number ∷ []) id.number) }
    ensures grown { Grown graph.old graph.new }
    ensures adds { AddsAtMost graph.old graph.new 4 32 }
{
    let _sr = graph.word_at(sr);
    let others = masked(graph, sr, 0x6FFF)?;
    let requests = mk_const(graph, request_bits(rqm, drs))?;
    mk_or(graph, others, requests)
}

/// SR after a move to it: it writes bits 14, 13, 11 to 7, 1 and 0, and keeps the others.
pub(crate) fn merge_status(
    graph: &mut Graph,
    bus: WordId,
    sr: WordId,
) -> Result<WordId, OutOfMemory>
    requires bus { HasWord graph.old bus }
    requires sr { HasWord graph.old sr }
    requires room { length graph.old.nodes + 5 ≤ 2 ^ 31 }
    ensures value { IfOk result (λ id. IsWord graph.new id (λ inputs. merged (word_value inputs graph.old bus) (word_value inputs graph.old sr))) }
    ensures inputs { IfOk result (λ id. BringsOnly graph.old graph.new (bus.number ∷ sr.number ∷ []) id.number) }
    ensures grown { Grown graph.old graph.new }
    ensures adds { AddsAtMost graph.old graph.new 5 48 }
{
    let _sr = graph.word_at(sr);
    let written = masked(graph, bus, 0x6F83)?;
    let kept = masked(graph, sr, 0x907C)?;
    mk_or(graph, written, kept)
}
