ghost use Rattle.std.specs.Prelude.{◌≡◌, ◌+◌, ◌*◌, ◌/◌, ◌≤◌, ◌^◌, bit_and, [], ◌∷◌, IfOk, length};
ghost use Rattle.wb_term.specs.Numbers.{bit};
ghost use Rattle.wb_term.specs.Terms.{HasWord};
ghost use Rattle.wb_term.specs.Values.{IsWord, word_value};
ghost use Rattle.wb_term.specs.Growth.{Grown, AddsAtMost};
ghost use Rattle.wb_make.specs.Inputs.{BringsOnly};
ghost use Rattle.wb_symstep.specs.State.{status};

use crate::halves::masked;
use wb_make::{mk_const, mk_or, mk_shr};
use wb_term::{Graph, OutOfMemory, WordId};

/// RQM and DRS in their bits of the status byte.
fn request_bits(rqm: bool, drs: bool) -> u16
    ensures { result ≡ bit rqm * 128 + bit drs * 16 }
{
    (u16::from(rqm) << 7) + (u16::from(drs) << 4)
}

/// The other bits of the status byte.
fn other_bits(graph: &mut Graph, sr: WordId) -> Result<WordId, OutOfMemory>
    requires sr { HasWord graph.old sr }
    requires room { length graph.old.nodes + 3 ≤ 2 ^ 31 }
    ensures value { IfOk result (λ id. IsWord graph.new id (λ inputs. bit_and (word_value inputs graph.old sr / 256) 0x6F)) }
    ensures inputs { IfOk result (λ id. BringsOnly graph.old graph.new (sr.number ∷ []) id.number) }
    ensures grown { Grown graph.old graph.new }
    ensures adds { AddsAtMost graph.old graph.new 3 16 }
{
    let high = mk_shr(graph, sr, 8)?;
    masked(graph, high, 0x6F)
}

/// The status byte: RQM and DRS over the other bits of the term.
#[tactic(auto, using(crate::proofs::BitLaws::status_byte_is))]
pub(crate) fn status_byte(
    graph: &mut Graph,
    rqm: bool,
    drs: bool,
    sr: WordId,
) -> Result<WordId, OutOfMemory>
    requires sr { HasWord graph.old sr }
    requires room { length graph.old.nodes + 5 ≤ 2 ^ 31 }
    ensures value { IfOk result (λ id. IsWord graph.new id (λ inputs. status rqm drs (word_value inputs graph.old sr) / 256)) }
    ensures inputs { IfOk result (λ id. BringsOnly graph.old graph.new (sr.number ∷ []) id.number) }
    ensures grown { Grown graph.old graph.new }
    ensures adds { AddsAtMost graph.old graph.new 5 32 }
{
    let _sr = graph.word_at(sr);
    let others = other_bits(graph, sr)?;
    let requests = mk_const(graph, request_bits(rqm, drs))?;
    mk_or(graph, others, requests)
}
