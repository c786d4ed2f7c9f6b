ghost use Rattle.std.specs.Prelude.{◌≡◌, ◌+◌, ◌*◌, ◌<◌, ◌≤◌, ◌^◌, Bool, false, IfOk, Contains, length};
ghost use Rattle.wb_rom.specs.declared.images.Image.{Image};
ghost use Rattle.wb_term.specs.declared.nodes.Node.{Node};
ghost use Rattle.wb_term.specs.Terms.{HasBit};
ghost use Rattle.wb_term.specs.Values.{IsBit};
ghost use Rattle.wb_term.specs.Under.{HasOnly};
ghost use Rattle.wb_term.specs.Growth.{Grown, AddsAtMost};
ghost use Rattle.wb_port.specs.Port.{status_byte, byte_read};
ghost use Rattle.wb_symstep.specs.State.{IsSymState, StateHasOnly};
ghost use Rattle.wb_symport.specs.Transfer.{IsTold};
ghost use Rattle.wb_explore.specs.declared.layer.Request.{Request};
ghost use Rattle.wb_explore.specs.Plans.{is_chosen};
ghost use Rattle.wb_explore.specs.Layers.{IsRequest, IsLayer};
ghost use Rattle.wb_replies.specs.Circuits.{IsCircuit, CircuitHasOnly, TellsReplies};
ghost use Rattle.wb_replies.specs.Gathering.{IsEither, IsAlso, Gathers};

use crate::circuit::ReplyCircuit;
use wb_explore::{Layer, Request};
use wb_law::requests_are_one;
use wb_make::{mk_const, mk_ite, mk_known, mk_orb};
use wb_symport::{sym_read, sym_status};
use wb_symstep::states_stay;
use wb_term::{Graph, OutOfMemory};

/// The circuit of a layer's replies. One request state alone needs no choice, and its terms are the circuit's.
pub fn replies(graph: &mut Graph, layer: &Layer) -> Result<ReplyCircuit, OutOfMemory>
    requires each { (q : Request) → Contains layer.now.requests q → IsRequest graph.old layer.now.plan q }
    requires room { length graph.old.nodes + (35 * length layer.now.requests + 2) ≤ 2 ^ 31 }
    ensures there { IfOk result (IsCircuit graph.new) }
    ensures tells { IfOk result (λ c. (image : Image) → IsLayer graph.old image layer.now →
        TellsReplies graph.new image layer.now.plan c) }
    ensures inputs { IfOk result (CircuitHasOnly graph.new (is_chosen layer.now.plan.kinds layer.now.plan.power)) }
    ensures grown { Grown graph.old graph.new }
    ensures adds { AddsAtMost graph.old graph.new (35 * length layer.now.requests + 2) (545 * length layer.now.requests) }
{
    requests_are_one();
    if layer.len() == 0 {
        return no_replies(graph);
    }
    gathered(graph, layer)
}

/// A circuit that is never present.
fn no_replies(graph: &mut Graph) -> Result<ReplyCircuit, OutOfMemory>
    requires room { length graph.old.nodes + 2 ≤ 2 ^ 31 }
    ensures there { IfOk result (IsCircuit graph.new) }
    ensures never { IfOk result (λ c. IsBit graph.new c.present (λ _. false)) }
    ensures inputs { IfOk result (λ c. (allowed : Node → Bool) → CircuitHasOnly graph.new allowed c) }
    ensures grown { Grown graph.old graph.new }
    ensures adds { AddsAtMost graph.old graph.new 2 0 }
{
    let present = mk_known(graph, false)?;
    let nothing = mk_const(graph, 0)?;
    Ok(ReplyCircuit {
        present,
        status: nothing,
        read: nothing,
    })
}

/// The replies of some request states, of which there is one at least.
fn gathered(graph: &mut Graph, layer: &Layer) -> Result<ReplyCircuit, OutOfMemory>
    requires some { 0 < length layer.now.requests }
    requires each { (q : Request) → Contains layer.now.requests q → IsRequest graph.old layer.now.plan q }
    requires room { length graph.old.nodes + 35 * length layer.now.requests ≤ 2 ^ 31 }
    ensures gathers { IfOk result (Gathers graph.old graph.new (is_chosen layer.now.plan.kinds layer.now.plan.power) layer.now.requests) }
    ensures grown { Grown graph.old graph.new }
    ensures adds { AddsAtMost graph.old graph.new (35 * length layer.now.requests) (545 * length layer.now.requests) }
{
    states_stay();
    let mut circuit = replies_at(graph, layer.request_at(0))?;
    for at in 1..layer.len() {
        circuit = with_request(graph, circuit, layer.request_at(at))?;
    }
    Ok(circuit)
}

/// The replies at a request state.
fn replies_at(graph: &mut Graph, request: &Request) -> Result<ReplyCircuit, OutOfMemory>
    requires state { IsSymState graph.old request.now.state }
    requires cond { HasBit graph.old request.now.cond }
    requires room { length graph.old.nodes + 32 ≤ 2 ^ 31 }
    ensures there { IfOk result (IsCircuit graph.new) }
    ensures present { IfOk result (λ c. c.present ≡ request.now.cond) }
    ensures status { IfOk result (λ c. IsTold graph.old graph.new request.now.state c.status status_byte) }
    ensures read { IfOk result (λ c. IsTold graph.old graph.new request.now.state c.read byte_read) }
    ensures inputs { IfOk result (λ c. (allowed : Node → Bool) → HasOnly graph.old allowed request.now.cond.number →
        StateHasOnly graph.old allowed request.now.state → CircuitHasOnly graph.new allowed c) }
    ensures grown { Grown graph.old graph.new }
    ensures adds { AddsAtMost graph.old graph.new 32 512 }
{
    states_stay();
    let status = sym_status(graph, &request.state)?;
    let (read, _) = sym_read(graph, &request.state)?;
    Ok(ReplyCircuit {
        present: request.cond,
        status,
        read,
    })
}

/// The circuit with the replies at one more request state.
fn with_request(
    graph: &mut Graph,
    circuit: ReplyCircuit,
    request: &Request,
) -> Result<ReplyCircuit, OutOfMemory>
    requires circuit { IsCircuit graph.old circuit }
    requires state { IsSymState graph.old request.now.state }
    requires cond { HasBit graph.old request.now.cond }
    requires room { length graph.old.nodes + 35 ≤ 2 ^ 31 }
    ensures there { IfOk result (IsCircuit graph.new) }
    ensures also { IfOk result (IsAlso graph.old graph.new circuit request.now) }
    ensures inputs { IfOk result (λ c. (allowed : Node → Bool) → CircuitHasOnly graph.old allowed circuit →
        HasOnly graph.old allowed request.now.cond.number → StateHasOnly graph.old allowed request.now.state →
        CircuitHasOnly graph.new allowed c) }
    ensures grown { Grown graph.old graph.new }
    ensures adds { AddsAtMost graph.old graph.new 35 545 }
{
    let here = replies_at(graph, request)?;
    either(graph, circuit, here)
}

/// One circuit for two.
fn either(
    graph: &mut Graph,
    first: ReplyCircuit,
    second: ReplyCircuit,
) -> Result<ReplyCircuit, OutOfMemory>
    requires first { IsCircuit graph.old first }
    requires second { IsCircuit graph.old second }
    requires room { length graph.old.nodes + 3 ≤ 2 ^ 31 }
    ensures value { IfOk result (IsEither graph.old graph.new first second) }
    ensures inputs { IfOk result (λ c. (allowed : Node → Bool) → CircuitHasOnly graph.old allowed first →
        CircuitHasOnly graph.old allowed second → CircuitHasOnly graph.new allowed c) }
    ensures grown { Grown graph.old graph.new }
    ensures adds { AddsAtMost graph.old graph.new 3 33 }
{
    let status = mk_ite(graph, second.present, second.status, first.status)?;
    let read = mk_ite(graph, second.present, second.read, first.read)?;
    let present = mk_orb(graph, first.present, second.present)?;
    Ok(ReplyCircuit {
        present,
        status,
        read,
    })
}
