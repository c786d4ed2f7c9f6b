use crate::plan::Plan;
use std::marker::Model;
use wb_port::{Dialogue, Kind};
use wb_symstep::SymState;
use wb_term::{BitId, Inputs};
use wb_word::Side;

/// A chip at its first request after some transfers.
#[derive(Drop)]
pub struct Request {
    pub state: SymState,
    /// Whether the held run comes here.
    pub cond: BitId,
    /// The inputs of a dialogue whose held run comes here.
    pub inputs: Inputs,
}

/// The request states of one side for some kinds of transfers.
#[derive(Drop)]
pub struct Layer {
    pub(crate) plan: Plan,
    pub(crate) requests: Vec<Request>,
    pub(crate) overrun: Option<Dialogue>,
}

impl Model for Layer {
    ghost use Rattle.wb_explore.specs.Layers.{Requests};

    ghost Value = { Requests };

    ghost view = { λ l. record { plan = l.plan; requests = l.requests.items; overrun = l.overrun } };
}

impl Layer {
    ghost use Rattle.std.specs.Prelude.{◌≡◌, ◌<◌, Some, length, slice_get, option_map};

    pub fn side(&self) -> Side
        ensures { result ≡ self.now.plan.side }
    {
        self.plan.side
    }

    /// The kinds of the transfers so far.
    pub fn kinds(&self) -> &[Kind]
        ensures { result.now ≡ self.now.plan.kinds }
    {
        self.plan.kinds.list()
    }

    /// The pace and the power with which the layers were begun.
    pub fn plan(&self) -> &Plan
        ensures { result.now ≡ self.now.plan }
    {
        &self.plan
    }

    /// How many request states there are.
    pub fn len(&self) -> usize
        ensures { result ≡ length self.now.requests }
    {
        self.requests.len()
    }

    /// The request state at a place.
    pub fn request_at(&self, at: usize) -> &Request
        requires { at < length self.now.requests }
        ensures { slice_get self.now.requests at ≡ Some result.now }
    {
        &self.requests[at]
    }

    pub fn state_at(&self, at: usize) -> &SymState
        requires { at < length self.now.requests }
        ensures { option_map (λ q. q.state) (slice_get self.now.requests at) ≡ Some result.now }
    {
        &self.requests[at].state
    }

    pub fn cond_at(&self, at: usize) -> BitId
        requires { at < length self.now.requests }
        ensures { option_map (λ q. q.cond) (slice_get self.now.requests at) ≡ Some result }
    {
        self.requests[at].cond
    }

    pub fn inputs_at(&self, at: usize) -> &Inputs
        requires { at < length self.now.requests }
        ensures { option_map (λ q. q.inputs) (slice_get self.now.requests at) ≡ Some result.now }
    {
        &self.requests[at].inputs
    }

    /// A dialogue whose held run overruns, found in making this layer or an earlier one.
    pub fn overrun(&self) -> Option<&Dialogue>
        ensures { option_map (λ d. d.now) result ≡ self.now.overrun }
    {
        self.overrun.as_ref()
    }
}
