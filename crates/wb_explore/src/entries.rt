ghost use Rattle.std.specs.Prelude.{◌≡◌, ◌≢◌, ◌<◌, ◌≤◌, ℕ, length, slice_index_or, All};
ghost use Rattle.wb_explore.specs.declared.entries.Entry.{Entry};
ghost use Rattle.wb_explore.specs.Pending.{IsPlaceOf, IsTakenLeast};

use wb_point::{SymState, same_key};
use wb_port::Point;
use wb_term::{BitId, Inputs};

/// A place that some held runs pass: a chip there, and which runs these are.
#[derive(Drop)]
pub(crate) struct Entry {
    pub key: Point,
    /// That of the point. Each instruction raises it.
    pub rank: u32,
    pub state: SymState,
    /// Whether the held run passes the point.
    pub cond: BitId,
    /// The inputs of a run that does, where one was found.
    pub witness: Option<Inputs>,
}

/// The place of the entry with this point.
pub(crate) fn place_of(pending: &[Entry], key: &Point) -> Option<usize>
    ensures { IsPlaceOf pending.now key.now result }
{
    for place in 0..pending.len() {
        if same_key(&pending[place].key, key) {
            return Some(place);
        }
    }
    None
}

/// The place of an entry of the least rank.
fn least_place(pending: &[Entry]) -> usize
    requires { 0 < length pending.now }
    ensures within { result < length pending.now }
    ensures least { (d : Entry) → All (λ f. (slice_index_or pending.now result d).rank ≤ f.rank) pending.now }
{
    let mut best = 0;
    let mut rank = pending[0].rank;
    for place in 0..pending.len() {
        let here = pending[place].rank;
        if here < rank {
            best = place;
            rank = here;
        }
    }
    best
}

/// Takes out an entry of the least rank.
pub(crate) fn take_least(pending: &mut Vec<Entry>) -> Option<Entry>
    ensures { IsTakenLeast pending.old.items pending.new.items result }
{
    if pending.is_empty() {
        return None;
    }
    let place = least_place(pending);
    Some(pending.remove(place))
}
