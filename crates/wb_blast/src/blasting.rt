//! Formulas whose satisfying assignments are the inputs under which a bit is true.
ghost use Rattle.std.specs.Prelude.{◌≡◌, [], ◌∷◌, ◌<◌, ◌≤◌, ◌^◌, ℕ, Some, IfOk, IfErr, length, slice_get};
ghost use Rattle.wb_gate.specs.declared.gates.Goal.{Goal};
ghost use Rattle.wb_gate.specs.Circuit.{variables, GoalBelow};
ghost use Rattle.wb_term.specs.declared.nodes.BitId.{BitId};
ghost use Rattle.wb_term.specs.Terms.{HasBit};
ghost use Rattle.wb_blast.specs.Blasting.{AreBlasted, IsBlasted, IsOver, goal_of};
ghost use Rattle.wb_equal.specs.Entries.{EntryBelow};
ghost use Rattle.wb_blast.specs.Meeting.{HasMet, IsMet};
ghost use Rattle.wb_blast.specs.Rows.{HasBitRows, AreBitRows};

use crate::building::build;
use crate::meeting::{Met, walk};
use crate::order::inputs_by_rank;
use crate::places::Place;
use crate::rows::Rows;
use std::alloc::Global;
use wb_equal::{Entry, Rooms, Sharing};
use wb_gate::{Formula, GateFault, Goal, clauses_say_the_gates, inputs_decide};
use wb_term::{BitId, Graph};
use wb_word::OutOfMemory;

/// The formula of a bit, and for each input variable its place.
#[derive(Drop)]
pub struct Blasted {
    pub formula: Formula,
    pub places: Vec<Place>,
    /// Values of the inputs under which the bit is likely true.
    pub likely: Option<Vec<bool>>,
}

/// The formula of some bits, for each input variable its place, and for each bit its entry.
#[derive(Drop)]
pub struct Many {
    pub formula: Formula,
    pub places: Vec<Place>,
    pub entries: Vec<Entry>,
    /// Values of the inputs under which a bit that is alone is likely true.
    pub likely: Option<Vec<bool>>,
}

/// The entries of the bits.
fn entries_of(alloc: Global, rows: &Rows, bits: &[BitId]) -> Result<Vec<Entry>, OutOfMemory>
    requires { HasBitRows rows.now bits.now }
    ensures { IfOk result (λ entries. AreBitRows rows.now bits.now entries.items) }
{
    let mut entries = Vec::with_capacity(alloc, bits.len())?;
    for at in 0..bits.len() {
        entries.push(rows.bit(bits[at]))?;
    }
    Ok(entries)
}

/// Values of the inputs under which an entry that is alone is likely true.
fn likely_of(
    alloc: Global,
    formula: &Sharing,
    entries: &[Entry],
) -> Result<Option<Vec<bool>>, OutOfMemory> {
    match entries {
        [entry] => formula.likely(alloc, *entry),
        _ => Ok(None),
    }
}

/// The formula of the nodes that were met, from one without gates.
fn fill(
    alloc: Global,
    graph: &Graph,
    bits: &[BitId],
    met: Met,
    mut formula: Sharing,
) -> Result<Many, OutOfMemory>
    requires there { (k : ℕ) (bit : BitId) → slice_get bits.now k ≡ Some bit → HasBit graph.now bit }
    requires met { HasMet graph.now bits.now met }
    requires within { met.weight ≤ formula.limit }
    requires few { formula.limit ≤ 2 ^ 31 }
    requires empty { formula ≡ record { inputs = length met.places.items; limit = formula.limit; gates = []; goal = Goal.Never } }
    ensures { IfOk result (λ many. AreBlasted graph.now bits.now formula.limit many.formula many.places.items many.entries.items) }
{
    let Met {
        slots,
        places,
        weight: _,
    } = met;
    let mut rows = Rows {
        places,
        slots,
        words: Vec::new(alloc),
        bits: Vec::new(alloc),
    };
    build(&mut formula, graph, &mut rows)?;
    let entries = entries_of(alloc, &rows, bits)?;
    let likely = likely_of(alloc, &formula, entries.as_slice())?;
    let Rows {
        places,
        slots: _,
        words: _,
        bits: _,
    } = rows;
    Ok(Many {
        formula: formula.into_formula(),
        places,
        entries,
        likely,
    })
}

/// The formula of the nodes that were met.
fn blast_met(
    alloc: Global,
    graph: &Graph,
    bits: &[BitId],
    limit: u64,
    rooms: Rooms,
    met: Met,
) -> Result<Many, OutOfMemory>
    requires there { (k : ℕ) (bit : BitId) → slice_get bits.now k ≡ Some bit → HasBit graph.now bit }
    requires met { HasMet graph.now bits.now met }
    requires within { met.weight ≤ limit }
    requires few { limit ≤ 2 ^ 31 }
    ensures { IfOk result (λ many. AreBlasted graph.now bits.now limit many.formula many.places.items many.entries.items) }
{
    let order = inputs_by_rank(alloc, met.places.as_slice())?;
    let inputs = met.places.len() as u32;
    let formula = Sharing::within(alloc, inputs, limit, order.as_slice(), rooms)?;
    fill(alloc, graph, bits, met, formula)
}

/// The formula of some bits, with at most so many gates: in a formula that is refused none is made.
pub fn blast_many(
    alloc: Global,
    graph: &Graph,
    bits: &[BitId],
    limit: u64,
) -> Result<Many, GateFault>
    requires there { (k : ℕ) (bit : BitId) → slice_get bits.now k ≡ Some bit → HasBit graph.now bit }
    requires few { limit ≤ 2 ^ 31 }
    ensures blasted { IfOk result (λ many. AreBlasted graph.now bits.now limit many.formula many.places.items many.entries.items) }
    ensures full { IfErr result (λ fault. fault ≡ GateFault.Full → IsOver graph.now bits.now limit) }
{
    many_within(alloc, graph, bits, limit, Rooms::default())
}

/// The formula of some bits, and what its diagrams may take.
fn many_within(
    alloc: Global,
    graph: &Graph,
    bits: &[BitId],
    limit: u64,
    rooms: Rooms,
) -> Result<Many, GateFault>
    requires there { (k : ℕ) (bit : BitId) → slice_get bits.now k ≡ Some bit → HasBit graph.now bit }
    requires few { limit ≤ 2 ^ 31 }
    ensures blasted { IfOk result (λ many. AreBlasted graph.now bits.now limit many.formula many.places.items many.entries.items) }
    ensures full { IfErr result (λ fault. fault ≡ GateFault.Full → IsOver graph.now bits.now limit) }
{
    let Ok(met) = walk(alloc, graph, bits) else {
        return Err(GateFault::OutOfMemory);
    };
    if met.weight > limit {
        return Err(GateFault::Full);
    }
    let Ok(many) = blast_met(alloc, graph, bits, limit, rooms, met) else {
        return Err(GateFault::OutOfMemory);
    };
    Ok(many)
}

/// The goal that an entry is true.
fn goal_of(entry: Entry) -> Goal
    ensures goal { result ≡ goal_of entry }
    ensures there { (n : ℕ) → EntryBelow n entry → GoalBelow n result }
{
    match entry {
        Entry::T => Goal::Always,
        Entry::F => Goal::Never,
        Entry::Lit(lit) => Goal::Lit(lit),
    }
}

/// The formula of a bit, with at most so many gates.
///
/// Its input variables are numbered in the order in which a walk from the bit meets the inputs, which goes into the
/// condition of a choice before what it chooses.
pub fn blast(alloc: Global, graph: &Graph, bit: BitId, limit: u64) -> Result<Blasted, GateFault>
    requires there { HasBit graph.now bit }
    requires few { limit ≤ 2 ^ 31 }
    ensures blasted { IfOk result (λ made. IsBlasted graph.now bit limit made.formula made.places.items) }
    ensures full { IfErr result (λ fault. fault ≡ GateFault.Full → IsOver graph.now (bit ∷ []) limit) }
{
    blast_within(alloc, graph, bit, limit, Rooms::default())
}

/// The formula of a bit as `blast` makes it, and what its diagrams may take.
pub fn blast_within(
    alloc: Global,
    graph: &Graph,
    bit: BitId,
    limit: u64,
    rooms: Rooms,
) -> Result<Blasted, GateFault>
    requires there { HasBit graph.now bit }
    requires few { limit ≤ 2 ^ 31 }
    ensures blasted { IfOk result (λ made. IsBlasted graph.now bit limit made.formula made.places.items) }
    ensures full { IfErr result (λ fault. fault ≡ GateFault.Full → IsOver graph.now (bit ∷ []) limit) }
{
    clauses_say_the_gates();
    inputs_decide();
    let _nodes = graph.len();
    let many = many_within(alloc, graph, &[bit], limit, rooms)?;
    let Many {
        mut formula,
        places,
        entries,
        likely,
    } = many;
    formula.set_goal(goal_of(entries[0]));
    Ok(Blasted {
        formula,
        places,
        likely,
    })
}
