//! Values that are tried on the formula of a bit: those that an oracle gives, and those that are likely.
ghost use Rattle.std.specs.Prelude.{IfOk, IfSome, IfNone};
ghost use Rattle.wb_query.specs.Asking.{IsFound, IsFormulaOf, AreSatisfying};

use crate::asking::Found;
use crate::filling::inputs_of;
use crate::satisfaction::{is_satisfied, is_true};
use std::alloc::Global;
use wb_blast::Blasted;
use wb_gate::{Formula, Gate};
use wb_term::{BitId, Graph};
use wb_word::OutOfMemory;

/// The value of a gate.
fn gate_value(values: &[bool], gate: Gate) -> bool {
    match gate {
        Gate::And(x, y) => is_true(values, x) && is_true(values, y),
        Gate::Xor(x, y) => is_true(values, x) != is_true(values, y),
        Gate::Mux(test, x, y) => is_true(values, if is_true(values, test) { x } else { y }),
        Gate::Maj(x, y, z) => {
            let (x, y, z) = (is_true(values, x), is_true(values, y), is_true(values, z));
            x && y || x && z || y && z
        }
    }
}

/// Values of the inputs, with the value of each gate behind them.
fn with_gates(alloc: Global, formula: &Formula, inputs: &[bool]) -> Result<Vec<bool>, OutOfMemory> {
    let mut values = Vec::from_slice(alloc, inputs)?;
    for number in 0..formula.gates() {
        let value = gate_value(values.as_slice(), formula.gate_at(number));
        values.push(value)?;
    }
    Ok(values)
}

/// The inputs of values under which the bit is true, where they satisfy its formula.
pub fn try_values(
    alloc: Global,
    graph: &Graph,
    bit: BitId,
    blasted: &Blasted,
    values: &[bool],
) -> Result<Option<Found>, OutOfMemory>
    requires { IsFormulaOf graph.now bit blasted.now }
    ensures found { IfOk result (λ found. IfSome found (IsFound graph.now bit)) }
    ensures none { IfOk result (λ found. IfNone found (AreSatisfying blasted.now.formula values.now → ⊥)) }
{
    let _nodes = graph.len();
    if !is_satisfied(&blasted.formula, values) {
        return Ok(None);
    }
    let inputs = inputs_of(alloc, blasted.places.as_slice(), values)?;
    Ok(Some(Found::Holds(inputs)))
}

/// The inputs of the likely values, where the bit is true under them.
pub fn try_likely(
    alloc: Global,
    graph: &Graph,
    bit: BitId,
    blasted: &Blasted,
) -> Result<Option<Found>, OutOfMemory>
    requires { IsFormulaOf graph.now bit blasted.now }
    ensures { IfOk result (λ found. IfSome found (IsFound graph.now bit)) }
{
    let Some(inputs) = &blasted.likely else {
        return Ok(None);
    };
    let values = with_gates(alloc, &blasted.formula, inputs.as_slice())?;
    try_values(alloc, graph, bit, blasted, values.as_slice())
}
