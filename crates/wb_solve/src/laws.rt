//! What is true of every search.
ghost use Rattle.wb_solve.specs.Laws.{PropagationIsConfluent, OrderIsFree, StableValuesSatisfy, StepsAreFew, OutcomesAreOne};

use wb_gate::clauses_say_the_gates;

/// In whatever order unit clauses are taken, propagation meets a falsified clause in every order or in none, and
/// without one it ends with the same values.
pub fn propagation_is_confluent()
    ensures { PropagationIsConfluent }
{}

/// The clause or the values with which a descent ends don't depend on the order in which unit clauses are taken.
pub fn order_is_free()
    ensures { OrderIsFree }
{}

/// Where the inputs have values and no clause is falsified or unit, all variables have values, and these satisfy the
/// formula.
pub fn stable_values_satisfy()
    ensures { StableValuesSatisfy }
{
    clauses_say_the_gates();
}

/// A step that isn't empty contains no clause that was known, and there are at most two to the number of inputs.
pub fn steps_are_few()
    ensures { StepsAreFew }
{}

/// A search has one outcome at a limit.
pub fn outcomes_are_one()
    ensures { OutcomesAreOne }
{}
