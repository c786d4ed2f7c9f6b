//! What is true of every circuit.
ghost use Rattle.wb_gate.specs.Laws.{ClausesSayTheGates, InputsDecide};

/// An assignment satisfies the gates' clauses exactly where each gate's variable has the gate's value.
pub fn clauses_say_the_gates()
    ensures { ClausesSayTheGates }
{}

/// For any values of the inputs one assignment of the circuit's variables obeys the gates.
pub fn inputs_decide()
    ensures { InputsDecide }
{}
