//! Whether values satisfy a formula.
ghost use Rattle.std.specs.Prelude.{◌≡◌, true, length, IsTrue, ◌↔◌};
ghost use Rattle.std.specs.List.{list_all, list_any};
ghost use Rattle.wb_gate.specs.Circuit.{lit_value};
ghost use Rattle.wb_gate.specs.Clauses.{satisfies_clause, clauses_of};
ghost use Rattle.wb_query.specs.Asking.{AreSatisfying};
ghost use Rattle.wb_query.specs.Oracles.{assigned};

use wb_gate::{Formula, Lit};

/// Whether a literal is true.
pub(crate) fn is_true(values: &[bool], lit: Lit) -> bool
    ensures { result ≡ lit_value (assigned values.now) lit }
{
    let value = match values.get(lit.var as usize) {
        Some(value) => *value,
        None => false,
    };
    value != lit.neg
}

/// Whether some literal of a clause is true.
fn is_clause_true(values: &[bool], clause: &[Lit]) -> bool
    ensures { result ≡ satisfies_clause (assigned values.now) clause.now }
{
    clause.iter().any(|lit| is_true(values, *lit))
}

/// Whether each clause is true.
fn are_clauses_true(values: &[bool], formula: &Formula) -> bool
    ensures { result ≡ list_all (satisfies_clause (assigned values.now)) (clauses_of formula.now) }
{
    for number in 0..formula.clauses() {
        let Some(clause) = formula.clause_at(number) else {
            return true;
        };
        if !is_clause_true(values, clause.as_slice()) {
            return false;
        }
    }
    true
}

/// Whether there is a value for each variable, and these satisfy the formula.
pub fn is_satisfied(formula: &Formula, values: &[bool]) -> bool
    ensures { IsTrue result ↔ AreSatisfying formula.now values.now }
{
    values.len() == formula.variables() as usize && are_clauses_true(values, formula)
}
