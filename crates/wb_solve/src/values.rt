//! Truth values of the variables of a formula.
ghost use Rattle.std.specs.Prelude.{◌≡◌, IfOk, map};
ghost use Rattle.wb_solve.specs.Turns.{value_or_false};

use std::alloc::Global;
use std::marker::Model;
use wb_word::OutOfMemory;

/// A truth value for each variable, in order of number.
#[derive(Drop)]
pub struct Values {
    list: Vec<bool>,
}

impl Model for Values {
    ghost use Rattle.std.specs.Prelude.{Bool, List};

    ghost Value = { List Bool };

    ghost view = { λ values. values.list.items };
}

impl Values {
    /// These values.
    pub fn new(alloc: Global, list: &[bool]) -> Result<Values, OutOfMemory>
        ensures { IfOk result (λ values. values ≡ list.now) }
    {
        let list = list.to_vec(alloc)?;
        Ok(Values { list })
    }

    /// The values in order.
    pub fn list(&self) -> &[bool]
        ensures { result.now ≡ self.now }
    {
        self.list.as_slice()
    }

    /// The values with which a descent ends, where each variable has one.
    pub(crate) fn of_descent(alloc: Global, values: &[Option<bool>]) -> Result<Values, OutOfMemory>
        ensures { IfOk result (λ made. made ≡ map value_or_false values.now) }
    {
        let list = values
            .iter()
            .map(|value| value.unwrap_or(false))
            .collect(alloc)?;
        Ok(Values { list })
    }
}
