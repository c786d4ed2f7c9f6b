//! Values under which an entry is likely true.
ghost use Rattle.std.specs.Prelude.{◌≡◌, IfOk, IfSome, length};

use crate::entries::Entry;
use crate::sharing::Sharing;
use std::alloc::Global;
use wb_diagram::Turn;
use wb_word::OutOfMemory;

impl Sharing {
    /// Takes a turn, where it is at an input and not at a gate's own variable.
    fn take(&self, values: &mut [bool], turn: Turn)
        ensures { length values.new ≡ length values.old }
    {
        let at = self.functions.name(turn.variable) as usize;
        if at < values.len() {
            values[at] = turn.side;
        }
    }

    /// Values of the inputs that take these turns, and are false elsewhere.
    fn values_on(&self, alloc: Global, turns: &[Turn]) -> Result<Vec<bool>, OutOfMemory>
        ensures { IfOk result (λ values. length values.items ≡ self.now.inputs) }
    {
        let mut values = vec![in alloc; false; self.inputs() as usize]?;
        for turn in turns {
            self.take(&mut values, *turn);
        }
        Ok(values)
    }

    /// Values of the inputs under which the entry is likely true: those on the path of its diagram to true that goes
    /// low wherever it can. There are none where no diagram was found.
    ///
    /// The diagram may ask for the value of a gate, and the path then says nothing of the inputs below that gate: so
    /// the entry is only likely true.
    pub fn likely(&self, alloc: Global, entry: Entry) -> Result<Option<Vec<bool>>, OutOfMemory>
        ensures { IfOk result (λ found. IfSome found (λ values. length values.items ≡ self.now.inputs)) }
    {
        let turns = match entry {
            Entry::T => Some(Vec::new(alloc)),
            Entry::F => None,
            Entry::Lit(lit) => self.functions.path_of(alloc, lit)?,
        };
        let Some(turns) = turns else {
            return Ok(None);
        };
        let values = self.values_on(alloc, turns.as_slice())?;
        Ok(Some(values))
    }
}
