//! The names of a source, and the numbers that they stand for.
ghost use Rattle.std.specs.Prelude.{◌≡◌, [], ◌∷◌, ◌++◌, None, OnOk};
ghost use Rattle.wb_asm.specs.Value.{number_named};

use indexmap::IndexMap;
use std::alloc::{AllocFailed, Global};
use std::marker::Model;

/// Names in the order of their definitions, each with its number.
#[derive(Drop)]
pub struct Names<'a> {
    numbers: IndexMap<&'a [u8], i64>,
}

impl<'a> Model for Names<'a> {
    ghost use Rattle.std.specs.Prelude.{map};
    ghost use Rattle.wb_asm.specs.Value.{Names};

    ghost Value = { Names };

    ghost view = { λ names. map (λ entry. (entry.0.now, entry.1)) names.numbers.entries };
}

impl<'a> Names<'a> {
    /// No names.
    pub(crate) fn new(alloc: Global) -> Self
        ensures { result ≡ [] }
    {
        Names {
            numbers: IndexMap::new(alloc),
        }
    }

    /// The number of a name.
    pub(crate) fn number(&self, name: &[u8]) -> Option<i64>
        ensures { result ≡ number_named self.now name.now }
    {
        self.numbers.get(name).copied()
    }

    /// Defines a name that has no number yet.
    pub(crate) fn define(
        &mut self,
        name: &'a [u8],
        number: i64,
    ) -> Result<(), AllocFailed<(&'a [u8], i64)>>
        requires { number_named self.old name.now ≡ None }
        ensures { OnOk result (self.new ≡ self.old ++ (name.now, number) ∷ []) }
    {
        self.numbers.insert(name, number)?;
        Ok(())
    }
}
