//! The order in which diagrams ask for the inputs.
ghost use Rattle.std.specs.Prelude.{◌≡◌, ℕ, List, IfOk, IfSome, slice_get};
ghost use Rattle.wb_equal.specs.Order.{name_of};

use std::alloc::Global;
use std::marker::Model;
use wb_word::OutOfMemory;

/// Which variable of a formula each variable of its diagrams stands for.
#[derive(Drop)]
pub struct Order {
    /// The inputs, those first for which diagrams ask first.
    names: Vec<u32>,
    /// For each input its place in that list.
    places: Vec<u32>,
}

impl Model for Order {
    ghost Value = { List ℕ };

    ghost view = { λ order. order.names.items };
}

/// The place of each number in a list, where it stands there.
fn places_in(alloc: Global, names: &[u32]) -> Result<Vec<u32>, OutOfMemory> {
    let mut places = vec![in alloc; 0u32; names.len()]?;
    for place in 0..names.len() {
        let name = names[place] as usize;
        if name < places.len() {
            places[name] = u32::try_from(place).unwrap_or(u32::MAX);
        }
    }
    Ok(places)
}

impl Order {
    /// That of a list of inputs.
    pub fn new(alloc: Global, inputs: &[u32]) -> Result<Self, OutOfMemory>
        ensures { IfOk result (λ order. order ≡ inputs.now) }
    {
        let names = inputs.to_vec(alloc)?;
        let places = places_in(alloc, inputs)?;
        Ok(Order { names, places })
    }

    /// The variable of the formula for which a variable of the diagrams stands: past the inputs it is the same.
    pub fn name(&self, variable: u32) -> u32
        ensures { result ≡ name_of (slice_get self.now variable) variable }
    {
        match self.names.get(variable as usize) {
            Some(name) => *name,
            None => variable,
        }
    }

    /// The variable of the diagrams that stands for a variable of the formula.
    pub fn variable_of(&self, name: u32) -> Option<u32>
        ensures { IfSome result (λ variable. name_of (slice_get self.now variable) variable ≡ name) }
    {
        let variable = match self.places.get(name as usize) {
            Some(place) => *place,
            None => name,
        };
        if self.name(variable) == name {
            Some(variable)
        } else {
            None
        }
    }
}
