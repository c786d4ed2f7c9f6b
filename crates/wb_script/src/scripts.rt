//! A list of items.
ghost use Rattle.std.specs.Prelude.{◌≡◌, ◌<◌, Some, length, slice_get};

use crate::Item;
use std::marker::Model;

/// The items of a script in order, with every repetition written out.
#[derive(Drop)]
pub struct Script {
    items: Vec<Item>,
}

impl Model for Script {
    ghost use Rattle.std.specs.Prelude.{List};
    ghost use Rattle.wb_script.specs.declared.items.Item.{Item};

    ghost Value = { List Item };

    ghost view = { λ script. script.items.items };
}

impl Script {
    /// A script of these items, which takes no memory.
    pub fn from_items(items: Vec<Item>) -> Self
        ensures { result ≡ items.items }
    {
        Script { items }
    }

    /// The items again, which takes no memory.
    pub fn into_items(self) -> Vec<Item>
        ensures { result.items ≡ self }
    {
        self.items
    }

    /// How many items there are.
    pub fn len(&self) -> usize
        ensures { result ≡ length self.now }
    {
        self.items.len()
    }

    /// The item at a place, counted from 0.
    pub fn at(&self, place: usize) -> Item
        requires { place < length self.now }
        ensures { slice_get self.now place ≡ Some result }
    {
        self.items[place]
    }
}
