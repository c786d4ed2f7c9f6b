//! The script language of the workbench: a text of host actions, read into a list of items.
//!
//! `read_script` gives exactly the unrolled items of a text that is a script, and else the number of its
//! first bad line; `read_lines` does so in room that was taken, and can't be refused. `items.rt` has the items,
//! `scripts.rt` the list of them, `faults.rt` the two answers that are no script; `table.rt` and `fields.rt` read one
//! line, `reader.rt` unrolls the lines, and `laws.rt` says what holds of every text.
//! `specs/Statement.antt` says what one line says, `specs/Script.antt` what the lines of a text say together.
#![tactic(auto)]

mod faults;
mod fields;
mod items;
mod laws;
mod reader;
mod scripts;
mod table;
#[cfg(test)]
mod tests;

pub use faults::ScriptFault;
pub use items::Item;
pub use laws::each_text_has_one_answer;
pub use reader::{MOST_ITEMS, read_lines, read_script};
pub use scripts::Script;
