//! Reads the statements of a source from its tokens.
//!
//! `parse` gives exactly the statements of a text, one for each line that isn't empty, or the first line that is
//! none. `statements.rt` and `exprs.rt` have what it gives, `faults.rt` and `refusals.rt` why tokens or a part of a line
//! gave nothing; `separators.rt` cuts the tokens, `spans.rt` gives slices of the text, `spelling.rt` says what a token is
//! to the grammar, and `mnemonics.rt` has the words that statements begin with; `parser.rt` reads lines, `instructions.rt` a mnemonic and
//! its operands, `expressions.rt` expressions, `clauses.rt` and `fields.rt` the clauses of a word; `names.rt` reads names
//! back by the tables of `wb_word`, and `laws.rt` says what holds of every text. The grammar stands in `specs/`: `Expression.antt`, `Clause.antt`, `Statement.antt`
//! and, for a whole text, `Source.antt`.
#![tactic(auto)]

mod clauses;
mod expressions;
mod exprs;
mod faults;
mod fields;
mod instructions;
mod laws;
mod mnemonics;
mod names;
mod parser;
mod refusals;
mod separators;
mod spans;
mod spelling;
mod statements;

pub use clauses::Clause;
pub use exprs::{Expr, Node};
pub use faults::SyntaxFault;
pub use laws::{expressions_are_read_in_one_way, statements_are_read_in_one_way};
pub use mnemonics::Mnemonic;
pub use parser::parse;
pub use separators::Separator;
pub use spans::Span;
pub use statements::{Body, Exprs, Source, Statement};
