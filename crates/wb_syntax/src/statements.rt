//! The statements of a source.
ghost use Rattle.std.specs.Prelude.{◌≡◌};

use crate::{Expr, Span};
use std::marker::Model;
use wb_word::{Cond, Dst, OpWord};

/// A list of expressions.
#[derive(Drop)]
pub struct Exprs {
    items: Vec<Expr>,
}

impl Model for Exprs {
    ghost use Rattle.std.specs.Prelude.{List};
    ghost use Rattle.wb_syntax.specs.Tree.{Tree};
    ghost use Rattle.wb_syntax.specs.Codes.{coded_trees};

    ghost Value = { List Tree };

    ghost coded = { coded_trees };

    ghost view = { λ exprs. exprs.items.items };
}

impl Exprs {
    /// These expressions, which takes no memory.
    pub(crate) fn from_vec(items: Vec<Expr>) -> Self
        ensures { result ≡ items.items }
    {
        Exprs { items }
    }

    /// The expressions in order.
    pub fn as_slice(&self) -> &[Expr]
        ensures { result.now ≡ self.now }
    {
        self.items.as_slice()
    }
}

/// What a statement says beside its label.
#[derive(Drop)]
pub enum Body {
    /// Nothing: the line has a label alone.
    Empty,
    Op(OpWord),
    Rt(OpWord),
    Ld(Dst, Expr),
    Jump(Cond, Expr),
    /// Sets the program counter.
    Org(Expr),
    /// Sets the data counter.
    Dorg(Expr),
    /// Gives a name a number.
    Equ(Span, Expr),
    /// Words of the program.
    Words(Exprs),
    /// Words of the data.
    Dwords(Exprs),
}

/// A line of a source that isn't empty.
#[derive(Drop)]
pub struct Statement {
    /// Counted from 1.
    pub line: u32,
    pub label: Option<Span>,
    pub body: Body,
}

/// The statements of a source, in order.
#[derive(Drop)]
pub struct Source {
    statements: Vec<Statement>,
}

impl Model for Source {
    ghost use Rattle.std.specs.Prelude.{List};
    ghost use Rattle.std.specs.Coded.{codes};
    ghost use Rattle.wb_syntax.specs.declared.statements.Statement.{Statement};
    ghost use Rattle.wb_syntax.specs.contracts.exprs.Expr as expr;

    ghost Value = { List Statement };

    ghost coded = { Prim.hlevel (codes, expr.the_row.coded) };

    ghost view = { λ source. source.statements.items };
}

impl Source {
    /// These statements, which takes no memory.
    pub(crate) fn from_vec(statements: Vec<Statement>) -> Self
        ensures { result ≡ statements.items }
    {
        Source { statements }
    }

    /// The statements in order.
    pub fn as_slice(&self) -> &[Statement]
        ensures { result.now ≡ self.now }
    {
        self.statements.as_slice()
    }
}
