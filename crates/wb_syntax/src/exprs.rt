//! Expressions.
ghost use Rattle.std.specs.Prelude.{◌≡◌};
ghost use Rattle.wb_syntax.specs.declared.exprs.Node.{Node};

use crate::Span;
use std::marker::Model;

/// An expression, which contracts see as its tree.
#[cycle(expr)]
#[derive(Drop)]
pub struct Expr {
    pub node: Node,
}

/// The outermost part of an expression.
#[cycle(expr)]
#[derive(Drop)]
pub enum Node {
    Number(u32),
    /// A name that stands for a number.
    Label(Span),
    /// `$`, the counter before the statement.
    Here,
    Minus(Box<Expr>),
    Plus(Box<Expr>, Box<Expr>),
    /// The first less the second.
    Less(Box<Expr>, Box<Expr>),
    Times(Box<Expr>, Box<Expr>),
}

impl Model for Expr {
    ghost use Rattle.wb_syntax.specs.Tree.{Tree};
    ghost use Rattle.wb_syntax.specs.Codes.{coded_tree};

    ghost Value = { Tree };

    ghost coded = { coded_tree };

    ghost use Rattle.wb_syntax.specs.View.{tree_of};

    ghost view = { λ expr. tree_of expr.node };

    ghost use Rattle.wb_syntax.specs.Tree.{node_count};

    ghost size = { node_count };
}
