//! What holds of every line and of every text.
ghost use Rattle.std.specs.Prelude.{◌≡◌, ℕ, List};
ghost use Rattle.wb_lex.specs.declared.tokens.Token.{Token};
ghost use Rattle.wb_syntax.specs.Tree.{Tree};
ghost use Rattle.wb_syntax.specs.Expression.{IsExpression};
ghost use Rattle.wb_syntax.specs.Source.{IsSource, IsFirstBad};
ghost use Rattle.wb_syntax.specs.Statement.{IsStatement};
ghost use Rattle.wb_syntax.specs.declared.statements.Statement.{Statement};

/// Tokens are an expression of one tree at most.
pub fn expressions_are_read_in_one_way()
    ensures { (text : List ℕ) (tokens : List Token) (x y : Tree) → IsExpression text tokens x → IsExpression text tokens y → x ≡ y }
{}

/// A line says one statement at most. A text is the source of one list of statements at most, or has one first bad
/// line, and never both.
pub fn statements_are_read_in_one_way()
    ensures one_statement { (text : List ℕ) (tokens : List Token) (s t : Statement) → IsStatement text tokens s → IsStatement text tokens t → s ≡ t }
    ensures one_source { (text : List ℕ) (tokens : List Token) (ss ts : List Statement) → IsSource text tokens ss → IsSource text tokens ts → ss ≡ ts }
    ensures never_both { (text : List ℕ) (tokens : List Token) (ss : List Statement) (line : ℕ) → IsSource text tokens ss → IsFirstBad text tokens line → ⊥ }
    ensures one_line { (text : List ℕ) (tokens : List Token) (line other : ℕ) → IsFirstBad text tokens line → IsFirstBad text tokens other → line ≡ other }
{}
