//! What holds of every text.
ghost use Rattle.std.specs.Prelude.{◌≡◌, ◌⊎◌, ℕ, List};
ghost use Rattle.wb_lex.specs.declared.tokens.Token.{Token};
ghost use Rattle.wb_lex.specs.declared.faults.LexFault.{LexFault};
ghost use Rattle.wb_lex.specs.Tokens.{IsTokens, IsFirstFault};

/// Every text has tokens or a first fault, and never both; its tokens or that fault are determined.
pub fn each_text_has_one_answer()
    ensures some { (text : List ℕ) → ((tokens : List Token) × IsTokens text tokens) ⊎ ((fault : LexFault) × IsFirstFault text fault) }
    ensures never_both { (text : List ℕ) (tokens : List Token) (fault : LexFault) → IsTokens text tokens → IsFirstFault text fault → ⊥ }
    ensures one_list { (text : List ℕ) (tokens others : List Token) → IsTokens text tokens → IsTokens text others → tokens ≡ others }
    ensures one_fault { (text : List ℕ) (fault other : LexFault) → IsFirstFault text fault → IsFirstFault text other → fault ≡ other }
{}
