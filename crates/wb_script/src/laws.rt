//! What holds of every text.
ghost use Rattle.std.specs.Prelude.{◌≡◌, ◌⊎◌, ℕ, List};
ghost use Rattle.wb_script.specs.declared.items.Item.{Item};
ghost use Rattle.wb_script.specs.Script.{IsScript, IsFirstBad};

/// Every text is a script or has a first bad line, and never both; its items or that line are determined.
pub fn each_text_has_one_answer()
    ensures some { (text : List ℕ) → ((items : List Item) × IsScript text items) ⊎ ((line : ℕ) × IsFirstBad text line) }
    ensures never_both { (text : List ℕ) (items : List Item) (line : ℕ) → IsScript text items → IsFirstBad text line → ⊥ }
    ensures one_script { (text : List ℕ) (items others : List Item) → IsScript text items → IsScript text others → items ≡ others }
    ensures one_line { (text : List ℕ) (line other : ℕ) → IsFirstBad text line → IsFirstBad text other → line ≡ other }
{}
