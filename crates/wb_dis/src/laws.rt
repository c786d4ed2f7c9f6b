//! What holds of every line and of every listing. There is nothing to run; a caller learns what each ensures.
ghost use Rattle.std.specs.Prelude.{◌≡◌, ℕ, ◌^◌, ◌<◌};
ghost use Rattle.wb_asm.specs.Assembly.{IsImageOfText};
ghost use Rattle.wb_dis.specs.Line.{canonical_line};
ghost use Rattle.wb_dis.specs.Listing.{listing};
ghost use Rattle.wb_rom.specs.declared.images.Image.{Image};

use wb_lex::each_text_has_one_answer;
use wb_syntax::statements_are_read_in_one_way;
use wb_word::coding_laws;

/// Different words have different lines.
pub fn lines_tell_words_apart()
    ensures { (first second : ℕ) → first < 2 ^ 24 → second < 2 ^ 24 → canonical_line first ≡ canonical_line second → first ≡ second }
{
    coding_laws();
    each_text_has_one_answer();
    statements_are_read_in_one_way();
}

/// The listing of every image assembles to that image.
pub fn listings_assemble()
    ensures { (image : Image) → IsImageOfText (listing image) image }
{
    coding_laws();
}
