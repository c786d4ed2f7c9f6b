//! What holds of every source.
ghost use Rattle.std.specs.Prelude.{◌≡◌, ℕ, List};
ghost use Rattle.wb_asm.specs.Assembly.{IsImageOfText, IsFirstFault};
ghost use Rattle.wb_asm.specs.Placing.{ImagesArePlacings, PlacingsAreOne, NamesAreOnce};
ghost use Rattle.wb_asm.specs.declared.faults.AsmFault.{AsmFault};
ghost use Rattle.wb_rom.specs.declared.images.Image.{Image};

use wb_lex::each_text_has_one_answer;
use wb_rom::files_pair_with_images;
use wb_syntax::statements_are_read_in_one_way;

/// A text has one image at most, or one first fault, and never both. There is nothing to run; a caller learns what
/// it ensures.
pub fn each_source_has_one_answer()
    ensures one_image { (text : List ℕ) (first second : Image) → IsImageOfText text first → IsImageOfText text second → first ≡ second }
    ensures one_fault { (text : List ℕ) (first second : AsmFault) → IsFirstFault text first → IsFirstFault text second → first ≡ second }
    ensures never_both { (text : List ℕ) (image : Image) (fault : AsmFault) → IsImageOfText text image → IsFirstFault text fault → ⊥ }
{
    each_text_has_one_answer();
    statements_are_read_in_one_way();
    files_pair_with_images();
}

/// An image is that of a text exactly where it is that of a map from names to numbers and of placements that satisfy
/// every rule. There is nothing to run; a caller learns what it ensures.
pub fn images_are_placings()
    ensures { ImagesArePlacings }
{
    each_text_has_one_answer();
    statements_are_read_in_one_way();
}

/// A text has at most one such map with such placements, and the map gives no name twice. There is nothing to run; a
/// caller learns what it ensures.
pub fn placings_are_one()
    ensures one { PlacingsAreOne }
    ensures names { NamesAreOnce }
{}
