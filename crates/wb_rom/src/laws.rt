ghost use Rattle.std.specs.Prelude.{◌≡◌, ◌<◌, ℕ, List, length, slice_index};
ghost use Rattle.wb_rom.specs.declared.images.Image.{Image};
ghost use Rattle.wb_rom.specs.ImageBytes.{IsImageOf};

/// Files and images pair off: 8192 bytes are the file of exactly one image, and an image has exactly one
/// file. There is nothing to run; a caller learns what it ensures.
pub fn files_pair_with_images()
    ensures one_image { (bytes : List ℕ) (first second : Image)
        → IsImageOf bytes first → IsImageOf bytes second → first ≡ second }
    ensures some_image { (bytes : List ℕ) → length bytes ≡ 8192 → ((k : ℕ) → k < 8192 → slice_index bytes k < 256)
        → (image : Image) × IsImageOf bytes image }
    ensures one_file { (first second : List ℕ) (image : Image)
        → IsImageOf first image → IsImageOf second image → first ≡ second }
    ensures some_file { (image : Image) → (bytes : List ℕ) × IsImageOf bytes image }
{}
