ghost use Rattle.std.specs.Prelude.{◌≡◌};

use wb_word::OutOfMemory;

/// Why bytes gave no image.
#[derive(Clone, Copy, PartialEq, Eq, Debug)]
pub enum ImageFault {
    /// There aren't 8192 bytes, but so many.
    BadLength(usize),
    /// The allocator had no room for the image.
    OutOfMemory,
}

impl From<OutOfMemory> for ImageFault {
    ghost use Rattle.wb_rom.specs.declared.faults.ImageFault.TheVariants.{OutOfMemory};

    ghost from_gives = { λ _ e. e ≡ OutOfMemory };

    fn from(_: OutOfMemory) -> Self {
        ImageFault::OutOfMemory
    }
}
