ghost use Rattle.std.specs.Prelude.{IfOk};
ghost use Rattle.wb_gen.specs.Demo.{IsPairOf, body_of};

use crate::bodies::write_bodies;
use crate::program::Program;
use std::alloc::Global;
use wb_rom::Image;
use wb_word::OutOfMemory;

/// The two images of a number. All memory is taken before the first word is written.
pub fn make_pair(alloc: Global, number: u64) -> Result<(Image, Image), OutOfMemory>
    ensures { IfOk result (λ pair. IsPairOf (body_of number) pair.0 pair.1) }
{
    let mut first = Program::new(alloc)?;
    let mut second = Program::new(alloc)?;
    first.open();
    second.open();
    write_bodies(number, &mut first, &mut second);
    first.close();
    second.close();
    Ok((first.into_image(), second.into_image()))
}
