ghost use Rattle.wb_word.specs.Table.{IsTable};

use crate::faults::ImageFault;
use crate::read::{read_data, read_program};
use crate::write::{write_data, write_program};
use std::alloc::Global;
use wb_word::{Addr, OutOfMemory, Rom, Word};

/// How many bytes the file of an image has.
pub const FILE_LENGTH: usize = 8192;

/// What the two read-only memories of a chip hold.
#[derive(Drop)]
pub struct Image {
    /// The program memory: words of 24 bits.
    pub prog: Rom<2048, 24>,
    /// The data memory: words of 16 bits.
    pub drom: Rom<1024, 16>,
    pub ghost prog_table: { IsTable 2048 24 prog },
    pub ghost drom_table: { IsTable 1024 16 drom },
}

impl Image {
    ghost use Rattle.std.specs.Prelude.{◌≡◌, ◌<◌, IfOk, IfErr, length, replicate, slice_index};
    ghost use Rattle.wb_rom.specs.ImageBytes.{IsImageOf, IsFaultOf};

    /// The image with 0 at every place of both memories.
    pub fn zero(alloc: Global) -> Result<Self, OutOfMemory>
        ensures prog { IfOk result (λ image. image.prog ≡ replicate 2048 0) }
        ensures drom { IfOk result (λ image. image.drom ≡ replicate 1024 0) }
    {
        let prog = Rom::zero(alloc)?;
        let drom = Rom::zero(alloc)?;
        Ok(Image { prog, drom })
    }

    /// Takes on the words of a file. What the image held before is gone. It takes no memory.
    pub fn read_file(&mut self, bytes: &[u8])
        requires { length bytes.now ≡ 8192 }
        ensures { IsImageOf bytes.now self.new }
    {
        read_program(&mut self.prog, bytes);
        read_data(&mut self.drom, bytes);
    }

    /// Writes the bytes of the image's file over these. It takes no memory.
    pub fn write_file(&self, bytes: &mut [u8])
        requires { length bytes.old ≡ 8192 }
        ensures { IsImageOf bytes.new self.now }
    {
        write_program(bytes, &self.prog);
        write_data(bytes, &self.drom);
    }

    /// The image whose file has these bytes. Dumps of other shapes, as those with the high byte first or
    /// with four bytes a program word, have to be converted first. The length is judged before memory is taken,
    /// and memory is taken before a word is read.
    pub fn from_bytes(alloc: Global, bytes: &[u8]) -> Result<Self, ImageFault>
        ensures image { IfOk result (IsImageOf bytes.now) }
        ensures fault { IfErr result (IsFaultOf bytes.now) }
    {
        if bytes.len() != FILE_LENGTH {
            return Err(ImageFault::BadLength(bytes.len()));
        }
        let mut image = Image::zero(alloc)?;
        image.read_file(bytes);
        Ok(image)
    }

    /// The bytes of the image's file. All memory is taken before the first of them is written.
    pub fn to_bytes(&self, alloc: Global) -> Result<Vec<u8>, OutOfMemory>
        ensures { IfOk result (λ bytes. IsImageOf bytes.items self.now) }
    {
        let mut bytes = vec![in alloc; 0u8; FILE_LENGTH]?;
        self.write_file(&mut bytes);
        Ok(bytes)
    }

    /// The program word at an address.
    pub fn word_at(&self, at: Addr) -> Word
        ensures { result.value ≡ slice_index self.now.prog at.value }
    {
        Word {
            value: self.prog.get(usize::from(at.value())),
        }
    }

    /// The data word that RP points to.
    pub fn drom_at(&self, rp: u16) -> u16
        requires { rp < 1024 }
        ensures { result ≡ slice_index self.now.drom rp }
    {
        self.drom.get(usize::from(rp)) as u16
    }
}
