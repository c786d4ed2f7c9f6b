//! Images of the µPD77C25: 2048 program words of 24 bits and 1024 data words of 16 bits.
//!
//! `Image::read_file` and `write_file` go between an image and the 8192 bytes of its file exactly by `IsImageOf`
//! of `specs/ImageBytes.antt`, which is one to one, and can't be refused; `from_bytes` and `to_bytes` take the
//! memory for that first. `images` has the image, `read` and `write` the two directions, `faults` why bytes gave
//! no image, `laws` that the bytes of an image are its own.
#![tactic(auto)]

mod faults;
mod images;
mod laws;
mod read;
mod write;

pub use faults::ImageFault;
pub use images::{FILE_LENGTH, Image};
pub use laws::files_pair_with_images;
pub use wb_word::{OutOfMemory, Rom};

#[cfg(test)]
mod tests {
    use super::*;
    use std::test::Fail;
    use wb_word::Addr;

    #[test]
    fn other_lengths_are_refused(rt: HostRuntime) -> Result<(), Fail> {
        for length in [0, 8191, 8193] {
            let bytes = vec![in rt.alloc(); 0u8; length]?;
            let fault = Image::from_bytes(rt.alloc(), &bytes).err();
            assert_eq!(rt;
                fault,
                Some(ImageFault::BadLength(length)),
                "{length} bytes"
            );
        }
        Ok(())
    }

    #[test]
    fn files_are_read_and_written_low_byte_first(rt: HostRuntime) -> Result<(), Fail> {
        let mut bytes = vec![in rt.alloc(); 0u8; FILE_LENGTH]?;
        bytes[0..3].copy_from_slice(&[0x07, 0x00, 0xC1]);
        bytes[6141..6146].copy_from_slice(&[0x03, 0x02, 0x01, 0x34, 0x12]);
        bytes[8190..8192].copy_from_slice(&[0xCD, 0xAB]);
        let image = Image::from_bytes(rt.alloc(), &bytes)?;
        assert_eq!(rt; image.word_at(Addr { value: 0 }).value(), 0xC1_0007);
        assert_eq!(rt; image.word_at(Addr { value: 1 }).value(), 0);
        assert_eq!(rt; image.word_at(Addr { value: 2047 }).value(), 0x01_0203);
        assert_eq!(rt; image.drom_at(0), 0x1234);
        assert_eq!(rt; image.drom_at(1023), 0xABCD);
        assert_eq!(rt; image.to_bytes(rt.alloc())?.as_slice(), bytes.as_slice());
        Ok(())
    }

    #[test]
    fn words_are_set_by_place(rt: HostRuntime) -> Result<(), Fail> {
        let mut image = Image::zero(rt.alloc())?;
        image.prog.set(1, 0xC1_0007);
        image.drom.set(1, 0x1234);
        assert_eq!(rt; image.prog.get(0), 0);
        assert_eq!(rt; image.prog.get(1), 0xC1_0007);
        let bytes = image.to_bytes(rt.alloc())?;
        assert_eq!(rt; bytes.len(), FILE_LENGTH);
        assert_eq!(rt; &bytes[0..7], [0, 0, 0, 0x07, 0x00, 0xC1, 0].as_slice());
        assert_eq!(rt; &bytes[6144..6149], [0, 0, 0x34, 0x12, 0].as_slice());
        Ok(())
    }
}
