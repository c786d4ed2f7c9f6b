//! Texts of equal lines.
ghost use Rattle.std.specs.Prelude.{◌≡◌, IfOk};
ghost use Rattle.wb_assembled.specs.Repeated.{times};

use std::alloc::{AllocError, Global};

/// A text, so many times.
pub fn repeated(alloc: Global, text: &[u8], count: usize) -> Result<Vec<u8>, AllocError>
    ensures { IfOk result (λ whole. whole.items ≡ times count text.now) }
{
    let mut whole = Vec::new(alloc);
    for _said in 0..count {
        whole.extend_from_slice(text)?;
    }
    Ok(whole)
}
