//! Standard output as a sink.
use crate::{Failed, Sink};
use std::io::Write;

/// A writer as a sink, made for standard output as `StdSink::new(io::writer(&rt))`. It does not tell
/// what was taken.
#[derive(Drop)]
pub struct StdSink<W: Write + Drop> {
    out: W,
    faults: u64,
}

impl<W: Write + Drop> StdSink<W> {
    ghost use Rattle.std.specs.Prelude.{◌≡◌};

    /// A sink that has met no fault.
    pub fn new(out: W) -> Self
        ensures out { result.out ≡ out }
        ensures faults { result.faults ≡ 0 }
    {
        StdSink { out, faults: 0 }
    }
}

impl<W: Write + Drop> Sink for StdSink<W> {
    ghost use Rattle.std.specs.Prelude.{◌≤◌, None, IfOk, take};
    ghost use Rattle.std.specs.Io.KnownBytes.{Appends};
    ghost use Rattle.wb_base.specs.Sink.{IsPut};

    ghost taken = { λ _. None };

    ghost faults = { λ s. s.faults };

    fn put(&mut self, piece: &[u8]) -> Result<usize, Failed>
        ensures passed_on { IfOk result (λ m. Appends (W.contents self.old.out) (W.contents self.new.out) (take m piece.now)) }
        ensures later { self.old.faults ≤ self.new.faults }
        ensures put { IsPut None None self.old.faults self.new.faults piece.now result }
    {
        match write_flushed(&mut self.out, piece) {
            Ok(count) => Ok(count),
            Err(Failed) => {
                self.faults = self.faults.saturating_add(1);
                Err(Failed)
            }
        }
    }
}

ghost use Rattle.std.specs.Prelude.{◌≤◌, ◌<◌, length, take, IfOk};
ghost use Rattle.std.specs.Io.KnownBytes.{Appends};

// Writes a part of the piece from its front and flushes it, so that the device has taken it.
fn write_flushed<W: Write>(out: &mut W, piece: &[u8]) -> Result<usize, Failed>
    ensures bound { IfOk result (λ count. count ≤ length piece.now) }
    ensures some { IfOk result (λ count. 0 < length piece.now → 0 < count) }
    ensures bytes { IfOk result (λ count. Appends (W.contents out.old) (W.contents out.new) (take count piece.now)) }
{
    let count = out.write(piece)?;
    out.flush()?;
    if count > 0 || piece.is_empty() {
        Ok(count)
    } else {
        Err(Failed)
    }
}
