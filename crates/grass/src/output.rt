//! A writer as the sink.

ghost use Rattle.std.specs.Prelude.{◌≡◌, None, false};

use gh_base::outside::{Failed, Sink};
use std::io::Write;

/// A writer. Nothing is told of what it holds.
#[derive(Drop)]
pub struct WriterSink<W: Write> {
    out: W,
    faults: u64,
    failed: bool,
}

impl<W: Write> WriterSink<W> {
    /// The sink over this writer.
    pub fn new(out: W) -> Self
        ensures faults { result.faults ≡ 0 }
        ensures failed { result.failed ≡ false }
    {
        WriterSink {
            out,
            faults: 0,
            failed: false,
        }
    }
}

impl<W: Write> Sink for WriterSink<W> {
    ghost written = { λ _. None };

    ghost faults = { λ s. s.faults };

    ghost calls = { λ _. None };

    ghost failed = { λ s. s.failed };

    fn write(&mut self, piece: &[u8]) -> Result<usize, Failed> {
        self.failed = false;
        if piece.is_empty() {
            return Ok(0);
        }
        match self.out.write(piece) {
            Ok(count) if count > 0 => Ok(count),
            _ => {
                self.faults = self.faults.saturating_add(1);
                self.failed = true;
                Err(Failed)
            }
        }
    }
}
