// An answer that is gathered in memory.

ghost use Rattle.std.specs.Prelude.{◌≡◌, [], Some, None};

use gh_base::outside::{Failed, Sink};
use gh_base::text::Text;
use std::alloc::Global;

/// A text that takes whole what is written, unless memory runs out.
#[derive(Drop)]
pub(crate) struct Gathered {
    text: Text,
    faults: u64,
    failed: bool,
}

impl Gathered {
    /// Nothing is written yet.
    pub(crate) fn new(alloc: Global) -> Gathered
        ensures { result.text ≡ [] }
    {
        Gathered {
            text: Text::new(alloc),
            faults: 0,
            failed: false,
        }
    }

    /// What was written.
    pub(crate) fn into_text(self) -> Text
        ensures { result ≡ self.text }
    {
        self.text
    }
}

impl Sink for Gathered {
    ghost written = { λ s. Some s.text };

    ghost faults = { λ s. s.faults };

    ghost calls = { λ _. None };

    ghost failed = { λ s. s.failed };

    fn write(&mut self, piece: &[u8]) -> Result<usize, Failed> {
        self.failed = false;
        if piece.is_empty() {
            return Ok(0);
        }
        match self.text.push(piece) {
            Ok(()) => Ok(piece.len()),
            Err(_) => {
                self.failed = true;
                self.faults = self.faults.saturating_add(1);
                Err(Failed)
            }
        }
    }
}
