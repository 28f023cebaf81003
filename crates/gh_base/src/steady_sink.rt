//! A sink of which no call fails, and which keeps only how many bytes it took.

ghost use Rattle.std.specs.Prelude.{◌≡◌, ◌+◌, ◌-◌, ◌^◌, min, Ok, None, false, length};
ghost use Rattle.std.specs.Result.{is_err};
ghost use Rattle.std.specs.Io.KnownBytes.{WriteAppends};
ghost use Rattle.gh_base.specs.Outside.{HasCause, TakesSome, GivesNothing, Counts};

use crate::outside::{Failed, Sink};

/// A sink that takes every piece whole.
#[derive(Drop)]
pub struct SteadySink {
    taken: u64,
}

impl SteadySink {
    /// Nothing taken yet.
    pub fn new() -> SteadySink
        ensures { result.taken ≡ 0 }
    {
        SteadySink { taken: 0 }
    }

    /// How many bytes were taken. The count stands still at the greatest u64.
    pub fn taken(&self) -> u64
        ensures { result ≡ self.now.taken }
    {
        self.taken
    }
}

impl Sink for SteadySink {
    ghost written = { λ _. None };

    ghost faults = { λ _. 0 };

    ghost calls = { λ _. None };

    ghost failed = { λ _. false };

    fn write(&mut self, piece: &[u8]) -> Result<usize, Failed>
        ensures whole { result ≡ Ok (length piece.now) }
        ensures counted { self.new.taken ≡ min (self.old.taken + length piece.now) (2 ^ 64 - 1) }
        ensures some { TakesSome result piece.now }
        ensures bytes { WriteAppends None None result piece.now }
        ensures nothing { length piece.now ≡ 0 → GivesNothing 0 0 result }
        ensures cause { HasCause 0 0 result }
        ensures called { Counts None None }
        ensures failed { false ≡ is_err result }
    {
        self.taken = self.taken.saturating_add(piece.len() as u64);
        Ok(piece.len())
    }
}
