// The traits `Inputs` and `Sink`, each with its meaning.

ghost use Rattle.std.specs.Prelude.{◌≡◌, ℕ, ◌<◌, List, length, Option, Bool};
ghost use Rattle.std.specs.Result.{is_err};
ghost use Rattle.std.specs.Io.KnownBytes.{ReadConsumes, WriteAppends};
ghost use Rattle.gh_base.specs.Outside.{HasCause, Begins, TakesSome, ReadsWithin, Table, has_begun, GivesNothing};
ghost use Rattle.gh_base.specs.Outside.{GivesOnlyBegun, Counts, AddsName};

/// The outside has failed.
#[derive(Clone, Copy, Debug, PartialEq, Eq)]
pub struct Failed;

/// Named inputs, of which one at a time is read.
pub trait Inputs {
    /// The bytes for each name, where they are told.
    ghost table: { Self → Option Table };

    /// The bytes left of the input that was begun, where they are told.
    ghost left: { Self → Option (List ℕ) };

    /// Whether an input is begun.
    ghost begun: { Self → Bool };

    /// How often the outside has failed.
    ghost faults: { Self → ℕ };

    /// How many calls of `begin` and `read` were made, together, where that is told.
    ghost calls: { Self → Option ℕ };

    /// The names that were begun, in their order, where they are told.
    ghost names: { Self → Option (List (List ℕ)) };

    /// Begins an input, and says whether there is one of this name.
    fn begin(&mut self, name: &str) -> Result<bool, Failed>
        ensures begins { Begins (table self.old) name.now result (left self.new) }
        ensures begun { begun self.new ≡ has_begun result }
        ensures table { table self.new ≡ table self.old }
        ensures cause { HasCause (faults self.old) (faults self.new) result }
        ensures called { Counts (calls self.old) (calls self.new) }
        ensures named { AddsName (names self.old) (names self.new) name.now };

    /// Takes the next bytes of the input.
    fn read(&mut self, into: &mut [u8]) -> Result<usize, Failed>
        ensures within { ReadsWithin result into.new }
        ensures bytes { ReadConsumes (left self.old) (left self.new) result into.new }
        ensures nothing { GivesOnlyBegun (begun self.old) (faults self.old) (faults self.new) result }
        ensures begun { begun self.new ≡ begun self.old }
        ensures table { table self.new ≡ table self.old }
        ensures cause { HasCause (faults self.old) (faults self.new) result }
        ensures called { Counts (calls self.old) (calls self.new) }
        ensures names { names self.new ≡ names self.old };
}

/// What takes bytes.
pub trait Sink {
    /// The bytes written, where they are told.
    ghost written: { Self → Option (List ℕ) };

    /// How often the outside has failed.
    ghost faults: { Self → ℕ };

    /// How many calls of `write` were made, where that is told.
    ghost calls: { Self → Option ℕ };

    /// Whether the last call failed.
    ghost failed: { Self → Bool };

    /// Takes some bytes from the front of a piece.
    fn write(&mut self, piece: &[u8]) -> Result<usize, Failed>
        ensures some { TakesSome result piece.now }
        ensures bytes { WriteAppends (written self.old) (written self.new) result piece.now }
        ensures nothing { length piece.now ≡ 0 → GivesNothing (faults self.old) (faults self.new) result }
        ensures cause { HasCause (faults self.old) (faults self.new) result }
        ensures called { Counts (calls self.old) (calls self.new) }
        ensures failed { failed self.new ≡ is_err result };
}
