//! Inputs in memory of which no call fails.

ghost use Rattle.std.specs.Prelude.{◌≡◌, ℕ, List, min, Option, Some, None, is_some, Ok, drop, length, IfOk, OnErr};
ghost use Rattle.std.specs.Io.KnownBytes.{ReadConsumes};
ghost use Rattle.gh_base.specs.Outside.{HasCause, Begins, ReadsWithin, has_begun, GivesOnlyBegun, Counts, AddsName};
ghost use Rattle.gh_base.specs.Files.{table_in, left_in, AreNoFiles, HasMore};

use crate::files::Files;
use crate::outside::{Failed, Inputs};
use std::alloc::{AllocError, Global};

/// Inputs in memory. A read gives as much as there is and fits.
#[derive(Drop)]
pub struct SteadyInputs {
    files: Files,
}

impl SteadyInputs {
    /// No input.
    pub fn new(alloc: Global) -> SteadyInputs
        ensures { AreNoFiles result.files }
    {
        SteadyInputs {
            files: Files::new(alloc),
        }
    }

    /// One input more, of a name that isn't there.
    pub fn add(&mut self, alloc: Global, name: &str, bytes: &[u8]) -> Result<(), AllocError>
        requires { table_in self.old.files name.now ≡ None }
        ensures added { IfOk result (λ _.
            HasMore (table_in self.old.files) (table_in self.new.files) name.now bytes.now) }
        ensures left { left_in self.new.files ≡ left_in self.old.files }
        ensures begun { self.new.files.begun ≡ self.old.files.begun }
        ensures refused { OnErr result (self.new.files.list.items ≡ self.old.files.list.items) }
    {
        self.files.add(alloc, name, bytes)
    }
}

impl Inputs for SteadyInputs {
    ghost table = { λ s. Some (table_in s.files) };

    ghost left = { λ s. Some (left_in s.files) };

    ghost begun = { λ s. is_some s.files.begun };

    ghost faults = { λ _. 0 };

    ghost calls = { λ _. None };

    ghost names = { λ _. None };

    fn begin(&mut self, name: &str) -> Result<bool, Failed>
        ensures answer { result ≡ Ok (is_some (table_in self.old.files name.now)) }
        ensures files { self.new.files.list ≡ self.old.files.list }
        ensures begins { Begins (Some (table_in self.old.files)) name.now result (Some (left_in self.new.files)) }
        ensures begun { is_some self.new.files.begun ≡ has_begun result }
        ensures table { Some (table_in self.new.files) ≡ Some (table_in self.old.files) }
        ensures cause { HasCause 0 0 result }
        ensures called { Counts None None }
        ensures named { AddsName None None name.now }
    {
        Ok(self.files.begin(name))
    }

    fn read(&mut self, into: &mut [u8]) -> Result<usize, Failed>
        ensures given { result ≡ Ok (min (length (left_in self.old.files)) (length into.new)) }
        ensures past { IfOk result (λ n. drop n into.new ≡ drop n into.old) }
        ensures files { self.new.files.list ≡ self.old.files.list }
        ensures within { ReadsWithin result into.new }
        ensures bytes { ReadConsumes (Some (left_in self.old.files)) (Some (left_in self.new.files)) result into.new }
        ensures nothing { GivesOnlyBegun (is_some self.old.files.begun) 0 0 result }
        ensures begun { is_some self.new.files.begun ≡ is_some self.old.files.begun }
        ensures table { Some (table_in self.new.files) ≡ Some (table_in self.old.files) }
        ensures cause { HasCause 0 0 result }
        ensures called { Counts None None }
        ensures names { ◌≡◌ {A = Option (List (List ℕ))} None None }
    {
        Ok(self.files.read(into.len(), into))
    }
}
