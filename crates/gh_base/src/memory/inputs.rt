// The calls of inputs in memory.

ghost use Rattle.std.specs.Prelude.{◌≡◌, ◌<◌, ◌++◌, ◌∷◌, [], ℕ, List, Option, Some, None, is_some, drop, length, IfOk};
ghost use Rattle.std.specs.Prelude.{OnErr};
ghost use Rattle.std.specs.Io.KnownBytes.{ReadConsumes};
ghost use Rattle.gh_base.specs.Outside.{HasCause, Begins, ReadsWithin, has_begun, GivesOnlyBegun, Counts, AddsName};
ghost use Rattle.gh_base.specs.Files.{table_in, left_in, HasMore};
ghost use Rattle.gh_base.specs.Memory.{AreNoInputs, IsBegin, IsRead};

use super::MemoryInputs;
use crate::calls::Calls;
use crate::files::Files;
use crate::outside::{Failed, Inputs};
use std::alloc::{AllocError, Global};

impl MemoryInputs {
    /// No input, and no call that fails.
    pub fn new(alloc: Global, piece: usize) -> MemoryInputs
        requires { 0 < piece }
        ensures { AreNoInputs result piece }
    {
        MemoryInputs {
            files: Files::new(alloc),
            piece,
            calls: Calls::new(alloc),
        }
    }

    /// One input more, of a name that isn't there.
    pub fn add(&mut self, alloc: Global, name: &str, bytes: &[u8]) -> Result<(), AllocError>
        requires { table_in self.old.files name.now ≡ None }
        ensures added { IfOk result (λ _.
            HasMore (table_in self.old.files) (table_in self.new.files) name.now bytes.now) }
        ensures left { left_in self.new.files ≡ left_in self.old.files }
        ensures begun { self.new.files.begun ≡ self.old.files.begun }
        ensures piece { self.new.piece ≡ self.old.piece }
        ensures calls { self.new.calls ≡ self.old.calls }
        ensures refused { OnErr result (self.new.files.list.items ≡ self.old.files.list.items) }
    {
        self.files.add(alloc, name, bytes)
    }

    /// Lists a call of `begin` or `read` that is to fail, by its number: both are numbered together, from 1. The call
    /// wasn't made yet.
    pub fn fail_at(&mut self, call: u64) -> Result<(), AllocError>
        requires { self.old.calls.made < call }
        ensures listed { IfOk result (λ _. self.new.calls.failing.items ≡ self.old.calls.failing.items ++ call ∷ []) }
        ensures made { self.new.calls.made ≡ self.old.calls.made }
        ensures faults { self.new.calls.faults ≡ self.old.calls.faults }
        ensures rest { self.new ≡ record self.old { calls = self.new.calls } }
        ensures refused { OnErr result (self.new.calls.failing.items ≡ self.old.calls.failing.items) }
    {
        self.calls.fail_at(call)
    }
}

impl Inputs for MemoryInputs {
    ghost table = { λ m. Some (table_in m.files) };

    ghost left = { λ m. Some (left_in m.files) };

    ghost begun = { λ m. is_some m.files.begun };

    ghost faults = { λ m. m.calls.faults };

    ghost calls = { λ m. Some m.calls.made };

    ghost names = { λ _. None };

    fn begin(&mut self, name: &str) -> Result<bool, Failed>
        ensures exact { IsBegin self.old self.new result }
        ensures begins { Begins (Some (table_in self.old.files)) name.now result (Some (left_in self.new.files)) }
        ensures begun { is_some self.new.files.begun ≡ has_begun result }
        ensures table { Some (table_in self.new.files) ≡ Some (table_in self.old.files) }
        ensures cause { HasCause self.old.calls.faults self.new.calls.faults result }
        ensures called { Counts (Some self.old.calls.made) (Some self.new.calls.made) }
        ensures named { AddsName None None name.now }
    {
        self.files.close();
        if self.calls.count() {
            return Err(self.calls.fault());
        }
        Ok(self.files.begin(name))
    }

    fn read(&mut self, into: &mut [u8]) -> Result<usize, Failed>
        ensures exact { IsRead self.old self.new (length into.new) result }
        ensures kept { OnErr result (into.new ≡ into.old) }
        ensures past { IfOk result (λ n. drop n into.new ≡ drop n into.old) }
        ensures within { ReadsWithin result into.new }
        ensures bytes { ReadConsumes (Some (left_in self.old.files)) (Some (left_in self.new.files)) result into.new }
        ensures nothing { GivesOnlyBegun (is_some self.old.files.begun) self.old.calls.faults self.new.calls.faults result }
        ensures begun { is_some self.new.files.begun ≡ is_some self.old.files.begun }
        ensures table { Some (table_in self.new.files) ≡ Some (table_in self.old.files) }
        ensures cause { HasCause self.old.calls.faults self.new.calls.faults result }
        ensures called { Counts (Some self.old.calls.made) (Some self.new.calls.made) }
        ensures names { ◌≡◌ {A = Option (List (List ℕ))} None None }
    {
        let listed = self.calls.count();
        if !self.files.is_begun() {
            return Ok(0);
        }
        if listed {
            return Err(self.calls.fault());
        }
        Ok(self.files.read(self.piece, into))
    }
}
