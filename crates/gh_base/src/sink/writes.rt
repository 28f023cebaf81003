// The calls of a sink in memory.

ghost use Rattle.std.specs.Prelude.{◌≡◌, ◌<◌, ◌++◌, ◌∷◌, [], Some, IfOk, OnErr, length};
ghost use Rattle.std.specs.Result.{is_err};
ghost use Rattle.std.specs.Io.KnownBytes.{WriteAppends};
ghost use Rattle.gh_base.specs.Outside.{HasCause, TakesSome, GivesNothing, Counts};
ghost use Rattle.gh_base.specs.Memory.{IsNewSink, IsWrite};

use super::MemorySink;
use crate::calls::Calls;
use crate::outside::{Failed, Sink};
use std::alloc::{AllocError, Global};

impl MemorySink {
    /// An empty sink with room for `room` bytes, of which a write takes at most `piece`.
    pub fn new(alloc: Global, room: usize, piece: usize) -> Result<MemorySink, AllocError>
        requires { 0 < piece }
        ensures { IfOk result (λ s. IsNewSink s room piece) }
    {
        Ok(MemorySink {
            bytes: Vec::with_capacity(alloc, room)?,
            room,
            piece,
            calls: Calls::new(alloc),
            failed: false,
        })
    }

    /// Lists a call of `write` that is to fail, by its number from 1. The call wasn't made yet.
    pub fn fail_at(&mut self, call: u64) -> Result<(), AllocError>
        requires { self.old.calls.made < call }
        ensures listed { IfOk result (λ _. self.new.calls.failing.items ≡ self.old.calls.failing.items ++ call ∷ []) }
        ensures made { self.new.calls.made ≡ self.old.calls.made }
        ensures faults { self.new.calls.faults ≡ self.old.calls.faults }
        ensures rest { self.new ≡ record self.old { calls = self.new.calls } }
        ensures refused { OnErr result (self.new.calls.failing.items ≡ self.old.calls.failing.items) }
    {
        self.calls.fail_at(call)
    }

    /// The bytes written.
    pub fn bytes(&self) -> &[u8]
        ensures { result.now ≡ self.now.bytes.items }
    {
        self.bytes.as_slice()
    }
}

impl Sink for MemorySink {
    ghost written = { λ s. Some s.bytes.items };

    ghost faults = { λ s. s.calls.faults };

    ghost calls = { λ s. Some s.calls.made };

    ghost failed = { λ s. s.failed };

    fn write(&mut self, piece: &[u8]) -> Result<usize, Failed>
        ensures exact { IsWrite self.old self.new piece.now result }
        ensures some { TakesSome result piece.now }
        ensures bytes { WriteAppends (Some self.old.bytes.items) (Some self.new.bytes.items) result piece.now }
        ensures nothing { length piece.now ≡ 0 → GivesNothing self.old.calls.faults self.new.calls.faults result }
        ensures cause { HasCause self.old.calls.faults self.new.calls.faults result }
        ensures called { Counts (Some self.old.calls.made) (Some self.new.calls.made) }
        ensures failed { self.new.failed ≡ is_err result }
    {
        let listed = self.calls.count();
        self.failed = false;
        if piece.is_empty() {
            return Ok(0);
        }
        let left = self.room - self.bytes.len();
        let count = piece.len().min(self.piece).min(left);
        if listed || count == 0 {
            self.failed = true;
            return Err(self.calls.fault());
        }
        match self.bytes.extend_from_slice(&piece[..count]) {
            Ok(()) => Ok(count),
            Err(_) => {
                self.failed = true;
                Err(self.calls.fault())
            }
        }
    }
}
