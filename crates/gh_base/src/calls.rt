//! Numbered calls, of which listed ones fail.

ghost use Rattle.std.specs.Prelude.{◌≡◌, ◌↔◌, ◌<◌, ◌≤◌, ◌++◌, ◌∷◌, [], IsTrue, Contains, IfOk, OnErr};
ghost use Rattle.gh_base.specs.Outside.{next, Rose};

use crate::outside::Failed;
use std::alloc::{AllocError, Global};

/// Calls that are numbered from 1. Both counts stand still at the greatest u64.
#[derive(Debug, Drop)]
pub struct Calls {
    failing: Vec<u64>,
    made: u64,
    faults: u64,
}

impl Calls {
    /// No call yet, and none that is to fail.
    pub fn new(alloc: Global) -> Calls
        ensures failing { result.failing.items ≡ [] }
        ensures made { result.made ≡ 0 }
        ensures faults { result.faults ≡ 0 }
    {
        Calls {
            failing: Vec::new(alloc),
            made: 0,
            faults: 0,
        }
    }

    /// Lists a call that is to fail.
    pub fn fail_at(&mut self, call: u64) -> Result<(), AllocError>
        requires { self.old.made < call }
        ensures ok { IfOk result (λ _. self.new.failing.items ≡ self.old.failing.items ++ call ∷ []) }
        ensures made { self.new.made ≡ self.old.made }
        ensures faults { self.new.faults ≡ self.old.faults }
        ensures refused { OnErr result (self.new.failing.items ≡ self.old.failing.items) }
    {
        self.failing.push(call)?;
        Ok(())
    }

    /// Counts a call, and says whether it is listed.
    pub fn count(&mut self) -> bool
        ensures made { self.new.made ≡ next self.old.made }
        ensures listed { IsTrue result ↔ Contains self.old.failing.items self.new.made }
        ensures rest { self.new ≡ record self.old { made = self.new.made } }
    {
        self.made = self.made.saturating_add(1);
        self.failing.contains(&self.made)
    }

    /// Counts a fault.
    pub fn fault(&mut self) -> Failed
        ensures faults { self.new.faults ≡ next self.old.faults }
        ensures rose { Rose self.old.faults self.new.faults }
        ensures later { self.old.faults ≤ self.new.faults }
        ensures rest { self.new ≡ record self.old { faults = self.new.faults } }
    {
        self.faults = self.faults.saturating_add(1);
        Failed
    }
}
