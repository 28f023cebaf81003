//! What names are bound to, as it is encoded.

ghost use Rattle.std.specs.Prelude.{IfOk, OnOk};
ghost use Rattle.gh_symb.specs.Tables.{bound_by, Walks};
ghost use Rattle.gh_symb.specs.Fitting.{EncodesBeside, EncodesBinding};
ghost use Rattle.gh_symb.specs.Inside.{binding_of};
ghost use Rattle.gh_symb.specs.Reads.{walked_of, LearnsTerms, ReadsBound, ReadsEach, ReadsStates, ReadsWalked};
ghost use Rattle.gh_symb.specs.Reads.{WalksEach, gives_walked, ReadsGives};

use crate::kinds::Kinds;
use crate::numbers::{short, term_of};
use crate::over_terms::BoundAssertion;
use crate::scope::Scope;
use gh_ast::{Assertion, Procedure};
use gh_grass::binding::Binding;
use std::alloc::{AllocError, Global};

impl<'a> Scope<'a> {
    /// These terms, and beside them those of other variables.
    pub fn over(&self, alloc: Global, others: Binding) -> Result<Binding, AllocError>
        ensures { IfOk result (λ b. EncodesBeside b (bound_by self.now) (binding_of others)) }
    {
        let mut binding = others;
        for entry in self.entries() {
            binding.set(alloc, entry.name, term_of(entry.term))?;
        }
        Ok(binding)
    }

    /// The terms of the variables.
    pub fn binding(&self, alloc: Global) -> Result<Binding, AllocError>
        ensures { IfOk result (λ b. EncodesBinding b (bound_by self.now)) }
    {
        let binding = self.over(alloc, Binding::new(alloc))?;
        Ok(binding)
    }

    /// An assertion in a version of the heap under these terms.
    pub fn bound(
        &self,
        alloc: Global,
        assertion: &'a Assertion,
        version: usize,
    ) -> Result<BoundAssertion<'a>, AllocError>
        ensures { IfOk result (ReadsBound assertion.now self.now version) }
    {
        let binding = self.binding(alloc)?;
        let version = short(version);
        Ok(BoundAssertion {
            assertion,
            binding,
            version,
        })
    }

    /// Walks over an assertion, and gives it.
    pub fn walk_bound(
        &mut self,
        alloc: Global,
        kinds: &mut Kinds,
        assertion: &'a Assertion,
        version: usize,
    ) -> Result<BoundAssertion<'a>, AllocError>
        ensures made { OnOk result (Walks (walked_of assertion.now) kinds.old self.old kinds.new self.new version) }
        ensures encodes { IfOk result (ReadsWalked assertion.now kinds.old self.old version) }
    {
        self.walk(kinds, assertion, version)?;
        let bound = self.bound(alloc, assertion, version)?;
        Ok(bound)
    }

    /// Walks over alternatives in their order, and gives each once it is walked.
    pub fn walk_bounds(
        &mut self,
        alloc: Global,
        kinds: &mut Kinds,
        alternatives: &'a [Assertion],
        version: usize,
    ) -> Result<Vec<BoundAssertion<'a>>, AllocError>
        ensures made { OnOk result (WalksEach alternatives.now kinds.old self.old kinds.new self.new version) }
        ensures encode { IfOk result (λ bs. ReadsEach alternatives.now kinds.old self.old version bs.items) }
    {
        let mut bounds = Vec::new(alloc);
        for alternative in alternatives {
            bounds.push(self.walk_bound(alloc, kinds, alternative, version)?)?;
        }
        Ok(bounds)
    }

    /// The results of a procedure get new values. Then walks over what the procedure gives.
    pub fn walk_gives(
        &mut self,
        alloc: Global,
        kinds: &mut Kinds,
        procedure: &'a Procedure,
        version: usize,
    ) -> Result<Vec<BoundAssertion<'a>>, AllocError>
        ensures made { OnOk result (Walks (gives_walked procedure.now) kinds.old self.old kinds.new self.new version) }
        ensures encode { IfOk result (λ bs. ReadsGives procedure.now kinds.old self.old version bs.items) }
    {
        self.renew(kinds, procedure.results.as_slice())?;
        let bounds = self.walk_bounds(alloc, kinds, procedure.gives.as_slice(), version)?;
        Ok(bounds)
    }

    /// Variables that had no term before and have one now are remembered with it.
    pub fn learn(&mut self, before: &Scope<'a>, now: &Scope<'a>) -> Result<(), AllocError>
        ensures { OnOk result (LearnsTerms before.now now.now self.old self.new) }
    {
        for entry in now.entries() {
            self.learn_one(before, entry)?;
        }
        Ok(())
    }
}

/// The terms of the variables at each state: those that they have there, else their first ones.
pub fn all_bindings(
    alloc: Global,
    states: &[Scope<'_>],
    firsts: &Scope<'_>,
) -> Result<Vec<Binding>, AllocError>
    ensures { IfOk result (λ bs. ReadsStates states.now firsts.now bs.items) }
{
    let mut bindings = Vec::new(alloc);
    for state in states {
        let others = firsts.binding(alloc)?;
        bindings.push(state.over(alloc, others)?)?;
    }
    Ok(bindings)
}
